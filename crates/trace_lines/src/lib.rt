// The lines of program `trace`, written into the lent output.
#![tactic(auto)]

pub mod group_lines;

ghost use Rattle.std.specs.Prelude.{◌≡◌, ◌+◌, ◌≤◌, length};
ghost use Rattle.fields.specs.Digits.{digits};
ghost use Rattle.fields.specs.Put.{put};
ghost use Rattle.table.specs.Table.{cell, ended};
ghost use Rattle.trace_lines.specs.Lines.{call_name, sign_of, change_text, figure_cells, answer_cells, call_line};

use calls::Returned;

// Numbers, signs and names are put at fixed widths into the lent output: `write!` would need a writer over the slice, which keeps no index for a line's other cells.
// Writes 0 or -, 1 byte.
fn put_sign(out: &mut [u8], at: usize, x: i64)
    requires { at + 1 ≤ length out.old }
    ensures { out.new ≡ put out.old at (sign_of x) }
{
    if x < 0 {
        fields::put_bytes(out, at, b"-");
        return;
    }
    fields::put_bytes(out, at, b"0");
}

// Writes a signed number and a comma, 18 bytes.
fn put_change(out: &mut [u8], at: usize, x: i64)
    requires { at + 18 ≤ length out.old }
    ensures { out.new ≡ put out.old at (cell (change_text x)) }
{
    put_sign(out, at, x);
    fields::put_digits(out, at + 1, 16, x.unsigned_abs());
    fields::put_bytes(out, at + 17, b",");
}

// Writes the last figure of a line and byte 10, 4 bytes.
fn put_last(out: &mut [u8], at: usize, n: u64)
    requires { at + 4 ≤ length out.old }
    ensures { out.new ≡ put out.old at (ended (digits 3 n)) }
{
    fields::put_digits(out, at, 3, n);
    fields::put_bytes(out, at + 3, b"\n");
}

// Writes a cause and what a call returned: change, accepted, rejected and closed, 33 bytes.
fn put_figures(out: &mut [u8], at: usize, cause: u64, r: Returned)
    requires { at + 33 ≤ length out.old }
    ensures { out.new ≡ put out.old at (figure_cells cause r.change r.accepted r.rejected r.closed) }
{
    table::put_cell(out, at, 2, cause);
    put_change(out, at + 3, r.change);
    table::put_cell(out, at + 21, 3, r.accepted);
    table::put_cell(out, at + 25, 3, r.rejected);
    put_last(out, at + 29, r.closed);
}

// Writes what a call answered, 33 bytes.
fn put_answer(out: &mut [u8], at: usize, answer: Result<Returned, u64>)
    requires { at + 33 ≤ length out.old }
    ensures { out.new ≡ put out.old at (answer_cells answer) }
{
    match answer {
        Ok(r) => put_figures(out, at, 0, r),
        Err(cause) => {
            let zeros = Returned {
                change: 0,
                written: 0,
                accepted: 0,
                rejected: 0,
                closed: 0,
            };
            put_figures(out, at, cause, zeros)
        }
    }
}

// Writes the name of the call with this tag and a comma, and answers where they end. (By the tag, since the body was not kept: see journal `good_length`.)
fn put_call(out: &mut [u8], at: usize, tag: u8) -> usize
    requires { at + 8 ≤ length out.old }
    ensures { (out.new ≡ put out.old at (cell (call_name tag))) × (result ≡ at + length (cell (call_name tag))) }
{
    let name: &[u8] = match tag {
        0 => b"fresh,",
        1 => b"request,",
        2 => b"file,",
        3 => b"cancel,",
        4 => b"close,",
        _ => b"removal,",
    };
    fields::put_bytes(out, at, name);
    at + name.len()
}

// Writes the line of an entry with this number and tag, at most 52 bytes, and answers where it ends. A refused call has the number of its cause, any number.
pub fn put_entry_line(
    out: &mut [u8],
    at: usize,
    number: u64,
    tag: u8,
    answer: Result<Returned, u64>,
) -> usize
    requires { at + 52 ≤ length out.old }
    ensures { (out.new ≡ put out.old at (call_line number tag answer)) × (result ≡ at + length (call_line number tag answer)) × (result ≤ at + 52) }
{
    table::put_cell(out, at, 10, number);
    let end = put_call(out, at + 11, tag);
    put_answer(out, end, answer);
    end + 33
}
