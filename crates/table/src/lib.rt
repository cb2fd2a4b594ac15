// The posted table, written into the lent output.
#![tactic(auto)]

pub mod lines;

ghost use Rattle.std.specs.Prelude.{◌≡◌, true, [], ◌∷◌, ◌+◌, ◌*◌, ◌≤◌, length, take};
ghost use Rattle.fields.specs.Digits.{digits};
ghost use Rattle.fields.specs.Put.{put};
ghost use Rattle.rules.specs.Lists.{every};
ghost use Rattle.ledger.specs.Bills.{code_bytes, product_byte};
ghost use Rattle.ledger.specs.Books.{book, live, small_charge};
ghost use Rattle.table.specs.Table.{cell, state_byte, terms_cells, amount_cells, state_cell, heading, line_of, lines_of, total_line, stop_line, table_of, heading_size, line_size, total_size, stop_size, table_room, printed_by, printed};
ghost use Rattle.ledger.specs.Limits.{ledger_places};

use crate::lines::Lines;
use ledger::{Bill, Posted, Product, RateCode, State, Terms, bills};
use places::checks;
use rules::Cause;
use units::{Cents, Date};

// The bytes of the heading, of a bill's line, of the total's line and of the line after a bad entry.
pub const HEADING_SIZE: usize = 56;

pub const LINE_SIZE: usize = 85;

pub const TOTAL_SIZE: usize = 23;

pub const STOP_SIZE: usize = 11;

// The bytes that the longest table has: an output for a table has room for it.
pub const TABLE_ROOM: usize = 10970;

// O, I or C. (No `From`: it would stand with `State` in crate ledger, and the letters are the table's alone.)
fn state_byte(s: State) -> u8
    ensures { result ≡ state_byte s }
{
    match s {
        State::Open => b'O',
        State::Issued => b'I',
        State::Cancelled => b'C',
    }
}

// Writes a number in so many digits and a comma.
pub fn put_cell(out: &mut [u8], at: usize, width: usize, n: u64)
    requires { at + width + 1 ≤ length out.old }
    ensures { out.new ≡ put out.old at (cell (digits width n)) }
{
    fields::put_digits(out, at, width, n);
    fields::put_bytes(out, at + width, b",");
}

// Writes a rate code and a comma, 6 bytes.
fn put_code_cell(out: &mut [u8], at: usize, c: RateCode)
    requires { at + 6 ≤ length out.old }
    ensures { out.new ≡ put out.old at (cell (code_bytes c)) }
{
    bills::put_code(out, at, c);
    fields::put_bytes(out, at + 5, b",");
}

// Writes a product and a comma, 2 bytes.
fn put_kind(out: &mut [u8], at: usize, p: Product)
    requires { at + 2 ≤ length out.old }
    ensures { out.new ≡ put out.old at (cell (product_byte p ∷ [])) }
{
    let kind = [u8::from(p), 44];
    fields::put_bytes(out, at, &kind);
}

// Writes account, key, code, kind and sequence, 30 bytes.
fn put_terms(out: &mut [u8], at: usize, t: Terms)
    requires { at + 30 ≤ length out.old }
    ensures { out.new ≡ put out.old at (terms_cells t) }
{
    let id = t.identity;
    let code = t.code;
    let product = t.product;
    put_cell(out, at, 12, id.account);
    put_cell(out, at + 13, 4, id.key);
    put_code_cell(out, at + 18, code);
    put_kind(out, at + 24, product);
    put_cell(out, at + 26, 3, t.sequence);
}

// Writes charge, applied and owed, 42 bytes.
fn put_amounts(out: &mut [u8], at: usize, p: Posted)
    requires { at + 42 ≤ length out.old }
    ensures { out.new ≡ put out.old at (amount_cells p) }
{
    let charge = p.charge();
    let applied = p.applied();
    let owed = p.owed();
    put_cell(out, at, 13, charge.0);
    put_cell(out, at + 14, 13, applied.0);
    put_cell(out, at + 28, 13, owed.0);
}

// Writes the state and byte 10, 2 bytes.
fn put_state(out: &mut [u8], at: usize, t: Terms, today: Date)
    requires { at + 2 ≤ length out.old }
    ensures { out.new ≡ put out.old at (state_cell today t) }
{
    let state = t.state(today);
    let end = [state_byte(state), 10];
    fields::put_bytes(out, at, &end);
}

// Writes a bill's line.
pub fn put_line(out: &mut [u8], at: usize, b: Bill, today: Date)
    requires { at + line_size ≤ length out.old }
    ensures { out.new ≡ put out.old at (line_of today b) }
{
    let terms = b.terms;
    let posted = b.posted;
    let ccf = terms.latest.consumption;
    put_terms(out, at, terms);
    put_cell(out, at + 30, 10, ccf.0);
    put_amounts(out, at + 41, posted);
    put_state(out, at + 83, terms, today);
}

// Writes the total's line.
pub fn put_total(out: &mut [u8], at: usize, total: Cents)
    requires { at + total_size ≤ length out.old }
    ensures { out.new ≡ put out.old at (total_line total.0) }
{
    fields::put_bytes(out, at, b"total,");
    fields::put_digits(out, at + 6, 16, total.0);
    fields::put_bytes(out, at + 22, b"\n");
}

// Writes the line after a bad entry, if there is one, and answers where it ends.
pub fn put_stop(out: &mut [u8], at: usize, stopped: bool) -> usize
    requires { at + stop_size ≤ length out.old }
    ensures answer { result ≡ at + length (stop_line stopped) }
    ensures written { out.new ≡ put out.old at (stop_line stopped) }
{
    if stopped {
        fields::put_bytes(out, at, b"stopped,13\n");
        return at + STOP_SIZE;
    }
    at
}

// Writes the heading.
pub fn put_heading(out: &mut [u8])
    requires { heading_size ≤ length out.old }
    ensures { out.new ≡ put out.old 0 heading }
{
    fields::put_bytes(
        out,
        0,
        b"account,key,code,kind,seq,ccf,charge,applied,owed,state\n",
    );
}

// Writes the table of a lent ledger, and answers how many bytes it has.
pub fn write<T: Lines>(out: &mut [u8], lent: &[T], stopped: bool) -> usize
    requires { (T.holds lent.now ≡ true) × ((T.held lent.now).count ≤ ledger_places) × (every small_charge (live (T.held lent.now)) ≡ true) × (table_room ≤ length out.old) }
    ensures answer { result ≡ length (table_of (book (T.held lent.now)) stopped) }
    ensures written { out.new ≡ put out.old 0 (table_of (book (T.held lent.now)) stopped) }
    ensures at_most { result ≤ table_room }
{
    put_heading(out);
    let h = T::header(lent);
    let n = h.count;
    let end = T::put_lines(lent, n, out, HEADING_SIZE, h.today);
    let total = T::total(lent, n);
    put_total(out, end, total);
    put_stop(out, end + TOTAL_SIZE, stopped)
}

// Writes the table of a lent ledger, unless the ledger is not sound (2) or the output has no room (1).
pub fn print<T: Lines>(out: &mut [u8], lent: &[T], stopped: bool) -> Result<usize, Cause>
    ensures answer { result ≡ printed_by (T.held lent.now) stopped (length out.old) }
    ensures written { out.new ≡ put out.old 0 (printed (T.held lent.now) stopped (length out.old)) }
{
    if !checks::sound(lent) {
        return Err(Cause::BadArgument);
    }
    if out.len() < TABLE_ROOM {
        return Err(Cause::OutputTooSmall);
    }
    Ok(write(out, lent, stopped))
}
