// The lines of a file's groups, read off the file and the answers to it.
ghost use Rattle.std.specs.Prelude.{◌≡◌, ◌+◌, ◌*◌, ◌≤◌, length, drop};
ghost use Rattle.fields.specs.Put.{put, part};
ghost use Rattle.records.specs.Limits.{record_size};
ghost use Rattle.records.specs.Layout.{records_from};
ghost use Rattle.file.specs.File.{groups};
ghost use Rattle.file.specs.parts.Walk.{group_at};
ghost use Rattle.table.specs.Table.{cell, ended};
ghost use Rattle.trace_lines.specs.Lines.{first_key};
ghost use Rattle.trace_lines.specs.parts.ReadAnswers.{group_from, read_verdict, answer_long, read_line, read_lines, Lined};

use records::group::GroupAt;
use records::{RECORD_SIZE, layout};

// Where the error code of a REJ's first detail stands.
const FIRST_ERROR_CODE: usize = RECORD_SIZE + layout::ERROR_CODE.at;

// Writes n bytes of src from index `from` on and a comma.
fn put_field(out: &mut [u8], at: usize, src: &[u8], from: usize, n: usize)
    requires has_room { at + n + 1 ≤ length out.old }
    requires whole { from + n ≤ length src.now }
    ensures { out.new ≡ put out.old at (cell (part src.now from n)) }
{
    fields::put_part(out, at, src, from, n);
    fields::put_bytes(out, at + n, b",");
}

// Writes the n bytes of record i that begin at its index `field`, and a comma.
fn put_in_record(out: &mut [u8], at: usize, s: &[u8], i: usize, field: usize, n: usize)
    requires has_room { at + n + 1 ≤ length out.old }
    requires whole { i * record_size + field + n ≤ length s.now }
    ensures { out.new ≡ put out.old at (cell (part s.now (i * record_size + field) n)) }
{
    put_field(out, at, s, i * RECORD_SIZE + field, n);
}

// Writes the Bill Key of a group of k details and a comma, 5 bytes.
fn put_key(out: &mut [u8], at: usize, s: &[u8], i: usize, k: usize)
    requires has_room { at + 5 ≤ length out.old }
    requires whole { (i + 1 + k) * record_size ≤ length s.now }
    ensures { out.new ≡ put out.old at (cell (first_key (records_from s.now (i + 1) k))) }
{
    if k == 0 {
        fields::put_bytes(out, at, b"    ,");
        return;
    }
    put_in_record(out, at, s, i + 1, layout::KEY.at, layout::KEY.width);
}

// Writes ACF or the error code, as the answer to a group of k details has it, and byte 10; answers where they end.
fn put_verdict(out: &mut [u8], at: usize, answer: &[u8], k: usize) -> usize
    requires has_room { at + 5 ≤ length out.old }
    requires whole { (k + 1) * record_size ≤ length answer.now }
    ensures { (out.new ≡ put out.old at (ended (read_verdict answer.now k))) × (result ≡ at + length (ended (read_verdict answer.now k))) }
{
    if fields::is_text(answer, layout::NOTICE.at, b"ACF") {
        fields::put_bytes(out, at, b"ACF\n");
        return at + 4;
    }
    if k == 0 {
        fields::put_bytes(out, at, b"BR17\n");
        return at + 5;
    }
    fields::put_part(out, at, answer, FIRST_ERROR_CODE, layout::ERROR_CODE.width);
    fields::put_bytes(out, at + 4, b"\n");
    at + 5
}

// How many bytes the answer to a group of k details has.
fn answer_long(answer: &[u8], k: usize) -> usize
    requires { (k + 1) * record_size ≤ length answer.now }
    ensures { result ≡ answer_long answer.now k }
{
    if fields::is_text(answer, layout::NOTICE.at, b"ACF") {
        return RECORD_SIZE;
    }
    (k + 1) * RECORD_SIZE
}

// Where the walk over a file's groups has come to in the output and in the answers. Both are indices: the definitions say where each answer starts by one.
#[derive(Clone, Copy)]
struct Reached {
    end: usize,
    from: usize,
}

// Writes the line of the group of record i with k details, whose answer stands at `r.from`, and answers where it ends: 42 bytes, or 43.
fn put_group_line(r: Reached, out: &mut [u8], s: &[u8], i: usize, k: usize, sent: &[u8]) -> usize
    requires has_room { r.end + 43 ≤ length out.old }
    requires whole { ((i + 1 + k) * record_size ≤ length s.now) × (r.from + (k + 1) * record_size ≤ length sent.now) }
    ensures { (out.new ≡ put out.old r.end (read_line (drop r.from sent.now) (group_from s.now i k))) × (result ≡ r.end + length (read_line (drop r.from sent.now) (group_from s.now i k))) }
{
    let at = r.end;
    let from = r.from;
    fields::put_bytes(out, at, b"group,");
    put_field(
        out,
        at + 6,
        sent,
        from + layout::CONFIRMATION.at,
        layout::CONFIRMATION.width,
    );
    put_in_record(
        out,
        at + 16,
        s,
        i,
        layout::ACCOUNT.at,
        layout::ACCOUNT.width,
    );
    put_key(out, at + 29, s, i, k);
    put_in_record(out, at + 34, s, i, layout::NOTICE.at, layout::NOTICE.width);
    put_verdict(out, at + 38, &sent[from..], k)
}

// The line of a group.
fn group_turn(r: Reached, out: &mut [u8], g: &GroupAt, sent: &[u8]) -> Reached
    requires whole { (g.now.records * record_size ≤ length sent.now) × (r.from ≤ g.now.header * record_size) }
    requires has_room { r.end + 43 ≤ length out.old }
    ensures { (out.new ≡ put out.old r.end (read_line (drop r.from sent.now) (group_at g.now.file.now g.now.header g.now.records))) × (result.end ≡ r.end + length (read_line (drop r.from sent.now) (group_at g.now.file.now g.now.header g.now.records))) × (result.from ≡ r.from + answer_long (drop r.from sent.now) (length (group_at g.now.file.now g.now.header g.now.records).details)) }
{
    let from = r.from;
    let k = file::detail_count(g);
    Reached {
        end: put_group_line(r, out, g.file, g.header, k, sent),
        from: from + answer_long(&sent[from..], k),
    }
}

// Writes a line for each group of a file of n records, read off the file and its answers, and answers where they end: at most 43 bytes a group.
// (n stands beside the bytes, as the definitions take records by number.)
pub fn put_group_lines(out: &mut [u8], at: usize, s: &[u8], n: usize, sent: &[u8]) -> usize
    requires whole { (n * record_size ≤ length s.now) × (n * record_size ≤ length sent.now) }
    requires has_room { at + 43 * n ≤ length out.old }
    ensures lined { Lined (groups (records_from s.now 0 n)) sent.now out.old at out.new result }
    ensures written { (out.new ≡ put out.old at (read_lines sent.now (groups (records_from s.now 0 n)))) × (result ≡ at + length (read_lines sent.now (groups (records_from s.now 0 n)))) × (result ≤ at + 43 * n) }
{
    let mut r = Reached { end: at, from: 0 };
    // By the number of a record, which the turn takes too: no slice holds what is walked over.
    for i in 0..n {
        if file::header_at(s, i) {
            let g = GroupAt {
                file: s,
                records: n,
                header: i,
            };
            r = group_turn(r, out, &g, sent);
        }
    }
    r.end
}
