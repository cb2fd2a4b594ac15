// The trace of the entries at the start of some bytes: each entry is made on a ledger that is lent as words, and its lines are written.
#![tactic(auto)]

ghost use Rattle.std.specs.Prelude.{◌≡◌, true, ◌+◌, ◌-◌, ◌≤◌, length};
ghost use Rattle.ledger.specs.Sound.{sound_ledger};
ghost use Rattle.words.specs.Layout.{ledger_of};
ghost use Rattle.trace_lines.specs.Lines.{numbered};
ghost use Rattle.tracing.specs.parts.Tracing.{is_done, LinesOf, TracesIn, entry_room};
ghost use Rattle.records.specs.Limits.{file_size};

use calls::Returned;
use entries::entry::Ended;
use entries::run::Ran;
use rules::Cause;

// How many bytes the lines of an entry have at most.
pub const ENTRY_ROOM: usize = 8652;

// Whether a call was carried out.
fn is_done(a: Result<Returned, Cause>) -> bool
    ensures { result ≡ is_done a }
{
    a.is_ok()
}

// What a call answered, with the number of its cause in place of the cause.
fn numbered(a: Result<Returned, Cause>) -> Result<Returned, u64>
    ensures { result ≡ numbered a }
{
    a.map_err(u64::from)
}

// Writes the lines of the entry of n bytes at the start of src, whose call answered a and wrote at the start of sent, and answers where they end. (src goes
// on behind the entry: cut to its n bytes, it would need a clause on its length.)
fn put_lines(
    out: &mut [u8],
    at: usize,
    src: &[u8],
    n: usize,
    number: u64,
    a: Result<Returned, Cause>,
    sent: &[u8],
) -> usize
    requires whole_entry { (3 ≤ n) × (n ≤ length src.now) × (n ≤ file_size + 3) × (file_size ≤ length sent.now) }
    requires has_room { at + entry_room ≤ length out.old }
    ensures { LinesOf number src.now n a sent.now out.old at out.new result }
{
    let tag = src[0];
    let end = trace_lines::put_entry_line(out, at, number, tag, numbered(a));
    let with_groups = (tag == 2) & is_done(a);
    if with_groups {
        let records = (n - 3) / records::RECORD_SIZE;
        return trace_lines::group_lines::put_group_lines(out, end, &src[3..n], records, sent);
    }
    end
}

// Makes the entries at the start of src, after so many entries, and writes their lines, as long as the output has room for another entry's. (No one loop with
// entries' `run`: what a turn writes and measures differs, and a closure's contract would say it again.)
pub fn run(ws: &mut [u64], sent: &mut [u8], out: &mut [u8], src: &[u8], seen: u64) -> Ran
    requires { (sound_ledger (ledger_of ws.old) ≡ true) × (file_size ≤ length sent.old) }
    ensures { TracesIn seen src.now ws.old out.old ws.new out.new result }
{
    let mut used = 0;
    let mut k = seen;
    let mut n = 0;
    // The three counts are the answer: a slice that shrinks or an iterator would only count beside them.
    while ENTRY_ROOM <= out.len() - n {
        let rest = &src[used..];
        let r = entries::entry::step(ws, sent, rest, k, true);
        match r {
            Err(end) => {
                return Ran {
                    used,
                    seen: k,
                    written: n,
                    end,
                };
            }
            Ok(made) => {
                n = put_lines(out, n, rest, made.size, k + 1, made.answer, sent);
                used += made.size;
                k += 1;
            }
        }
    }
    Ran {
        used,
        seen: k,
        written: n,
        end: Ended::Full,
    }
}
