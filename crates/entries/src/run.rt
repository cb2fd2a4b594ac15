// The entries at the start of some bytes, one after another, on a ledger that is lent as words.
ghost use Rattle.std.specs.Prelude.{◌≡◌, true, cond, ◌&&◌, ◌-◌, ◌≤◌, ltb, length};
ghost use Rattle.ledger.specs.Books.{book};
ghost use Rattle.ledger.specs.Sound.{sound_ledger};
ghost use Rattle.words.specs.Layout.{ledger_of, ledger_size};
ghost use Rattle.journal.specs.Journal.{first_book};
ghost use Rattle.journal.specs.EntryCalls.{length_of, first_ledger};
ghost use Rattle.entries.specs.parts.Running.{RanIn};
ghost use Rattle.records.specs.Limits.{file_size};

use crate::entry;
use crate::entry::Ended;
use calls::Returned;
use rules::Cause;

// How many bytes were read, how many entries came by now, how many bytes stand of them in the output or would, and why the run ended.
#[derive(Clone, Copy)]
pub struct Ran {
    pub used: usize,
    pub seen: u64,
    pub written: usize,
    pub end: Ended,
}

// How many bytes a call wrote, or would have written.
fn written(a: Result<Returned, Cause>) -> usize
    ensures { result ≡ length_of a }
{
    a.map_or(0, |r| r.written)
}

// Whether an output of so many bytes, of which n are written, lacks what one entry may write.
fn is_full(writes: bool, len: usize, n: usize) -> bool
    requires { writes ≡ true → n ≤ len }
    ensures { result ≡ (writes && ltb (len - n) file_size) }
{
    writes && len - n < records::FILE_SIZE
}

// Where the next notices go: where none are written they are lent the start, and leave it alone.
fn place_for(writes: bool, n: usize) -> usize
    ensures { result ≡ cond writes n 0 }
{
    if writes { n } else { 0 }
}

// Makes the entries at the start of src, after so many entries, as long as the output has room for another entry's notices. Where notices are not
// written they are measured, and every whole entry is made. `writes` stays beside `out`, as engine's calls take both: an Option of the output would be taken
// apart before each, and so would a struct of words, output and flag, whose parts are lent from another index each turn.
pub fn run(ws: &mut [u64], out: &mut [u8], writes: bool, src: &[u8], seen: u64) -> Ran
    requires { sound_ledger (ledger_of ws.old) ≡ true }
    ensures { RanIn seen writes src.now ws.old out.old ws.new out.new result }
{
    let mut at = 0;
    let mut k = seen;
    let mut n = 0;
    // The three counts are the answer: a slice that shrinks or an iterator would only count beside them.
    while !is_full(writes, out.len(), n) {
        let to = place_for(writes, n);
        let r = entry::step(ws, &mut out[to..], &src[at..], k, writes);
        match r {
            Err(end) => {
                return Ran {
                    used: at,
                    seen: k,
                    written: n,
                    end,
                };
            }
            Ok(made) => {
                at += made.size;
                k += 1;
                n += written(made.answer);
            }
        }
    }
    Ran {
        used: at,
        seen: k,
        written: n,
        end: Ended::Full,
    }
}

// Writes the words of the ledger before the first entry of a journal: no bill, both numbers 1.
pub fn start(ws: &mut [u64])
    requires { length ws.old ≡ ledger_size }
    ensures { (sound_ledger (ledger_of ws.new) ≡ true) × (ledger_of ws.new ≡ first_ledger) × (book (ledger_of ws.new) ≡ first_book) }
{
    words::write_empty(ws, 19000101, 1, 1);
}
