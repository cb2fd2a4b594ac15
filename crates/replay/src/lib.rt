// A journal on standard input, read in pieces: one loop for the programs. Each piece's entries are made on a ledger that is lent as words, and what the
// caller asks for of them is written to standard output.
#![tactic(auto)]

ghost use Rattle.std.specs.Prelude.{◌≡◌, true, ◌≤◌, length, IfOk, IfSome};
ghost use Rattle.ledger.specs.Sound.{sound_ledger};
ghost use Rattle.words.specs.Layout.{ledger_of};
ghost use Rattle.input.specs.Filled.{Comes};
ghost use Rattle.journal.specs.EntryCalls.{first_ledger};
ghost use Rattle.replay.specs.declared.Wanted.TheVariants.{Lines};
ghost use Rattle.journal.specs.Journal.{parse, first_book};
ghost use Rattle.replay.specs.Reading.{Reads, ReadsFrom, written_of};
ghost use Rattle.replay.specs.parts.Pieces.{PieceRuns, FillsMore, PieceLeaves};
ghost use Rattle.streams.specs.Ends.{piece_size};
ghost use Rattle.streams.specs.Written.{Writes};

use entries::entry::Ended;
use entries::run;
use entries::run::Ran;
use std::io;
use std::io::{Read, Write};
use streams::output::{Failed, Output, Streams};
use streams::pieces;
use streams::pieces::{End, Unfinished};

pub mod ending;

// What is written of the entries: nothing, their notices, or lines that say what became of each.
// An enum, and no closure: the contracts name what is written by it (`written_of`, `last_to`), and one `match` takes the step.
#[derive(Clone, Copy)]
pub enum Wanted {
    Nothing,
    Notices,
    Lines,
}

// The memory that a program reads with: the ledger in words, the bytes that came, and those that are to be written.
// Its lengths stand in the type, for the programs that set it aside; a struct with lent slices could say them by no ghost field, since one stands beside no `&mut`.
#[derive(Drop)]
pub struct Buffers<const ROOM: usize> {
    pub ws: [u64; words::LEDGER_SIZE],
    pub buf: [u8; streams::PIECE_SIZE],
    pub out: [u8; ROOM],
}

// What a piece came to: how many entries came by now, how many bytes are left at the start of the buffer, how many bytes stand in the output, and why no
// further entry was made.
#[derive(Clone, Copy)]
struct Piece {
    seen: u64,
    left: usize,
    written: usize,
    end: Ended,
}

// Reads on where all entries that were read are made.
fn more<R: Read>(
    reader: &mut R,
    buf: &mut [u8],
    have: usize,
    full: bool,
) -> io::Result<Option<usize>>
    requires { have ≤ length buf.old }
    ensures held { FillsMore have full buf.old buf.new result }
    ensures bytes { Comes have buf.new (R.remaining reader.old) (R.remaining reader.new) result }
{
    if full {
        return Ok(Some(have));
    }
    input::fill(reader, buf, have)
}

// Makes the entries at the start of src and writes their lines. Their notices stand in a buffer of their own, since a group's line is read off its answer.
fn run_lines(ws: &mut [u64], out: &mut [u8], src: &[u8], seen: u64) -> Ran
    requires { sound_ledger (ledger_of ws.old) ≡ true }
    ensures { PieceRuns seen Lines src.now ws.old out.old ws.new out.new result }
{
    let mut sent = [0u8; records::FILE_SIZE];
    tracing::run(ws, &mut sent, out, src, seen)
}

// Makes the entries at the start of src and writes what is asked for of them.
fn run_wanted(ws: &mut [u64], out: &mut [u8], wanted: Wanted, src: &[u8], seen: u64) -> Ran
    requires { sound_ledger (ledger_of ws.old) ≡ true }
    ensures { PieceRuns seen wanted src.now ws.old out.old ws.new out.new result }
{
    match wanted {
        Wanted::Nothing => {
            let r = run::run(ws, out, false, src, seen);
            Ran { written: 0, ..r }
        }
        Wanted::Notices => run::run(ws, out, true, src, seen),
        Wanted::Lines => run_lines(ws, out, src, seen),
    }
}

// Makes the entries of the first n bytes and keeps the bytes that are left at the start.
fn make(
    ws: &mut [u64],
    buf: &mut [u8],
    out: &mut [u8],
    wanted: Wanted,
    n: usize,
    seen: u64,
) -> Piece
    requires { (sound_ledger (ledger_of ws.old) ≡ true) × (n ≤ length buf.old) }
    ensures { PieceLeaves seen wanted n ws.old buf.old out.old ws.new buf.new out.new result }
{
    let r = run_wanted(ws, out, wanted, &buf[..n], seen);
    let left = journal::keep(buf, r.used, n);
    Piece {
        seen: r.seen,
        left,
        written: r.written,
        end: r.end,
    }
}

// Reads standard input in pieces and makes its entries. A billion entries have fewer bytes than there are turns. (Slices, and not `Buffers`: arrays would ask a caller
// that holds slices of these lengths to copy them.)
pub fn read_all<R: Read, O: Write, E: Write>(
    streams: &mut Streams<R, O, E>,
    ws: &mut [u64],
    buf: &mut [u8],
    out: &mut [u8],
    wanted: Wanted,
) -> Result<End, Unfinished>
    requires { (ledger_of ws.old ≡ first_ledger) × (length buf.old ≡ piece_size) × (length out.old ≤ piece_size) }
    ensures reads { IfOk result (λ e. Reads wanted ws.new buf.new e) }
    ensures bytes { IfOk result (λ e. ReadsFrom wanted (R.remaining streams.old.input) (R.remaining streams.new.input)
        (O.contents streams.old.output) (O.contents streams.new.output) ws.new buf.new e) }
    ensures written { IfSome (R.remaining streams.old.input) (λ input. Writes result (written_of wanted 0 first_book (parse 0 input).entries)
        (O.contents streams.old.output) (O.contents streams.new.output)) }
{
    let mut seen = 0;
    let mut left = 0;
    let mut total = 0;
    let mut full = false;
    for _turn in 0..70000000000000u64 {
        let came = more(&mut streams.input, buf, left, full);
        let Ok(Some(n)) = came else {
            return pieces::end_of_input(&mut streams.error, came, seen, left, total);
        };
        let p = make(ws, buf, out, wanted, n, seen);
        total += p.written;
        let sent = streams.send(Output::printed(p.written), out);
        let stopped = p.end.is_bad();
        if sent.is_err() | stopped {
            let end = End {
                seen: p.seen,
                stopped,
                left: p.left,
                total,
            };
            return pieces::end_of_piece(end, sent);
        }
        seen = p.seen;
        left = p.left;
        full = p.end.is_full();
    }
    Err(Unfinished {
        end: End {
            seen,
            stopped: false,
            left,
            total,
        },
        failed: Failed::Read,
    })
}
