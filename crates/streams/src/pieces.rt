// How the reading of standard input in pieces ends.
ghost use Rattle.std.specs.Prelude.{◌≡◌};
ghost use Rattle.streams.specs.Ends.{end_of_input, end_of_piece};

use crate::output::Failed;
use std::io;
use std::io::Write;

// Where the reading ended: how many entries came, whether a bad one stopped it, how many bytes are left at the start of the buffer, and how many bytes
// were written. `stopped` stands beside the three, which it does not choose among: all go with either end.
#[derive(Clone, Copy)]
pub struct End {
    pub seen: u64,
    pub stopped: bool,
    pub left: usize,
    pub total: usize,
}

// A reading that failed: where it had come to, as an `End` says it, and what failed.
#[derive(Clone, Copy)]
pub struct Unfinished {
    pub end: End,
    pub failed: Failed,
}

// How the reading ends where a read brought no bytes: the input has ended, or the read failed. Either way it says where.
pub fn end_of_input<E: Write>(
    error: &mut E,
    f: io::Result<Option<usize>>,
    seen: u64,
    left: usize,
    total: usize,
) -> Result<End, Unfinished>
    ensures { result ≡ end_of_input f seen left total }
{
    let end = End {
        seen,
        stopped: false,
        left,
        total,
    };
    if input::unread(error, f) {
        return Err(Unfinished {
            end,
            failed: Failed::Read,
        });
    }
    Ok(end)
}

// How the reading ends after a piece: at a bad entry, or since its bytes could not be written. Either way it says where.
pub fn end_of_piece(end: End, written: Result<(), Failed>) -> Result<End, Unfinished>
    ensures { result ≡ end_of_piece end written }
{
    match written {
        Ok(()) => Ok(end),
        Err(failed) => Err(Unfinished { end, failed }),
    }
}
