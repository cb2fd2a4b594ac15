// Standard input in pieces, for the programs.
#![tactic(auto)]

ghost use Rattle.std.specs.Prelude.{◌≡◌, ◌≤◌, ◌↔◌, IsTrue, length};
ghost use Rattle.std.specs.IoError.{error_kind};
ghost use Rattle.std.specs.Io.KnownBytes.{ReadConsumes};
ghost use Rattle.input.specs.Filled.{Moved, Fills, Comes, filled_by, not_ended, RoomFor};

use std::io;
use std::io::{Error, ErrorKind, Read, Write};

// Whether a read or a write was interrupted by a signal before it moved a byte.
pub fn is_interrupted(e: &Error) -> bool
    ensures { IsTrue result ↔ (error_kind e.now ≡ ErrorKind.Interrupted) }
{
    e.kind() == ErrorKind::Interrupted
}

// One read, tried again where it was interrupted, at most a million times. (streams `write_some` tries a write likewise, and says why they are two.)
fn read_input<R: Read>(reader: &mut R, buf: &mut [u8]) -> io::Result<usize>
    ensures moved { Moved (length buf.old) result }
    ensures bytes { ReadConsumes (R.remaining reader.old) (R.remaining reader.new) result buf.new }
{
    for _ in 0..1000000 {
        match reader.read(buf) {
            Err(e) if is_interrupted(&e) => {}
            got => return got,
        }
    }
    Err(Error::from(ErrorKind::Interrupted))
}

// What a read that answered `got` came to, where `have` bytes were held before: so many are held now, or the input has ended.
fn filled_by(got: io::Result<usize>, have: usize) -> io::Result<Option<usize>>
    requires { RoomFor have got }
    ensures { result ≡ filled_by got have }
{
    match got? {
        0 => Ok(None),
        n => Ok(Some(have + n)),
    }
}

// Reads bytes of a reader into buf from index `have` on: how many the buffer holds then, or none where the input has ended.
pub fn fill<R: Read>(reader: &mut R, buf: &mut [u8], have: usize) -> io::Result<Option<usize>>
    requires { have ≤ length buf.old }
    ensures held { Fills have buf.old buf.new result }
    ensures bytes { Comes have buf.new (R.remaining reader.old) (R.remaining reader.new) result }
{
    let got = read_input(reader, &mut buf[have..]);
    filled_by(got, have)
}

// Says on standard error what failed, and why; where that cannot be written nobody can be told.
pub fn tell<E: Write>(error: &mut E, what: &str, e: Error) {
    let _ = writeln!(error, "{what}: {e}");
}

// Whether a read came to something else than the end of the input; one that failed is told on standard error.
pub fn unread<E: Write>(error: &mut E, f: io::Result<Option<usize>>) -> bool
    ensures { result ≡ not_ended f }
{
    match f {
        Ok(came) => came.is_some(),
        Err(e) => {
            tell(error, "read", e);
            true
        }
    }
}
