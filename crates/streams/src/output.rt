// What a program writes, and to which stream.
ghost use Rattle.std.specs.Prelude.{◌≡◌, ◌≤◌, length, take, OnOk};
ghost use Rattle.std.specs.Io.{WritesAtMost};
ghost use Rattle.std.specs.Io.KnownBytes.{Appends, Keeps, WriteAppends};
ghost use Rattle.streams.specs.Ends.{printed};
ghost use Rattle.streams.specs.Written.{Writes};

use std::io;
use std::io::{Error, ErrorKind, Write};

// The streams that are written: standard output and standard error.
#[derive(Clone, Copy)]
pub enum Stream {
    Stdout,
    Stderr,
}

// The first bytes of some output, so many, go to a stream; where there are none nothing is written. (Their number and no slice: the bytes are lent when they are sent.)
#[derive(Clone, Copy)]
pub struct Output {
    pub stream: Stream,
    pub length: usize,
}

impl Output {
    // So many bytes go to standard output.
    pub fn printed(length: usize) -> Output
        ensures { result ≡ printed length }
    {
        Output {
            stream: Stream::Stdout,
            length,
        }
    }
}

// The streams of a program: what it reads, what it writes, and where it tells what failed.
#[derive(Drop)]
pub struct Streams<R, O, E> {
    pub input: R,
    pub output: O,
    pub error: E,
}

// What failed; why it did was told on standard error.
#[derive(Clone, Copy)]
pub enum Failed {
    Read,
    Write,
}

// One write, tried again where it was interrupted, at most a million times; answers how many of the first bytes it took.
// `input::read_input` tries likewise: one function over a closure would learn nothing of what a call moves, and need both loops' clauses again.
fn write_some<W: Write>(writer: &mut W, bytes: &[u8]) -> io::Result<usize>
    ensures bound { WritesAtMost result bytes.now }
    ensures took { WriteAppends (W.contents writer.old) (W.contents writer.new) result bytes.now }
{
    for _ in 0..1000000 {
        match writer.write(bytes) {
            Err(e) if input::is_interrupted(&e) => {}
            wrote => return wrote,
        }
    }
    Err(Error::from(ErrorKind::Interrupted))
}

// Writes all of some bytes, or stops at the first write that takes nothing.
pub fn write_all<W: Write>(writer: &mut W, mut bytes: &[u8]) -> io::Result<()>
    ensures { Writes result bytes.now (W.contents writer.old) (W.contents writer.new) }
{
    while !bytes.is_empty() {
        match write_some(writer, bytes)? {
            0 => return Err(Error::from(ErrorKind::WriteZero)),
            took => bytes = &bytes[took..],
        }
    }
    Ok(())
}

// Says on standard error how a program is used, what it does and how it ends: it was given other arguments than it takes.
pub fn explain<E: Write>(error: &mut E, usage: &[u8], does: &[u8], ends: &[u8]) {
    for text in [usage, does, ends] {
        let _ = write_all(error, text);
    }
}

impl<R, O: Write, E: Write> Streams<R, O, E> {
    // Writes the bytes to that stream.
    fn write_to(&mut self, stream: Stream, bytes: &[u8]) -> io::Result<()>
        ensures to_output { stream ≡ Stream.Stdout → Writes result bytes.now (O.contents self.old.output) (O.contents self.new.output)
            × Keeps (E.contents self.old.error) (E.contents self.new.error) }
        ensures to_error { stream ≡ Stream.Stderr → Writes result bytes.now (E.contents self.old.error) (E.contents self.new.error)
            × Keeps (O.contents self.old.output) (O.contents self.new.output) }
        ensures input { self.new.input ≡ self.old.input }
    {
        match stream {
            Stream::Stdout => write_all(&mut self.output, bytes),
            Stream::Stderr => write_all(&mut self.error, bytes),
        }
    }

    // Writes what is to be written of the bytes; a write that failed is told on standard error.
    pub fn send(&mut self, o: Output, bytes: &[u8]) -> Result<(), Failed>
        requires { o.length ≤ length bytes.now }
        ensures to_output { o.stream ≡ Stream.Stdout → Writes result (take o.length bytes.now) (O.contents self.old.output) (O.contents self.new.output) }
        ensures to_error { o.stream ≡ Stream.Stderr → OnOk result (Appends (E.contents self.old.error) (E.contents self.new.error) (take o.length bytes.now))
            × Keeps (O.contents self.old.output) (O.contents self.new.output) }
        ensures input { self.new.input ≡ self.old.input }
    {
        match self.write_to(o.stream, &bytes[..o.length]) {
            Ok(()) => Ok(()),
            Err(e) => {
                input::tell(&mut self.error, "write", e);
                Err(Failed::Write)
            }
        }
    }
}
