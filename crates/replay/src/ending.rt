// What a program that writes as it reads has left to say at the end: that a bad entry stopped the reading.
ghost use Rattle.std.specs.Prelude.{◌≡◌, ◌≤◌, length, IfSome};
ghost use Rattle.replay.specs.Ending.{StopLine, last_to, EndsAll, WritesWanted, StopLineWritten, StopLineSize};
ghost use Rattle.table.specs.Table.{stop_size};

use crate::{Buffers, Wanted};
use entries::run;
use std::io::{Read, Write};
use streams::output::{Output, Stream, Streams};
use streams::pieces::{End, Unfinished};

// Puts the line that says that a bad entry stopped the reading, if one did and nothing failed; answers its length.
fn stop_line(out: &mut [u8], e: Result<End, Unfinished>) -> usize
    requires { stop_size ≤ length out.old }
    ensures { StopLine e out.old out.new result }
{
    let bad = e.is_ok_and(|e| journal::ends_bad(e.stopped, e.left, e.seen));
    table::put_stop(out, 0, bad)
}

// Reads standard input and writes what is asked for of its entries; what is left to write is the line in `out`, of so many bytes.
fn read_input<R: Read, O: Write, E: Write>(
    streams: &mut Streams<R, O, E>,
    buffers: &mut Buffers<{ streams::PIECE_SIZE }>,
    wanted: Wanted,
) -> usize
    ensures line { StopLineWritten buffers.new.out result }
    ensures all { IfSome (R.remaining streams.old.input)
        (λ input. EndsAll wanted input (O.contents streams.old.output) (O.contents streams.new.output) buffers.new.out result) }
{
    let Buffers { ws, buf, out } = buffers;
    run::start(ws);
    let e = crate::read_all(streams, ws, buf, out, wanted);
    stop_line(out, e)
}

// Where that line goes.
fn last_to(wanted: Wanted) -> Stream
    ensures { result ≡ last_to wanted }
{
    match wanted {
        Wanted::Nothing => Stream::Stdout,
        Wanted::Notices => Stream::Stderr,
        Wanted::Lines => Stream::Stdout,
    }
}

// What is left to write once standard input is read, and where it goes.
fn last_of_input<R: Read, O: Write, E: Write>(
    streams: &mut Streams<R, O, E>,
    buffers: &mut Buffers<{ streams::PIECE_SIZE }>,
    wanted: Wanted,
) -> Output
    ensures line { (result.stream ≡ last_to wanted) × StopLineWritten buffers.new.out result.length }
    ensures all { IfSome (R.remaining streams.old.input)
        (λ input. EndsAll wanted input (O.contents streams.old.output) (O.contents streams.new.output) buffers.new.out result.length) }
{
    let length = read_input(streams, buffers, wanted);
    Output {
        stream: last_to(wanted),
        length,
    }
}

// Reads standard input and writes what is asked for of its entries, and the line behind; answers what was last to write.
pub fn write_wanted<R: Read, O: Write, E: Write>(
    streams: &mut Streams<R, O, E>,
    wanted: Wanted,
) -> Output
    ensures line { (result.stream ≡ last_to wanted) × StopLineSize result.length }
    ensures all { IfSome (R.remaining streams.old.input)
        (λ input. WritesWanted wanted input (O.contents streams.old.output) (O.contents streams.new.output)) }
{
    let mut buffers = Buffers {
        ws: [0u64; words::LEDGER_SIZE],
        buf: [0u8; streams::PIECE_SIZE],
        out: [0u8; streams::PIECE_SIZE],
    };
    let o = last_of_input(streams, &mut buffers, wanted);
    let _ = streams.send(o, &buffers.out);
    o
}
