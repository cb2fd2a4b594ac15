// Prints the date that is a number of business days after another. The holidays are read on standard input, one date a line.
#![tactic(auto)]

ghost use Rattle.std.specs.Prelude.{◌≡◌, ◌≤◌, length, take, IfSome};
ghost use Rattle.holidays.specs.DayLine.{day_room};
ghost use Rattle.business_day.specs.Answering.{input_room, StopsAt, Took, Answers, AnswersAll, WritesAll};

use std::io;
use std::io::{Read, Write};
use streams::output::{Failed, Output, Streams};
use streams::{arguments, output};

// One byte more than the longest input that is not refused.
const INPUT_ROOM: usize = 577;

// So many bytes stand at the start of the buffer, and the last read came to this: bytes came before a read that failed, too.
// (The buffer is the caller's: what filled it can't hand it on with its length.)
#[derive(Clone, Copy)]
struct Input {
    length: usize,
    last: io::Result<Option<usize>>,
}

// Reads standard input until it ends, a read fails or the buffer is full.
fn read_input<R: Read>(reader: &mut R, buf: &mut [u8]) -> Input
    ensures stops { StopsAt (length buf.new) result.length result.last }
    ensures bytes { Took (take result.length buf.new) (R.remaining reader.old) (R.remaining reader.new) result.last }
{
    let mut have = 0;
    // A `while`, since `have` grows by what a read brought, and a read may end it.
    while have < buf.len() {
        match input::fill(reader, buf, have) {
            Ok(Some(n)) => have = n,
            last => return Input { length: have, last },
        }
    }
    Input {
        length: have,
        last: Ok(Some(have)),
    }
}

// Reads standard input and puts the line for it into `out`. Answers its length, 0 where a read failed, which is told on standard error.
fn line_of_input<R: Read, O, E: Write>(
    streams: &mut Streams<R, O, E>,
    out: &mut [u8],
    buf: &mut [u8],
    date: &[u8],
    number: &[u8],
) -> usize
    requires { (length buf.old ≡ input_room) × (day_room ≤ length out.old) }
    ensures answer { Answers date.now number.now buf.new out.new result }
    ensures all { IfSome (R.remaining streams.old.input) (λ input. AnswersAll date.now number.now input out.new result) }
    ensures output { streams.new.output ≡ streams.old.output }
{
    let Input { length, last } = read_input(&mut streams.input, buf);
    if let Err(e) = last {
        input::tell(&mut streams.error, "read", e);
        return 0;
    }
    holidays::print_day(out, date, number, &buf[..length])
}

// Writes the answer to standard output; whether it could be written. What failed is told on standard error.
fn answer<R: Read, O: Write, E: Write>(
    streams: &mut Streams<R, O, E>,
    date: &[u8],
    number: &[u8],
) -> Result<(), Failed>
    ensures { IfSome (R.remaining streams.old.input)
        (λ input. WritesAll date.now number.now input (O.contents streams.old.output) (O.contents streams.new.output) result) }
{
    let mut buf = [0u8; INPUT_ROOM];
    let mut out = [0u8; holidays::DAY_ROOM];
    let length = line_of_input(streams, &mut out, &mut buf, date, number);
    streams.send(Output::printed(length), &out)
}

fn main(rt: HostRuntime) {
    if !arguments::is_given(&rt, 2) | arguments::is_given(&rt, 3) {
        output::explain(
            &mut rt.stderr(),
            b"usage: business_day DATE NUMBER < HOLIDAYS\n",
            b"Prints the date NUMBER (0 to 9) business days after DATE (yyyymmdd). Reads the holidays, one date a line, rising, up to 64.\n",
            b"A refusal prints stopped, and its number: 2, 14 or 15. A failed read or write is told here; the exit status is 0.\n",
        );
        return;
    }
    let mut date = [0u8; 8];
    let mut number = [0u8; 1];
    let date_length = arguments::argument(&rt, 1, &mut date);
    let number_length = arguments::argument(&rt, 2, &mut number);
    let mut streams = Streams {
        input: rt.stdin(),
        output: rt.stdout(),
        error: rt.stderr(),
    };
    let _ = answer(&mut streams, &date[..date_length], &number[..number_length]);
}
