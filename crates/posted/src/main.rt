// Reads a journal on standard input and writes its posted table.
#![tactic(auto)]

ghost use Rattle.std.specs.Prelude.{◌≡◌, true, length, IfSome, OnOk};
ghost use Rattle.ledger.specs.Sound.{sound_ledger};
ghost use Rattle.words.specs.Layout.{ledger_of};
ghost use Rattle.table.specs.Table.{table_room};
ghost use Rattle.posted.specs.Posting.{TableWritten, Posts, PostsAll};

use entries::run;
use replay::{Buffers, Wanted};
use std::io::{Read, Write};
use streams::output::{Output, Streams};
use streams::pieces::{End, Unfinished};
use streams::{arguments, output};

// What is written at the end: to standard output, the table of the ledger in words, in `out`; nothing where a read failed.
fn table_of(ws: &[u64], out: &mut [u8], e: Result<End, Unfinished>) -> Output
    requires { OnOk e (sound_ledger (ledger_of ws.now) ≡ true) × (length out.old ≡ table_room) }
    ensures { TableWritten e ws.now out.old out.new result }
{
    let Ok(e) = e else {
        return Output::printed(0);
    };
    let bad = journal::ends_bad(e.stopped, e.left, e.seen);
    let length = table::write(out, ws, bad);
    Output::printed(length)
}

// Reads standard input; what is left to write is its posted table in `out`.
fn post_input<R: Read, O: Write, E: Write>(
    streams: &mut Streams<R, O, E>,
    buffers: &mut Buffers<{ table::TABLE_ROOM }>,
) -> Output
    ensures posts { Posts buffers.new.out result }
    ensures all { IfSome (R.remaining streams.old.input) (λ input. PostsAll input buffers.new.out result) }
{
    let Buffers { ws, buf, out } = buffers;
    run::start(ws);
    let e = replay::read_all(streams, ws, buf, out, Wanted::Nothing);
    table_of(ws, out, e)
}

// Reads standard input and writes its posted table to standard output.
fn post<R: Read, O: Write, E: Write>(streams: &mut Streams<R, O, E>) {
    let mut buffers = Buffers {
        ws: [0u64; words::LEDGER_SIZE],
        buf: [0u8; streams::PIECE_SIZE],
        out: [0u8; table::TABLE_ROOM],
    };
    let o = post_input(streams, &mut buffers);
    let _ = streams.send(o, &buffers.out);
}

fn main(rt: HostRuntime) {
    if arguments::is_given(&rt, 1) {
        output::explain(
            &mut rt.stderr(),
            b"usage: posted < JOURNAL > TABLE\n",
            b"Reads a journal on standard input and writes its posted table: a line a bill, and the total.\n",
            b"A bad entry stops it: the last line is then stopped,13. A failed read or write is told here; the exit status is 0.\n",
        );
        return;
    }
    let mut streams = Streams {
        input: rt.stdin(),
        output: rt.stdout(),
        error: rt.stderr(),
    };
    post(&mut streams);
}
