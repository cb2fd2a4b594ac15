// Reads a journal on standard input and writes what became of each of its entries.
// A program has a main of its own, so this one is like brn's: what both do is replay's.
#![tactic(auto)]

use replay::{Wanted, ending};
use streams::output::Streams;
use streams::{arguments, output};

fn main(rt: HostRuntime) {
    if arguments::is_given(&rt, 1) {
        output::explain(
            &mut rt.stderr(),
            b"usage: trace < JOURNAL > LINES\n",
            b"Reads a journal on standard input and writes a line an entry and a line a group: what became of each.\n",
            b"A bad entry stops it: the last line is then stopped,13. A failed read or write is told here; the exit status is 0.\n",
        );
        return;
    }
    let mut streams = Streams {
        input: rt.stdin(),
        output: rt.stdout(),
        error: rt.stderr(),
    };
    ending::write_wanted(&mut streams, Wanted::Lines);
}
