// Reads a journal on standard input and writes the notices of every call carried out, in order: the bytes of a BRN file.
#![tactic(auto)]

use replay::{Wanted, ending};
use streams::output::Streams;
use streams::{arguments, output};

fn main(rt: HostRuntime) {
    if arguments::is_given(&rt, 1) {
        output::explain(
            &mut rt.stderr(),
            b"usage: brn < JOURNAL > NOTICES\n",
            b"Reads a journal on standard input and writes the notices of every call carried out (BIL, ACF, REJ, CXL).\n",
            b"Standard error stays empty if all went well. A bad entry stops it: stopped,13. The exit status is 0.\n",
        );
        return;
    }
    let mut streams = Streams {
        input: rt.stdin(),
        output: rt.stdout(),
        error: rt.stderr(),
    };
    ending::write_wanted(&mut streams, Wanted::Notices);
}
