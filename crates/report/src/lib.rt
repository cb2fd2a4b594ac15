// What a journal comes to, whole in a slice: its posted table, and its notices.
#![tactic(auto)]

pub mod brn_file;

ghost use Rattle.std.specs.Prelude.{◌≡◌, length};
ghost use Rattle.report.specs.Report.{Reports};

use entries::run;
use rules::Cause;

// What came of writing a journal's table or its notices: how many bytes were written, or that the output lent is too small, for a table one under
// 10,970 bytes, which the longest table has; and whether the journal ended bad (the table's `stopped,13`). The flag is a field of its own, since either report goes with either end.
#[derive(Clone, Copy)]
pub struct Reported {
    pub report: Result<usize, Cause>,
    pub stopped: bool,
}

// Writes the posted table of a whole journal.
pub fn post_table(src: &[u8], out: &mut [u8]) -> Reported
    ensures { Reports src.now out.old out.new result }
{
    let mut ws = [0u64; words::LEDGER_SIZE];
    run::start(&mut ws);
    let r = run::run(&mut ws, &mut [], false, src, 0);
    let stopped = journal::ends_bad(r.end.is_bad(), src.len() - r.used, r.seen);
    if out.len() < table::TABLE_ROOM {
        return Reported {
            report: Err(Cause::OutputTooSmall),
            stopped,
        };
    }
    let n = table::write(out, &ws, stopped);
    Reported {
        report: Ok(n),
        stopped,
    }
}
