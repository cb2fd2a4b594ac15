// The table and the notices of a whole journal, for C and Rust programs.
ghost use Rattle.std.specs.Prelude.{◌≡◌};
ghost use Rattle.clearing_c.specs.WholeJournals.{result_left, Tables, Notices};
ghost use Rattle.boundary.specs.Boundary.{number_of};

use report::Reported;

// Says how many bytes were written and how the journal ended, and answers 0, or 1 for an output that is too small.
fn store_result(res: &mut [u64; 2], r: Reported) -> u64
    ensures { (result ≡ number_of r.report) × (res.new ≡ result_left res.old r.stopped r.report) }
{
    let report = r.report;
    match report {
        Err(cause) => u64::from(cause),
        Ok(n) => {
            let end = if r.stopped { 13 } else { 0 };
            let all = [n as u64, end];
            *res = all;
            0
        }
    }
}

// The posted table of a whole journal; the result is the bytes written, and 13 if the journal ended bad, else 0.
pub fn clearing_table(journal: &[u8], out: &mut [u8], res: &mut [u64; 2]) -> u64
    ensures { Tables journal.now out.old res.old out.new res.new result }
{
    let r = report::post_table(journal, out);
    store_result(res, r)
}

// The notices of a whole journal; the result is the bytes written, and 13 if the journal ended bad, else 0.
pub fn clearing_notices(journal: &[u8], out: &mut [u8], res: &mut [u64; 2]) -> u64
    ensures { Notices journal.now out.old res.old out.new res.new result }
{
    let r = report::brn_file::post_notices(journal, out);
    store_result(res, r)
}
