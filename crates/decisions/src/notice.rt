// The notices of a request and of a cancel, where the bill at its place is at hand: written at the start of an output, if notices are written.
ghost use Rattle.std.specs.Prelude.{◌≡◌, true, ◌≤◌, length};
ghost use Rattle.fields.specs.Put.{put};
ghost use Rattle.group.specs.parts.Turns.{if_written};
ghost use Rattle.causes.specs.parts.Decisions.{previous_by, bil_by, cxl_by, notice_by};
ghost use Rattle.records.specs.Limits.{notice_size};

use causes::BillCall;
use ledger::{Bill, LedgerHeader};
use notices::bil::Bil;
use notices::cxl::Cxl;
use units::Ccf;

// The consumption before a request.
fn previous(f: Option<usize>, b: Bill) -> Ccf
    ensures { result ≡ previous_by f b }
{
    f.map_or(Ccf(0), |_| b.terms.latest.consumption)
}

// The BIL of a request: b stood at its place, and c does now.
fn put_bil(out: &mut [u8], h: LedgerHeader, f: Option<usize>, b: Bill, c: Bill)
    requires { notice_size ≤ length out.old }
    ensures { out.new ≡ put out.old 0 (bil_by h f b c) }
{
    notices::bil::write(
        out,
        0,
        Bil {
            bill: c,
            previous: previous(f, b),
            today: h.today,
            confirmation: h.confirmation,
        },
    );
}

// The CXL of a cancel: b stood at its place.
fn put_cxl(out: &mut [u8], h: LedgerHeader, b: Bill)
    requires { notice_size ≤ length out.old }
    ensures { out.new ≡ put out.old 0 (cxl_by h b) }
{
    notices::cxl::write(
        out,
        0,
        Cxl {
            terms: b.terms,
            tracking: h.tracking,
            today: h.today,
            confirmation: h.confirmation,
        },
    );
}

// The notice of a request or a cancel: b stood at its place, and k does now. (`writes` and no closure: one contract says what stands in the output either way.)
pub fn put(
    out: &mut [u8],
    writes: bool,
    c: BillCall,
    h: LedgerHeader,
    f: Option<usize>,
    b: Bill,
    k: Bill,
)
    requires { writes ≡ true → notice_size ≤ length out.old }
    ensures { out.new ≡ put out.old 0 (if_written writes (notice_by c h f b k)) }
{
    if !writes {
        return;
    }
    match c {
        BillCall::Request(_) => put_bil(out, h, f, b, k),
        BillCall::Cancel(_) => put_cxl(out, h, b),
    }
}
