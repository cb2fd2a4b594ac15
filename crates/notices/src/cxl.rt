// CXL: what tells a supplier that a bill is cancelled.
ghost use Rattle.std.specs.Prelude.{◌≡◌, ◌+◌, ◌≤◌, length};
ghost use Rattle.fields.specs.Put.{put};
ghost use Rattle.records.specs.Limits.{notice_size};
ghost use Rattle.notices.specs.Notices.{cxl};

use ledger::Terms;
use records::layout;
use units::Date;

// What a CXL holds: the bill's terms, and the numbers that the cancel uses. (No type with an ACF's fields for both: the type is what keeps one from being written as
// the other.)
#[derive(Clone, Copy)]
pub struct Cxl {
    pub terms: Terms,
    pub tracking: u64,
    pub today: Date,
    pub confirmation: u64,
}

// Writes a CXL.
pub fn write(out: &mut [u8], at: usize, x: Cxl)
    requires { at + notice_size ≤ length out.old }
    ensures { out.new ≡ put out.old at (cxl x) }
{
    let terms = x.terms;
    let today = x.today;
    let alike = crate::alike_for(terms, x.tracking, today);
    let detail = at + records::RECORD_SIZE;
    crate::put_header(out, at, alike, b"CXL", x.confirmation, 0);
    crate::put_detail_to_key(out, detail, alike, b"CXL", x.terms.identity.key);
    crate::put_end(out, detail, layout::BILLING.at);
}
