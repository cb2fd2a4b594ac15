// BIL: what the distributor asks of a supplier.
ghost use Rattle.std.specs.Prelude.{◌≡◌, ◌++◌, ◌+◌, ◌≤◌, length};
ghost use Rattle.fields.specs.Digits.{digits};
ghost use Rattle.fields.specs.Put.{put};
ghost use Rattle.records.specs.Limits.{record_size, notice_size};
ghost use Rattle.notices.specs.Notices.{bil_to_tiers, product_fill, bil_detail, bil};

use ledger::Bill;
use records::layout;
use units::{Ccf, Cents, Date};

// What a BIL holds: the bill as the request left it, and its consumption before that.
#[derive(Clone, Copy)]
pub struct Bil {
    pub bill: Bill,
    pub previous: Ccf,
    pub today: Date,
    pub confirmation: u64,
}

// Writes sequence, consumption and charge, the bill's or the previous ones.
fn put_sequence_to_charge(out: &mut [u8], at: usize, sequence: u64, ccf: Ccf, charge: Cents)
    requires { at + 26 ≤ length out.old }
    ensures { out.new ≡ put out.old at (digits 3 sequence ++ digits 10 ccf.0 ++ digits 13 charge.0) }
{
    let ccf_at = at + layout::SEQUENCE.width;
    let charge_at = at + (layout::SEQUENCE.width + layout::CONSUMPTION.width);
    fields::put_digits(out, at, layout::SEQUENCE.width, sequence);
    fields::put_digits(out, ccf_at, layout::CONSUMPTION.width, ccf.0);
    fields::put_digits(out, charge_at, layout::CHARGE.width, charge.0);
}

// Writes the detail to position 207.
fn put_to_tiers(out: &mut [u8], at: usize, b: Bil)
    requires { at + 207 ≤ length out.old }
    ensures { out.new ≡ put out.old at (bil_to_tiers b) }
{
    let terms = b.bill.terms;
    let latest = terms.latest;
    let ccf = latest.consumption;
    let today = b.today;
    let alike = crate::alike_for(terms, latest.tracking, today);
    crate::put_detail_to_key(out, at, alike, b"BIL", terms.identity.key);
    layout::BILLING.put_number(out, at, latest.billing.0);
    put_sequence_to_charge(out, at + layout::SEQUENCE.at, terms.sequence, ccf, Cents(0));
    layout::FROM.put_number(out, at, latest.from.0);
    layout::TIERS.fill(out, at, 48);
}

fn product_fill(prepay: bool) -> u8
    ensures { result ≡ product_fill prepay }
{
    if prepay { 48 } else { 32 }
}

// Writes the detail.
fn put_detail(out: &mut [u8], at: usize, b: Bil)
    requires { at + record_size ≤ length out.old }
    ensures { out.new ≡ put out.old at (bil_detail b) }
{
    let bill = b.bill;
    let posted = bill.posted;
    let terms = bill.terms;
    let product = terms.product;
    let previous = b.previous;
    let charge = posted.charge();
    let fill = product_fill(product.is_prepay());
    put_to_tiers(out, at, b);
    put_sequence_to_charge(
        out,
        at + layout::PREVIOUS_SEQUENCE.at,
        terms.requests,
        previous,
        charge,
    );
    layout::APPLIED_AND_OWED.fill(out, at, fill);
    crate::put_end(out, at, layout::DETAIL_FILLER);
}

// Writes a BIL.
pub fn write(out: &mut [u8], at: usize, b: Bil)
    requires { at + notice_size ≤ length out.old }
    ensures { out.new ≡ put out.old at (bil b) }
{
    let terms = b.bill.terms;
    let latest = terms.latest;
    let today = b.today;
    let alike = crate::alike_for(terms, latest.tracking, today);
    let scheduled = latest.scheduled;
    crate::put_header(out, at, alike, b"BIL", b.confirmation, scheduled.0);
    put_detail(out, at + records::RECORD_SIZE, b);
}
