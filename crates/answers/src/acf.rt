// ACF: what tells a supplier that a group is accepted.
ghost use Rattle.std.specs.Prelude.{◌≡◌, cond, ◌+◌, ◌≤◌, length};
ghost use Rattle.fields.specs.Digits.{digits};
ghost use Rattle.fields.specs.Put.{put};
ghost use Rattle.records.specs.Limits.{record_size};
ghost use Rattle.records.specs.Layout.{tracking_in, balance_in};
ghost use Rattle.notices.specs.Notices.{spaces};
ghost use Rattle.notices.specs.Answers.{acf_alike, acf};

use crate::is_sup;
use notices::acf::Acf;
use records::layout;
use units::Date;

// Writes the Tracking ID: a new one on a SUP, else the sender's.
fn put_tracking(out: &mut [u8], at: usize, h: &[u8], sup: bool, tracking: u64)
    requires { (at + 28 ≤ length out.old) × (28 ≤ length h.now) }
    ensures { out.new ≡ put out.old (at + 19) (cond sup (digits 9 tracking) (tracking_in h.now)) }
{
    if sup {
        layout::TRACKING.put_number(out, at, tracking);
    } else {
        layout::TRACKING.copy(out, at, h);
    }
}

// Writes the Prepaid Balance: the sender's for Prepay, else spaces.
fn put_balance(out: &mut [u8], at: usize, h: &[u8], prepay: bool)
    requires { (at + 73 ≤ length out.old) × (73 ≤ length h.now) }
    ensures { out.new ≡ put out.old (at + 60) (cond prepay (balance_in h.now) (spaces 13)) }
{
    if prepay {
        layout::BALANCE.copy(out, at, h);
    } else {
        layout::BALANCE.fill(out, at, 32);
    }
}

// Writes positions 1 to 41.
fn put_alike(out: &mut [u8], at: usize, h: &[u8], a: Acf)
    requires { (at + 41 ≤ length out.old) × (record_size ≤ length h.now) }
    ensures { out.new ≡ put out.old at (acf_alike h.now a) }
{
    let sup = is_sup(h);
    layout::TO_TRACKING.copy(out, at, h);
    put_tracking(out, at, h, sup, a.tracking);
    layout::TYPE.copy(out, at, h);
    layout::NOTICE.put_text(out, at, b"ACF");
    layout::TRANSMISSION.put_number(out, at, a.today.0);
}

// The Scheduled Date: none on a SUP, else the bill's.
fn scheduled_of(sup: bool, due: Date) -> u64
    ensures { result ≡ cond sup 0 due.0 }
{
    if sup { 0 } else { due.0 }
}

// Writes the ACF for the header h, one record.
pub fn write(out: &mut [u8], at: usize, h: &[u8], a: Acf)
    requires { (at + record_size ≤ length out.old) × (record_size ≤ length h.now) }
    ensures { out.new ≡ put out.old at (acf h.now a) }
{
    let terms = a.terms;
    let product = terms.product;
    let prepay = product.is_prepay();
    let due = terms.latest.scheduled;
    let scheduled = scheduled_of(is_sup(h), due);
    put_alike(out, at, h, a);
    notices::put_to_count(
        out,
        at + layout::CONFIRMATION.at,
        a.confirmation,
        scheduled,
        b"00",
    );
    put_balance(out, at, h, prepay);
    notices::put_end(out, at, layout::HEADER_FILLER);
}
