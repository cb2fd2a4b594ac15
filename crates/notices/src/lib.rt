// The notices: what each holds, and BIL and CXL written straight into the lent output. Here is what our own records share; each notice has its module.
#![tactic(auto)]

pub mod acf;
pub mod bil;
pub mod cxl;
pub mod rej;

ghost use Rattle.std.specs.Prelude.{◌≡◌, ◌++◌, ◌+◌, ◌≤◌, ◌<◌, length};
ghost use Rattle.fields.specs.Digits.{digits};
ghost use Rattle.fields.specs.Put.{put};
ghost use Rattle.records.specs.Limits.{record_size};
ghost use Rattle.notices.specs.Notices.{spaces_from, alike_for, alike_fields, header, detail_to_key};

use ledger::{RateCode, Terms};
use records::layout;
use units::Date;

// What positions 1 to 41 of a record of our own hold, header and detail alike, but for type and Notification Code.
#[derive(Clone, Copy)]
pub struct Alike {
    pub code: RateCode,
    pub account: u64,
    pub tracking: u64,
    pub today: Date,
}

// Those of a record about a bill with these terms, under this Tracking ID.
fn alike_for(t: Terms, tracking: u64, today: Date) -> Alike
    ensures { result ≡ alike_for t tracking today }
{
    let code = t.code;
    Alike {
        code,
        account: t.identity.account,
        tracking,
        today,
    }
}

// Writes the end of the record that starts at `at`: spaces from its index `from` on, and byte 13.
pub fn put_end(out: &mut [u8], at: usize, from: usize)
    requires { (at + record_size ≤ length out.old) × (from < record_size) }
    ensures { out.new ≡ put out.old (at + from) (spaces_from (from + 1)) }
{
    fields::put_fill(out, at + from, layout::END - from, 32);
    fields::put_fill(out, at + layout::END, 1, 13);
}

// Writes positions 1 to 41 of a record.
pub fn put_alike(out: &mut [u8], at: usize, l: Alike, record_type: &[u8], notice: &[u8])
    requires has_room { at + 41 ≤ length out.old }
    requires wide { (length record_type.now ≡ 2) × (length notice.now ≡ 3) }
    ensures { out.new ≡ put out.old at (alike_fields l record_type.now notice.now) }
{
    layout::COMPANY.put_text(out, at, b"34");
    ledger::bills::put_code(out, at + layout::RATE_CODE.at, l.code);
    layout::ACCOUNT.put_number(out, at, l.account);
    layout::TRACKING.put_number(out, at, l.tracking);
    layout::TYPE.put_text(out, at, record_type);
    layout::NOTICE.put_text(out, at, notice);
    layout::TRANSMISSION.put_number(out, at, l.today.0);
}

// Writes Confirmation Number, Scheduled Date and Record Count, positions 42 to 60 of a header.
pub fn put_to_count(out: &mut [u8], at: usize, confirmation: u64, scheduled: u64, count: &[u8])
    requires { (at + 19 ≤ length out.old) × (length count.now ≡ 2) }
    ensures { out.new ≡ put out.old at (digits 9 confirmation ++ digits 8 scheduled ++ count.now) }
{
    let scheduled_at = at + layout::CONFIRMATION.width;
    let count_at = at + (layout::CONFIRMATION.width + layout::SCHEDULED.width);
    fields::put_digits(out, at, layout::CONFIRMATION.width, confirmation);
    fields::put_digits(out, scheduled_at, layout::SCHEDULED.width, scheduled);
    fields::put_bytes(out, count_at, count);
}

// Writes a header.
pub fn put_header(
    out: &mut [u8],
    at: usize,
    l: Alike,
    notice: &[u8],
    confirmation: u64,
    scheduled: u64,
)
    requires has_room { at + record_size ≤ length out.old }
    requires wide { length notice.now ≡ 3 }
    ensures { out.new ≡ put out.old at (header l notice.now confirmation scheduled) }
{
    put_alike(out, at, l, b"01", notice);
    put_to_count(
        out,
        at + layout::CONFIRMATION.at,
        confirmation,
        scheduled,
        b"01",
    );
    put_end(out, at, layout::BALANCE.at);
}

// Writes a detail to position 45.
pub fn put_detail_to_key(out: &mut [u8], at: usize, l: Alike, notice: &[u8], key: u64)
    requires has_room { at + 45 ≤ length out.old }
    requires wide { length notice.now ≡ 3 }
    ensures { out.new ≡ put out.old at (detail_to_key l notice.now key) }
{
    put_alike(out, at, l, b"02", notice);
    layout::KEY.put_number(out, at, key);
}
