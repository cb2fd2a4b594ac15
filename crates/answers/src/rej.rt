// REJ: what sends a group back, with the code that rejects it.
ghost use Rattle.std.specs.Prelude.{◌≡◌, ◌+◌, ◌*◌, ◌≤◌, length};
ghost use Rattle.fields.specs.Put.{put};
ghost use Rattle.records.specs.Limits.{record_size};
ghost use Rattle.records.specs.Layout.{from_in, record_at, records_from};
ghost use Rattle.notices.specs.Answers.{rej_alike, rej_header, is_blank, from_back, rej_detail, rej};

use crate::is_sup;
use notices::rej::Rej;
use records::{RECORD_SIZE, layout};

// Writes positions 1 to 41 of a record.
fn put_alike(out: &mut [u8], at: usize, r: &[u8], x: Rej)
    requires { (at + 41 ≤ length out.old) × (record_size ≤ length r.now) }
    ensures { out.new ≡ put out.old at (rej_alike r.now x) }
{
    layout::TO_NOTICE.copy(out, at, r);
    layout::NOTICE.put_text(out, at, b"REJ");
    layout::TRANSMISSION.put_number(out, at, x.today.0);
}

// Writes the header.
fn put_header(out: &mut [u8], at: usize, h: &[u8], x: Rej)
    requires { (at + record_size ≤ length out.old) × (record_size ≤ length h.now) }
    ensures { out.new ≡ put out.old at (rej_header h.now x) }
{
    put_alike(out, at, h, x);
    layout::CONFIRMATION.put_number(out, at, x.confirmation);
    layout::SCHEDULED_TO_END.copy(out, at, h);
}

// Whether a detail's From Date is all spaces or all zeros.
fn is_blank(d: &[u8]) -> bool
    requires { 87 ≤ length d.now }
    ensures { result ≡ is_blank (from_in d.now) }
{
    layout::FROM.holds(d, b"        ") | layout::FROM.holds(d, b"00000000")
}

// Writes the From Date that goes back.
fn put_from(out: &mut [u8], at: usize, d: &[u8], sup: bool)
    requires { (at + 87 ≤ length out.old) × (87 ≤ length d.now) }
    ensures { out.new ≡ put out.old (at + 79) (from_back sup (from_in d.now)) }
{
    if sup & is_blank(d) {
        layout::FROM.put_text(out, at, b"00010101");
    } else {
        layout::FROM.copy(out, at, d);
    }
}

// Writes a detail.
fn put_detail(out: &mut [u8], at: usize, d: &[u8], sup: bool, x: Rej)
    requires { (at + record_size ≤ length out.old) × (record_size ≤ length d.now) }
    ensures { out.new ≡ put out.old at (rej_detail sup d.now x) }
{
    put_alike(out, at, d, x);
    layout::KEY_TO_CHARGE.copy(out, at, d);
    put_from(out, at, d, sup);
    layout::TIERS_TO_OWED.copy(out, at, d);
    layout::ERROR_LETTERS.put_text(out, at, b"BR");
    layout::ERROR_NUMBER.put_number(out, at, x.code);
    notices::put_end(out, at, layout::REJ_FILLER);
}

// Writes detail j of the REJ for the group of the file s whose header is record i.
fn put_detail_at(out: &mut [u8], at: usize, s: &[u8], i: usize, j: usize, sup: bool, x: Rej)
    requires { (at + record_size + j * record_size + record_size ≤ length out.old) × ((i + 1 + j) * record_size + record_size ≤ length s.now) }
    ensures { out.new ≡ put out.old (at + record_size + j * record_size) (rej_detail sup (record_at s.now (i + 1 + j)) x) }
{
    put_detail(
        out,
        at + RECORD_SIZE + j * RECORD_SIZE,
        records::record_at(s, i + 1 + j),
        sup,
        x,
    );
}

// Writes the REJ for the group of the file s whose header is record i and which has k details: k + 1 records.
pub fn write(out: &mut [u8], at: usize, s: &[u8], i: usize, k: usize, x: Rej)
    requires { (at + (k + 1) * record_size ≤ length out.old) × ((i + 1 + k) * record_size ≤ length s.now) }
    ensures { out.new ≡ put out.old at (rej (record_at s.now i) (records_from s.now (i + 1) k) x) }
{
    let h = records::record_at(s, i);
    let sup = is_sup(h);
    put_header(out, at, h, x);
    for j in 0..k {
        put_detail_at(out, at, s, i, j, sup, x);
    }
}
