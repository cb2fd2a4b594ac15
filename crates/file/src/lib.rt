// The supplier file: its check, its groups, and lines 1 and 2.
#![tactic(auto)]

ghost use Rattle.std.specs.Prelude.{◌≡◌, ◌+◌, ◌*◌, ◌≤◌, ◌<◌, length, take};
ghost use Rattle.rules.specs.Lists.{every, count};
ghost use Rattle.records.specs.Limits.{record_size};
ghost use Rattle.records.specs.Layout.{record_at, records_from, is_sup};
ghost use Rattle.file.specs.File.{printable, is_header, good_record, good_file, leading, groups, asks_id, unfit, form_of};
ghost use Rattle.file.specs.parts.Walk.{records_after, group_at, pair_form};

use records::group::{self, GroupAt, GroupRecords};
use records::{FILE_SIZE, Notification, RECORD_SIZE, layout};
use rules::ErrorCode;

// Whether the first n bytes of r are codes from 32 to 126. (No early exit: the loop is vectorised.)
fn all_printable(r: &[u8], n: usize) -> bool
    requires { n ≤ length r.now }
    ensures { result ≡ every printable (take n r.now) }
{
    let mut good = true;
    for &x in &r[..n] {
        good = good & ((32 <= x) & (x <= 126));
    }
    good
}

// Whether a record is of type 01.
fn is_header(r: &[u8]) -> bool
    requires { 30 ≤ length r.now }
    ensures { result ≡ is_header r.now }
{
    layout::TYPE.holds(r, b"01")
}

// Whether a record is as document 01 asks.
fn good_record(r: &[u8]) -> bool
    requires { record_size ≤ length r.now }
    ensures { result ≡ good_record r.now }
{
    let last = r[layout::END];
    all_printable(r, layout::END) & (last == 13) & (is_header(r) | layout::TYPE.holds(r, b"02"))
}

// Whether record i is a header.
pub fn header_at(s: &[u8], i: usize) -> bool
    requires { i * record_size + record_size ≤ length s.now }
    ensures { result ≡ is_header (record_at s.now i) }
{
    is_header(records::record_at(s, i))
}

// Whether a group's header has the Notification Code SUP.
pub fn sup_at(g: &GroupAt) -> bool
    ensures { result ≡ is_sup (record_at g.now.file.now g.now.header) }
{
    layout::NOTICE.holds(records::record_at(g.file, g.header), b"SUP")
}

// The check of a whole file: cause 11 where it is false.
pub fn good_file(s: &[u8]) -> bool
    ensures { result ≡ good_file s.now }
{
    let len = s.len();
    if len % RECORD_SIZE != 0 {
        return false;
    }
    if FILE_SIZE < len {
        return false;
    }
    for r in s.chunks_exact(RECORD_SIZE) {
        if !good_record(r) {
            return false;
        }
    }
    s.is_empty() || header_at(s, 0)
}

// How many details the group has.
pub fn detail_count(g: &GroupAt) -> usize
    ensures { result ≡ leading (records_after g.now.file.now g.now.header g.now.records) }
{
    let first = g.header + 1;
    for j in first..g.records {
        if header_at(g.file, j) {
            return j - first;
        }
    }
    g.records - first
}

// How many groups there are, and how many ask for a Tracking ID: what cause 12 counts.
#[derive(Clone, Copy)]
pub struct Counts {
    pub groups: usize,
    pub ids: usize,
}

pub fn count_groups(s: &[u8], n: usize) -> Counts
    requires { n * record_size ≤ length s.now }
    ensures { (result.groups ≡ length (groups (records_from s.now 0 n))) × (result.ids ≡ count asks_id (groups (records_from s.now 0 n))) }
{
    let mut g = 0;
    let mut k = 0;
    for r in s[..n * RECORD_SIZE].chunks_exact(RECORD_SIZE) {
        if is_header(r) {
            g += 1;
            if layout::NOTICE.holds(r, b"SUP") {
                k += 1;
            }
        }
    }
    Counts { groups: g, ids: k }
}

// Line 1 for a header and its only detail.
fn unfit_pair(r: &GroupRecords) -> bool
    ensures { result ≡ unfit r.now.header.now r.now.detail.now }
{
    !layout::RECORD_COUNT.holds(r.header, b"01")
        | !layout::COMPANY.holds(r.header, b"34")
        | !layout::TO_TYPE.is_same(r.header, r.detail)
        | !layout::NOTICE.is_same(r.header, r.detail)
        | !layout::ACCOUNT.is_numeric(r.header)
        | !layout::KEY.is_numeric(r.detail)
}

// Lines 1 and 2 for a header and its only detail: BR17, BR19, or the Notification Code.
fn pair_form(r: &GroupRecords) -> Result<Notification, ErrorCode>
    ensures { result ≡ pair_form r.now.header.now r.now.detail.now }
{
    if unfit_pair(r) {
        return Err(ErrorCode::Br17);
    }
    if layout::NOTICE.holds(r.header, b"RSP") {
        return Ok(Notification::Response);
    }
    if layout::NOTICE.holds(r.header, b"SUP") {
        return Ok(Notification::Supplement);
    }
    Err(ErrorCode::Br19)
}

// Lines 1 and 2 for a group: BR17, BR19, or the Notification Code.
pub fn form_at(g: &GroupAt) -> Result<Notification, ErrorCode>
    ensures { result ≡ form_of (group_at g.now.file.now g.now.header g.now.records) }
{
    let k = detail_count(g);
    if k != 1 {
        return Err(ErrorCode::Br17);
    }
    pair_form(&group::group_records(g.file, g.header))
}
