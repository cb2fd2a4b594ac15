// One group of a supplier file on small values: the bill that it names, its verdict, and its turn. The engine finds the bill and stores what the turn leaves.
#![tactic(auto)]

pub mod answer;
pub mod counts;

ghost use Rattle.std.specs.Prelude.{◌≡◌, true, false, ℕ, ◌+◌, ◌-◌, ◌*◌, ◌≤◌, ◌<◌, length, get_or};
ghost use Rattle.records.specs.Limits.{record_size, file_records};
ghost use Rattle.units.specs.Calendar.{is_date};
ghost use Rattle.file.specs.parts.Walk.{group_at, mark_at};
ghost use Rattle.verdict.specs.parts.Dated.{Dated};
ghost use Rattle.group.specs.Groups.{verdict_on};
ghost use Rattle.group.specs.parts.Turns.{identity_in, identity_at, sought_by, InWidthsAt, CanPost, ids_by, bill_by, numbered, WithinFile, TurnLeaves};

use ledger::{Bill, Identity, LedgerHeader, Posted, Terms, Update};
use records::group::{GroupAt, GroupRecords};
use records::{FILE_RECORDS, layout};
use rules::ErrorCode;
use units::Date;

// What came of a file's groups so far: how many were accepted and rejected, how many bytes their answers have, and the sums of the charges that were posted and
// of those that they replaced.
#[derive(Clone, Copy)]
pub struct Tally {
    pub accepted: u64,
    pub rejected: u64,
    pub written: usize,
    pub came: u64,
    pub went: u64,
}

// What a group's turn leaves: the header and the bill at its place, and the counts.
#[derive(Clone, Copy)]
pub struct TurnResult {
    pub update: Update,
    pub tally: Tally,
}

// The identity that a header and a detail name.
fn identity_of(r: &GroupRecords) -> Identity
    ensures { result ≡ identity_in r.now.header.now r.now.detail.now }
{
    Identity {
        account: layout::ACCOUNT.number(r.header).unwrap_or(0),
        key: layout::KEY.number(r.detail).unwrap_or(0),
    }
}

// The identity that a group names, where a record follows its header. (Where none does or a field holds no number it is no Option: line 1 refuses such a group
// whatever bill is found, so 0 stands there.)
pub fn identity_at(g: &GroupAt) -> Identity
    ensures { result ≡ identity_at g.now.file.now g.now.header g.now.records }
{
    if g.records <= g.header + 1 {
        return Identity { account: 0, key: 0 };
    }
    identity_of(&records::group::group_records(g.file, g.header))
}

// Lines 1 to 10 for a group; duplicate says what line 3 asks, b is the bill it names.
pub fn verdict_at(
    g: &GroupAt,
    duplicate: bool,
    b: Option<Terms>,
    today: Date,
) -> Result<Posted, ErrorCode>
    requires { Dated today b }
    ensures { result ≡ verdict_on duplicate today b (group_at g.now.file.now g.now.header g.now.records) }
{
    let notification = file::form_at(g)?;
    if duplicate {
        return Err(ErrorCode::Br14);
    }
    let r = records::group::group_records(g.file, g.header);
    verdict::verdict_of(&r, notification, b, today)
}

// The headers of groups that get BR14: an array with the count of records beside it, since memory is fixed. (A file of no records is not searched.)
pub fn marks(s: &[u8], n: usize) -> [bool; FILE_RECORDS]
    requires { (n ≤ file_records) × (n * record_size ≤ length s.now) }
    ensures { ((k : ℕ) → k < n → get_or result k false ≡ mark_at s.now n k) × ((k : ℕ) → n ≤ k → get_or result k false ≡ false) }
{
    if n == 0 {
        return [false; FILE_RECORDS];
    }
    pairs::duplicates(s, n)
}

// The bill that was found, where b stands at its place.
pub fn sought_by(f: Option<usize>, b: Bill) -> Option<Terms>
    ensures { result ≡ sought_by f b }
{
    f.map(|_| b.terms)
}

// How many Tracking IDs a group takes.
fn ids_used(v: Result<Posted, ErrorCode>, sup: bool) -> u64
    ensures { (result ≡ ids_by v sup) × (result ≤ 1) }
{
    match v {
        Err(_) => 0,
        Ok(_) => u64::from(sup),
    }
}

// What a verdict leaves of the bill at its place.
fn post(v: Result<Posted, ErrorCode>, sup: bool, b: Bill) -> Bill
    requires { CanPost v b }
    ensures { result ≡ bill_by v sup b }
{
    match v {
        Err(_) => b,
        Ok(amounts) => b.post(amounts, sup),
    }
}

// The verdict, with the number that stands behind BR in place of its code.
fn numbered(v: Result<Posted, ErrorCode>) -> Result<Posted, u64>
    ensures { result ≡ numbered v }
{
    v.map_err(u64::from)
}

// One group's turn, where b stands at the place that was found: its answer is written, if notices are.
// (Eight parameters: `TurnLeaves` says of each what it is, and a struct of some would be made by engine `turn` alone.)
pub fn turn(
    out: &mut [u8],
    writes: bool,
    c: Tally,
    g: &GroupAt,
    duplicate: bool,
    h: LedgerHeader,
    f: Option<usize>,
    b: Bill,
) -> TurnResult
    requires in_file { (g.now.records ≤ file_records) × (writes ≡ true → c.written + (g.now.records - g.now.header) * record_size ≤ length out.old) }
    requires widths { InWidthsAt f b × WithinFile c × (h.tracking ≤ 1000000200) × (h.confirmation ≤ 1000000200) × (is_date h.today.0 ≡ true) }
    ensures { TurnLeaves (verdict_on duplicate h.today (sought_by f b) (group_at g.now.file.now g.now.header g.now.records)) (group_at g.now.file.now g.now.header g.now.records) h b c writes out.old out.new result }
{
    let sup = file::sup_at(g);
    let v = verdict_at(g, duplicate, sought_by(f, b), h.today);
    let size = answer::answer(out, c.written, writes, g, numbered(v), b, h);
    let tally = counts::add(c, v, b, size);
    let header = LedgerHeader {
        tracking: h.tracking + ids_used(v, sup),
        confirmation: h.confirmation + 1,
        ..h
    };
    let bill = post(v, sup, b);
    let update = Update { header, bill };
    TurnResult { update, tally }
}
