// The records of a supplier's file and of the notices: their limits, where each field stands (layout), and what is read of a record.
#![tactic(auto)]

pub mod group;
pub mod layout;

ghost use Rattle.std.specs.Prelude.{◌≡◌, ◌+◌, ◌*◌, ◌≤◌, ◌<◌, ◌^◌, length};
ghost use Rattle.fields.specs.Put.{part};
ghost use Rattle.fields.specs.Field.{field_of};
ghost use Rattle.records.specs.Limits.{record_size};
ghost use Rattle.records.specs.Layout.{record_at};
ghost use Rattle.records.specs.Tiers.{four_fields, tier_consumptions, tier_charges};

use layout::Field;

// How many bytes a record has, and a notice of two records; how many records a file has at most, and how many bytes.
pub const RECORD_SIZE: usize = 321;

pub const NOTICE_SIZE: usize = 642;

pub const FILE_RECORDS: usize = 200;

pub const FILE_SIZE: usize = 64200;

// Record i of the file s.
pub fn record_at<'a>(s: &'a [u8], i: usize) -> &'a [u8]
    requires { i * record_size + record_size ≤ length s.now }
    ensures { (result.now ≡ record_at s.now i) × (length result.now ≡ record_size) }
{
    let at = i * RECORD_SIZE;
    &s[at..at + RECORD_SIZE]
}

// A field's number in each of the four tiers. (Four fields, and no array with an iterator's sum: the definitions name the four, and line 9's sum is theirs.)
#[derive(Clone, Copy)]
pub struct Tiers(pub u64, pub u64, pub u64, pub u64);

impl Tiers {
    // Their sum.
    pub fn sum(self) -> u64
        requires { self.0 + (self.1 + (self.2 + self.3)) < 2 ^ 64 }
        ensures { result ≡ self.0 + (self.1 + (self.2 + self.3)) }
    {
        self.0 + self.1 + self.2 + self.3
    }
}

// The Notification Code of a supplier's group: RSP or SUP.
#[derive(Clone, Copy, Debug, PartialEq, Eq)]
pub enum Notification {
    Response,
    Supplement,
}

// The numbers of a tier's field in each of the four tiers, where each holds digits only: `f` says where it stands in a tier.
fn read_tiers(d: &[u8], f: Field) -> Option<Tiers>
    requires { (177 + f.at + f.width ≤ length d.now) × (f.width ≤ 19) }
    ensures { result ≡ four_fields (field_of (part d.now (87 + f.at) f.width)) (field_of (part d.now (117 + f.at) f.width)) (field_of (part d.now (147 + f.at) f.width)) (field_of (part d.now (177 + f.at) f.width)) }
{
    let a = fields::read_field(d, layout::TIER_1 + f.at, f.width)?;
    let b = fields::read_field(d, layout::TIER_2 + f.at, f.width)?;
    let c = fields::read_field(d, layout::TIER_3 + f.at, f.width)?;
    let e = fields::read_field(d, layout::TIER_4 + f.at, f.width)?;
    Some(Tiers(a, b, c, e))
}

// The consumptions of the four tiers.
pub fn tier_consumptions(d: &[u8]) -> Option<Tiers>
    requires { 194 ≤ length d.now }
    ensures { result ≡ tier_consumptions d.now }
{
    read_tiers(d, layout::TIER_CONSUMPTION)
}

// The charges of the four tiers.
pub fn tier_charges(d: &[u8]) -> Option<Tiers>
    requires { 207 ≤ length d.now }
    ensures { result ≡ tier_charges d.now }
{
    read_tiers(d, layout::TIER_CHARGE)
}
