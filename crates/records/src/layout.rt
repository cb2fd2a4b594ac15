// Where each field of a record stands and how many bytes it has, in document 01's order; and what is read of a field and written to it, the same for each.
// (The table's lines are alike, and each says another field.)
ghost use Rattle.std.specs.Prelude.{◌≡◌, ◌+◌, ◌≤◌, length};
ghost use Rattle.fields.specs.Digits.{digits, numeric};
ghost use Rattle.fields.specs.Put.{put, part, filled, same_list};
ghost use Rattle.fields.specs.Field.{field_of};

// A field of a record: the index at which it stands, counted from 0, and how many bytes it has.
#[derive(Clone, Copy)]
pub struct Field {
    pub at: usize,
    pub width: usize,
}

// Each method asks that the record reaches the field: a type of records with their length would ask more of whoever holds a longer slice.
impl Field {
    // The number that a record's field holds, where it holds digits only.
    pub fn number(self, r: &[u8]) -> Option<u64>
        requires { (self.at + self.width ≤ length r.now) × (self.width ≤ 19) }
        ensures { result ≡ field_of (part r.now self.at self.width) }
    {
        fields::read_field(r, self.at, self.width)
    }

    // Whether it holds digits only.
    pub fn is_numeric(self, r: &[u8]) -> bool
        requires { (self.at + self.width ≤ length r.now) × (self.width ≤ 19) }
        ensures { result ≡ numeric (part r.now self.at self.width) }
    {
        fields::is_numeric(r, self.at, self.width)
    }

    // Whether it holds this text.
    pub fn holds(self, r: &[u8], text: &[u8]) -> bool
        requires reaches { self.at + self.width ≤ length r.now }
        requires wide { length text.now ≡ self.width }
        ensures { result ≡ same_list (part r.now self.at self.width) text.now }
    {
        fields::is_text(r, self.at, text)
    }

    // Whether it holds the lowest digits of n.
    pub fn holds_number(self, r: &[u8], n: u64) -> bool
        requires { self.at + self.width ≤ length r.now }
        ensures { result ≡ same_list (part r.now self.at self.width) (digits self.width n) }
    {
        fields::is_digits(r, self.at, self.width, n)
    }

    // Whether two records hold the same in it.
    pub fn is_same(self, r: &[u8], other: &[u8]) -> bool
        requires { (self.at + self.width ≤ length r.now) × (self.at + self.width ≤ length other.now) }
        ensures { result ≡ same_list (part r.now self.at self.width) (part other.now self.at self.width) }
    {
        fields::same_part(r, self.at, other, self.at, self.width)
    }

    // Writes the lowest digits of n to the field of the record that starts at `at`.
    pub fn put_number(self, out: &mut [u8], at: usize, n: u64)
        requires { at + self.at + self.width ≤ length out.old }
        ensures { out.new ≡ put out.old (at + self.at) (digits self.width n) }
    {
        fields::put_digits(out, at + self.at, self.width, n);
    }

    // Writes this text to it.
    pub fn put_text(self, out: &mut [u8], at: usize, text: &[u8])
        requires has_room { at + self.at + self.width ≤ length out.old }
        requires wide { length text.now ≡ self.width }
        ensures { out.new ≡ put out.old (at + self.at) text.now }
    {
        fields::put_bytes(out, at + self.at, text);
    }

    // Fills it with one byte.
    pub fn fill(self, out: &mut [u8], at: usize, byte: u8)
        requires { at + self.at + self.width ≤ length out.old }
        ensures { out.new ≡ put out.old (at + self.at) (filled self.width byte) }
    {
        fields::put_fill(out, at + self.at, self.width, byte);
    }

    // Writes to it what the record r holds in it.
    pub fn copy(self, out: &mut [u8], at: usize, r: &[u8])
        requires { (at + self.at + self.width ≤ length out.old) × (self.at + self.width ≤ length r.now) }
        ensures { out.new ≡ put out.old (at + self.at) (part r.now self.at self.width) }
    {
        fields::put_part(out, at + self.at, r, self.at, self.width);
    }
}

// ---- header and detail alike
pub const COMPANY: Field = Field { at: 0, width: 2 };

pub const RATE_CODE: Field = Field { at: 2, width: 5 };

pub const ACCOUNT: Field = Field { at: 7, width: 12 };

pub const TRACKING: Field = Field { at: 19, width: 9 };

pub const TYPE: Field = Field { at: 28, width: 2 };

pub const NOTICE: Field = Field { at: 30, width: 3 };

pub const TRANSMISSION: Field = Field { at: 33, width: 8 };

// ---- header
pub const CONFIRMATION: Field = Field { at: 41, width: 9 };

pub const SCHEDULED: Field = Field { at: 50, width: 8 };

pub const RECORD_COUNT: Field = Field { at: 58, width: 2 };

pub const BALANCE: Field = Field { at: 60, width: 13 };

pub const HEADER_FILLER: usize = 73;

// ---- detail
pub const KEY: Field = Field { at: 41, width: 4 };

pub const BILLING: Field = Field { at: 45, width: 8 };

pub const SEQUENCE: Field = Field { at: 53, width: 3 };

pub const CONSUMPTION: Field = Field { at: 56, width: 10 };

pub const CHARGE: Field = Field { at: 66, width: 13 };

pub const FROM: Field = Field { at: 79, width: 8 };

// ---- where each of the four tiers starts, all four, the rate of the first, and where each field stands in a tier
pub const TIER_1: usize = 87;

pub const TIER_2: usize = 117;

pub const TIER_3: usize = 147;

pub const TIER_4: usize = 177;

pub const TIERS: Field = Field { at: 87, width: 120 };

pub const TIER_1_RATE: Field = Field { at: 87, width: 7 };

pub const TIER_RATE: Field = Field { at: 0, width: 7 };

pub const TIER_CONSUMPTION: Field = Field { at: 7, width: 10 };

pub const TIER_CHARGE: Field = Field { at: 17, width: 13 };

// ---- detail, after the tiers
pub const PREVIOUS_SEQUENCE: Field = Field { at: 207, width: 3 };

pub const PREVIOUS_CONSUMPTION: Field = Field { at: 210, width: 10 };

pub const PREVIOUS_CHARGE: Field = Field { at: 220, width: 13 };

pub const APPLIED: Field = Field { at: 233, width: 13 };

pub const OWED: Field = Field { at: 246, width: 13 };

pub const APPLIED_AND_OWED: Field = Field { at: 233, width: 26 };

pub const DETAIL_FILLER: usize = 259;

// ---- the error code of a REJ, its letters BR and its number, and what follows it
pub const ERROR_CODE: Field = Field { at: 259, width: 4 };

pub const ERROR_LETTERS: Field = Field { at: 259, width: 2 };

pub const ERROR_NUMBER: Field = Field { at: 261, width: 2 };

pub const REJ_FILLER: usize = 263;

// ---- what is compared or given back in one part: what stands before the Tracking ID, the type or the Notification Code; of a header from the Scheduled Date to the end; of a detail from
// Bill Key to charge, and from the tiers to what is owed
pub const TO_TRACKING: Field = Field { at: 0, width: 19 };

pub const TO_TYPE: Field = Field { at: 0, width: 28 };

pub const TO_NOTICE: Field = Field { at: 0, width: 30 };

pub const SCHEDULED_TO_END: Field = Field { at: 50, width: 271 };

pub const KEY_TO_CHARGE: Field = Field { at: 41, width: 38 };

pub const TIERS_TO_OWED: Field = Field { at: 87, width: 172 };

// ---- byte 13, which ends a record
pub const END: usize = 320;
