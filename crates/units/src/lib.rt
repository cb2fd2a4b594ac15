// The three quantities and the dates, each a type of its own: a sum or comparison takes only its own unit. Days are
// counted in days.rt.
#![tactic(auto)]

mod days;

ghost use Rattle.std.specs.Prelude.{◌≡◌, ◌+◌, ◌<◌, ◌^◌};
ghost use Rattle.units.specs.Units.{fits_cents, fits_ccf, fits_rate};
ghost use Rattle.units.specs.Calendar.{is_leap, month_days, is_date};

use std::ops::Add;

// Whole cents.
#[derive(Clone, Copy, PartialEq, Eq, PartialOrd, Ord)]
pub struct Cents(pub u64);

// Whole hundred cubic feet.
#[derive(Clone, Copy, PartialEq, Eq, PartialOrd, Ord)]
pub struct Ccf(pub u64);

// Hundred-thousandths of a dollar per Mcf.
#[derive(Clone, Copy, PartialEq, Eq, PartialOrd, Ord)]
pub struct Rate(pub u64);

// The last date of the "years 1900 to 2999".
pub const LAST_DATE: u64 = 29991231;

// A date as yyyymmdd.
#[derive(Clone, Copy, PartialEq, Eq, PartialOrd, Ord)]
pub struct Date(pub u64);

// std has no derive of `Add`: each unit that is added says its own.
impl Add for Cents {
    type Output = Cents;

    ghost can_add = { λ a b. a.0 + b.0 < 2 ^ 64 };

    ghost add_gives = { λ a b sum. sum.0 ≡ a.0 + b.0 };

    fn add(self, other: Cents) -> Cents {
        Cents(self.0 + other.0)
    }
}

// A trait with each unit's limit as a constant would need an impl for each, and the number of each by a method: longer than the three `fits`.
impl Cents {
    // Whether a charge fits its 13 digits.
    pub fn fits(self) -> bool
        ensures { result ≡ fits_cents self }
    {
        self.0 < 10000000000000
    }
}

impl Add for Ccf {
    type Output = Ccf;

    ghost can_add = { λ a b. a.0 + b.0 < 2 ^ 64 };

    ghost add_gives = { λ a b sum. sum.0 ≡ a.0 + b.0 };

    fn add(self, other: Ccf) -> Ccf {
        Ccf(self.0 + other.0)
    }
}

impl Ccf {
    // Whether a consumption fits its 10 digits.
    pub fn fits(self) -> bool
        ensures { result ≡ fits_ccf self }
    {
        self.0 < 10000000000
    }
}

impl Rate {
    // Whether a rate fits its 7 digits.
    pub fn fits(self) -> bool
        ensures { result ≡ fits_rate self }
    {
        self.0 < 10000000
    }
}

// A Gregorian leap year.
fn leap(y: u64) -> bool
    ensures { result ≡ is_leap y }
{
    if y % 400 == 0 {
        return true;
    }
    if y % 100 == 0 {
        return false;
    }
    y % 4 == 0
}

// The number of days of a month, 0 for no month: no day is one of those, so `valid` asks nothing else.
fn month_days(y: u64, m: u64) -> u64
    ensures { result ≡ month_days y m }
{
    match m {
        1 | 3 | 5 | 7 | 8 | 10 | 12 => 31,
        4 | 6 | 9 | 11 => 30,
        2 => { if leap(y) { 29 } else { 28 } }
        _ => 0,
    }
}

impl Date {
    // A date of the Gregorian calendar in the years 1900 to 2999. A test and no `TryFrom`: words that are not a sound ledger's hold dates that are none.
    pub fn valid(self) -> bool
        ensures { result ≡ is_date self.0 }
    {
        let d = self.0;
        let y = d / 10000;
        let m = d / 100 % 100;
        let day = d % 100;
        let last = month_days(y, m);
        (1900 <= y) & (y <= 2999) & (1 <= day) & (day <= last)
    }
}
