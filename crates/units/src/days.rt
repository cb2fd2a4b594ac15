// Days counted from 1 January 1900: the number of a date, its weekday, and the date after it; whether a date is a year
// or so many days past another.
ghost use Rattle.std.specs.Prelude.{◌≡◌, true, ◌-◌, ◌≤◌, ◌<◌, ◌^◌, Some};
ghost use Rattle.units.specs.Calendar.{is_date};
ghost use Rattle.units.specs.Days.{last_date, days_of_years, days_of_months, day_number, weekday, next_date, year_past, days_past};

use crate::Date;

// The days of a year before each of its months, where it is no leap year.
const MONTH_STARTS: [u64; 12] = [0, 31, 59, 90, 120, 151, 181, 212, 243, 273, 304, 334];

// The days from 1 January 1900 to 1 January of year y: every fourth year is a leap year, every hundredth is none, every
// four hundredth is one, and there are 460 leap years before 1900.
fn days_before_year(y: u64) -> u64
    requires { (1900 ≤ y) × (y ≤ 2999) }
    ensures { result ≡ days_of_years (y - 1900) }
{
    let last = y - 1;
    (y - 1900) * 365 + last / 4 + last / 400 - last / 100 - 460
}

// The days of year y before month m.
fn days_before_month(y: u64, m: u64) -> u64
    requires { (1 ≤ m) × (m ≤ 12) }
    ensures { result ≡ days_of_months y (m - 1) }
{
    // by `as`, which is proved to keep it: an index has no `From`, and `try_from` would want an answer for what is no month
    let k = (m - 1) as usize;
    let days = MONTH_STARTS[k];
    if m <= 2 {
        return days;
    }
    if crate::leap(y) { days + 1 } else { days }
}

// Four ask for a date by a clause: a type of dates alone would have to ask it where a value is made, at the same calls, since a ledger holds any number.
impl Date {
    // How many days it stands after 1 January 1900.
    pub fn number(self) -> u64
        requires { is_date self.0 ≡ true }
        ensures { result ≡ day_number self.0 }
    {
        let d = self.0;
        let y = d / 10000;
        let m = d / 100 % 100;
        days_before_year(y) + days_before_month(y, m) + (d % 100 - 1)
    }

    // 1 Monday to 7 Sunday: a number, as document 02 and C have it, which is compared with Friday's and stored.
    pub fn weekday(self) -> u64
        requires { is_date self.0 ≡ true }
        ensures { result ≡ weekday self.0 }
    {
        self.number() % 7 + 1
    }

    // The date after this one.
    pub fn next(self) -> Date
        requires { (is_date self.0 ≡ true) × (self.0 < last_date) }
        ensures { next_date self.0 ≡ Some result.0 }
    {
        let d = self.0;
        let y = d / 10000;
        let m = d / 100 % 100;
        let last = crate::month_days(y, m);
        if d % 100 < last {
            return Date(d + 1);
        }
        // the first of the next month, or 1 January
        if m < 12 {
            return Date(d / 100 * 100 + 101);
        }
        Date(y * 10000 + 10101)
    }

    // Whether it is after the same day one year past another date, where 29 February goes to 28.
    pub fn is_year_past(self, from: Date) -> bool
        requires { is_date from.0 ≡ true }
        ensures { result ≡ year_past from.0 self.0 }
    {
        let d = from.0;
        if d % 10000 == 229 {
            return d + 9999 < self.0;
        }
        d + 10000 < self.0
    }

    // Whether it is more than n days past another date.
    pub fn is_days_past(self, n: u64, from: Date) -> bool
        requires { (is_date self.0 ≡ true) × (is_date from.0 ≡ true) × (n < 2 ^ 63) }
        ensures { result ≡ days_past n from.0 self.0 }
    {
        from.number() + n < self.number()
    }
}
