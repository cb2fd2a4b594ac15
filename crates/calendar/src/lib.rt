// Paper 1 of document 02: weekdays and business days over a lent list of holidays.
#![tactic(auto)]

ghost use Rattle.std.specs.Prelude.{◌≡◌, true, eqb};
ghost use Rattle.rules.specs.Lists.{has};
ghost use Rattle.units.specs.Calendar.{is_date};
ghost use Rattle.calendar.specs.BusinessDays.{is_business_day, good_holidays, business_day, weekday_of, next_day, further_day};

use rules::Cause;
use units::Date;

// "a lent list of up to 64 holiday dates".
pub const MOST_HOLIDAYS: usize = 64;

// "a given number (0 to 9, else 2)".
pub const MOST_FURTHER: u64 = 9;

// The weekdays from Monday to this one are business days.
const FRIDAY: u64 = 5;

// Whether a date is among the holidays.
fn is_holiday(d: Date, holidays: &[u64]) -> bool
    ensures { result ≡ has (eqb d.0) holidays.now }
{
    holidays.contains(&d.0)
}

fn is_business_day(d: Date, holidays: &[u64]) -> bool
    requires { is_date d.0 ≡ true }
    ensures { result ≡ is_business_day holidays.now d.0 }
{
    if FRIDAY < d.weekday() {
        return false;
    }
    !is_holiday(d, holidays)
}

// Whether the holidays are dates that strictly rise, and not over 64. A date is over 0.
fn good_holidays(holidays: &[u64]) -> bool
    ensures { result ≡ good_holidays holidays.now }
{
    if MOST_HOLIDAYS < holidays.len() {
        return false;
    }
    let mut before = 0;
    for &h in holidays {
        if h <= before {
            return false;
        }
        if !Date(h).valid() {
            return false;
        }
        before = h;
    }
    true
}

// The date with `number` business days after the start up to it, if there is one up to the last date.
fn further(start: Date, number: u64, holidays: &[u64]) -> Option<u64>
    requires { is_date start.0 ≡ true }
    ensures { result ≡ business_day holidays.now start.0 number }
{
    let mut d = start;
    let mut left = number;
    // A `while`, since `left` is no index: it falls on business days alone. A `for` over the business days would need a second loop, over the dates to each.
    while 0 < left {
        if units::LAST_DATE <= d.0 {
            return None;
        }
        d = d.next();
        if is_business_day(d, holidays) {
            left -= 1;
        }
    }
    Some(d.0)
}

// The weekday of a date, 1 Monday to 7 Sunday.
pub fn weekday_of(d: Date) -> Result<u64, Cause>
    ensures { result ≡ weekday_of d.0 }
{
    if !d.valid() {
        return Err(Cause::BadArgument);
    }
    Ok(d.weekday())
}

// The business day `number` further on.
pub fn business_day(start: Date, number: u64, holidays: &[u64]) -> Result<Date, Cause>
    ensures { result ≡ further_day holidays.now start.0 number }
{
    if !start.valid() {
        return Err(Cause::BadArgument);
    }
    if MOST_FURTHER < number {
        return Err(Cause::BadArgument);
    }
    if !good_holidays(holidays) {
        return Err(Cause::BadHolidays);
    }
    let d = further(start, number, holidays).ok_or(Cause::NoSuchDay)?;
    Ok(Date(d))
}

// The first business day after a date.
pub fn next_business_day(d: Date, holidays: &[u64]) -> Result<Date, Cause>
    ensures { result ≡ next_day holidays.now d.0 }
{
    business_day(d, 1, holidays)
}
