// The business-day calendar for C and Rust programs: dates as numbers yyyymmdd, the holidays lent as such.
ghost use Rattle.std.specs.Prelude.{◌≡◌};
ghost use Rattle.calendar.specs.BusinessDays.{weekday_of, next_day, further_day};
ghost use Rattle.boundary.specs.Boundary.{number_of, number_left, date_left};

use rules::Cause;
use units::Date;

// The weekday of a date, 1 Monday to 7 Sunday.
pub fn clearing_weekday(date: u64, weekday: &mut u64) -> u64
    ensures answer { result ≡ number_of (weekday_of date) }
    ensures stored { weekday.new ≡ number_left weekday.old (weekday_of date) }
{
    let found = calendar::weekday_of(Date(date));
    crate::store_number(weekday, found)
}

// Stores a day that was found, and gives the number of the answer.
fn store_day(day: &mut u64, found: Result<Date, Cause>) -> u64
    ensures answer { result ≡ number_of found }
    ensures stored { day.new ≡ date_left day.old found }
{
    crate::store_number(day, found.map(|d| d.0))
}

// The first business day after a date.
pub fn clearing_next_business_day(date: u64, holidays: &[u64], day: &mut u64) -> u64
    ensures answer { result ≡ number_of (next_day holidays.now date) }
    ensures stored { day.new ≡ date_left day.old (next_day holidays.now date) }
{
    let found = calendar::next_business_day(Date(date), holidays);
    store_day(day, found)
}

// The business day so many further on from a date.
pub fn clearing_business_day(date: u64, number: u64, holidays: &[u64], day: &mut u64) -> u64
    ensures answer { result ≡ number_of (further_day holidays.now date number) }
    ensures stored { day.new ≡ date_left day.old (further_day holidays.now date number) }
{
    let found = calendar::business_day(Date(date), number, holidays);
    store_day(day, found)
}
