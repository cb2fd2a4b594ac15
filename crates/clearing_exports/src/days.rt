// The business-day calendar for C and Rust programs.

ghost use Rattle.std.specs.Prelude.{◌≡◌};
ghost use Rattle.calendar.specs.BusinessDays.{weekday_of, next_day, further_day};
ghost use Rattle.boundary.specs.Boundary.{number_of, number_left, date_left};

// The weekday of a date, 1 Monday to 7 Sunday.
#[unsafe(no_mangle)]
pub extern "C" fn clearing_weekday(date: u64, weekday: &mut u64) -> u64
    ensures answer { result ≡ number_of (weekday_of date) }
    ensures stored { weekday.new ≡ number_left weekday.old (weekday_of date) }
{
    clearing_c::days::clearing_weekday(date, weekday)
}

// The first business day after a date.
#[unsafe(no_mangle)]
pub extern "C" fn clearing_next_business_day(date: u64, holidays: &[u64], day: &mut u64) -> u64
    ensures answer { result ≡ number_of (next_day holidays.now date) }
    ensures stored { day.new ≡ date_left day.old (next_day holidays.now date) }
{
    clearing_c::days::clearing_next_business_day(date, holidays, day)
}

// The business day so many further on from a date.
#[unsafe(no_mangle)]
pub extern "C" fn clearing_business_day(
    date: u64,
    number: u64,
    holidays: &[u64],
    day: &mut u64,
) -> u64
    ensures answer { result ≡ number_of (further_day holidays.now date number) }
    ensures stored { day.new ≡ date_left day.old (further_day holidays.now date number) }
{
    clearing_c::days::clearing_business_day(date, number, holidays, day)
}
