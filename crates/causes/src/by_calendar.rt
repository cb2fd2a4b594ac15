// Paper 1 of document 02: the request that leaves its Scheduled Date to the calendar.
ghost use Rattle.std.specs.Prelude.{◌≡◌};
ghost use Rattle.rules.specs.Rules.{first};
ghost use Rattle.calendar.specs.BusinessDays.{business_day, day_by};
ghost use Rattle.causes.specs.Causes.{on_date, schedule_causes};

use crate::{CalendarRequest, Request, checks};
use rules::Cause;
use units::Date;

// The business day that a request by calendar is due, counted from today, or the first of its causes 2, 14 and 15.
pub fn due_day(q: CalendarRequest, holidays: &[u64], today: Date) -> Result<Date, Cause>
    ensures { result ≡ day_by (business_day holidays.now today.0 q.number) (first (schedule_causes q holidays.now today)) }
{
    let r = q.request;
    if !checks::good_undated(r) {
        return Err(Cause::BadArgument);
    }
    calendar::business_day(today, q.number, holidays)
}

// The request with this Scheduled Date.
pub fn on_date(r: Request, d: Date) -> Request
    ensures { result ≡ on_date r d }
{
    Request { scheduled: d, ..r }
}
