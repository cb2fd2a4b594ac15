// The calls on a ledger that is lent: each makes the call by value and stores the ledger that it left. The three lines of each stay: one function over a closure
// that makes the call would be as long at each call, and its contract would speak of what the closure leaves.
#![tactic(auto)]

ghost use Rattle.std.specs.Prelude.{◌≡◌, length};
ghost use Rattle.causes.specs.Causes.{request, calendar, file, cancel, close, removal};
ghost use Rattle.calls.specs.Machine.{called};
ghost use Rattle.calls.specs.Days.{fresh_called};
ghost use Rattle.clearing.specs.LentLeaves.{LentLeaves};
ghost use Rattle.lookups.specs.Lookups.{open_in, amounts_in};

use calls::Returned;
use causes::{AccountRemoval, CalendarRequest, Request, Start};
use ledger::{Identity, Ledger};
use lookups::Amounts;
use rules::Cause;
use units::Date;

// Begins a history: whatever the ledger held is gone.
pub fn fresh(ledger: &mut Ledger, s: Start) -> Result<Returned, Cause>
    ensures { (ledger.new ≡ (fresh_called ledger.old s).ledger) × (result ≡ (fresh_called ledger.old s).answer) }
{
    let c = by_value::fresh(*ledger, s);
    *ledger = c.ledger;
    c.answer
}

// Sets today to a later date.
pub fn close_day(ledger: &mut Ledger, d: Date) -> Result<Returned, Cause>
    ensures { (ledger.new ≡ (called ledger.old (close d)).ledger) × (result ≡ (called ledger.old (close d)).answer) }
{
    let c = by_value::close_day(*ledger, d);
    *ledger = c.ledger;
    c.answer
}

// The call removal: sets the removal date on all bills of an account.
pub fn remove_account(ledger: &mut Ledger, a: AccountRemoval) -> Result<Returned, Cause>
    ensures { (ledger.new ≡ (called ledger.old (removal a)).ledger) × (result ≡ (called ledger.old (removal a)).answer) }
{
    let c = by_value::remove_account(*ledger, a);
    *ledger = c.ledger;
    c.answer
}

// The call request: its BIL goes to out.
pub fn request_bill(ledger: &mut Ledger, r: Request, out: &mut [u8]) -> Result<Returned, Cause>
    ensures { LentLeaves ledger.old (request r (length out.old)) out.old ledger.new out.new result }
{
    let c = by_value::request_bill(*ledger, out, r);
    *ledger = c.ledger;
    c.answer
}

// The call request that leaves its Scheduled Date to the calendar: its BIL goes to out.
pub fn request_by_calendar(
    ledger: &mut Ledger,
    q: CalendarRequest,
    holidays: &[u64],
    out: &mut [u8],
) -> Result<Returned, Cause>
    ensures { LentLeaves ledger.old (calendar q holidays.now (length out.old)) out.old ledger.new out.new result }
{
    let c = by_value::request_by_calendar(*ledger, out, q, holidays);
    *ledger = c.ledger;
    c.answer
}

// The call cancel: its CXL goes to out.
pub fn cancel_bill(ledger: &mut Ledger, id: Identity, out: &mut [u8]) -> Result<Returned, Cause>
    ensures { LentLeaves ledger.old (cancel id (length out.old)) out.old ledger.new out.new result }
{
    let c = by_value::cancel_bill(*ledger, out, id);
    *ledger = c.ledger;
    c.answer
}

// Takes a supplier file: its answers go to out.
pub fn take_file(ledger: &mut Ledger, s: &[u8], out: &mut [u8]) -> Result<Returned, Cause>
    ensures { LentLeaves ledger.old (file s.now (length out.old)) out.old ledger.new out.new result }
{
    let c = by_value::take_file(*ledger, out, s);
    *ledger = c.ledger;
    c.answer
}

// The place of the open bill of an account that is due first; of equals it is the one first requested.
pub fn open_bill_of(ledger: &Ledger, account: u64) -> Result<usize, Cause>
    ensures { result ≡ open_in ledger.now account }
{
    lookups::open_bill_of(&places::one_ledger::lend(*ledger), account)
}

// The amounts of the bill with this identity.
pub fn amounts_of(ledger: &Ledger, id: Identity) -> Result<Amounts, Cause>
    ensures { result ≡ amounts_in ledger.now id }
{
    lookups::amounts_of(&places::one_ledger::lend(*ledger), id)
}
