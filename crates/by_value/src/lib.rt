// The calls on a ledger by value: each lends the ledger to the engine, if it is sound, and hands back what that left.
#![tactic(auto)]

ghost use Rattle.std.specs.Prelude.{◌≡◌, true, length, Err};
ghost use Rattle.fields.specs.Put.{put};
ghost use Rattle.places.specs.parts.OneLedger.{holds_one, one_ledger};
ghost use Rattle.causes.specs.Causes.{request, calendar, file, cancel, close, removal};
ghost use Rattle.causes.specs.parts.Decisions.{as_call};
ghost use Rattle.calls.specs.Machine.{step_in, called};
ghost use Rattle.calls.specs.Days.{fresh_called};
ghost use Rattle.lookups.specs.Lookups.{open_in, amounts_in};

use calls::{Called, Returned, carried_out};
use causes::{AccountRemoval, BillCall, CalendarRequest, Request, Start, by_calendar};
use engine::call;
use ledger::{Identity, Ledger};
use lookups::Amounts;
use places::{checks, one_ledger};
use rules::Cause;
use units::Date;

// "Returned is the number alone": the ledger is as it was.
fn refused(l: Ledger, cause: Cause) -> Called
    ensures { result ≡ record { ledger = l; answer = Err cause } }
{
    Called {
        ledger: l,
        answer: Err(cause),
    }
}

// The ledger that a call left, and what it answered.
fn left(lent: &[Ledger; 1], answer: Result<Returned, Cause>) -> Called
    requires { holds_one lent.now ≡ true }
    ensures { result ≡ record { ledger = one_ledger lent.now; answer = answer } }
{
    Called {
        ledger: one_ledger::taken_back(lent),
        answer,
    }
}

// Begins a history: whatever the ledger held is gone. Nothing of it is read, so none is lent: the empty one goes straight into what is handed back.
pub fn fresh(l: Ledger, s: Start) -> Called
    ensures { result ≡ fresh_called l s }
{
    match causes::checks::fresh_check(s) {
        Err(cause) => refused(l, cause),
        Ok(()) => Called {
            ledger: Ledger::empty(s.today, s.tracking, s.confirmation),
            answer: carried_out::quiet(0),
        },
    }
}

// Sets today to a later date. The lines that lend the ledger stand in each of the calls: a function over the call as an `FnOnce` has no clause for what the
// call leaves in an output that it captures (an `FnOnce` has no `step`), and two of the four write one.
pub fn close_day(l: Ledger, d: Date) -> Called
    ensures { result ≡ called l (close d) }
{
    let mut lent = one_ledger::lend(l);
    if !checks::sound(&lent) {
        return refused(l, Cause::BadArgument);
    }
    let answer = call::close_in(&mut lent, d);
    left(&lent, answer)
}

// The call removal: sets the removal date on all bills of an account.
pub fn remove_account(l: Ledger, a: AccountRemoval) -> Called
    ensures { result ≡ called l (removal a) }
{
    let mut lent = one_ledger::lend(l);
    if !checks::sound(&lent) {
        return refused(l, Cause::BadArgument);
    }
    let answer = call::removal_in(&mut lent, a);
    left(&lent, answer)
}

// Takes a supplier file: its answers go to out.
pub fn take_file(l: Ledger, out: &mut [u8], s: &[u8]) -> Called
    ensures { (result ≡ called l (file s.now (length out.old))) × (out.new ≡ put out.old 0 (step_in l (file s.now (length out.old))).written) }
{
    let mut lent = one_ledger::lend(l);
    if !checks::sound(&lent) {
        return refused(l, Cause::BadArgument); // 2, before 11
    }
    let room = out.len();
    let answer = call::file_in(&mut lent, out, true, room, s);
    left(&lent, answer)
}

// A request or a cancel.
fn bill_call(l: Ledger, out: &mut [u8], c: BillCall) -> Called
    ensures { (result ≡ called l (as_call c (length out.old))) × (out.new ≡ put out.old 0 (step_in l (as_call c (length out.old))).written) }
{
    let mut lent = one_ledger::lend(l);
    if !checks::sound(&lent) {
        return refused(l, Cause::BadArgument);
    }
    let room = out.len();
    let answer = call::bill_call_in(&mut lent, out, true, room, c);
    left(&lent, answer)
}

// The call request.
pub fn request_bill(l: Ledger, out: &mut [u8], r: Request) -> Called
    ensures { (result ≡ called l (request r (length out.old))) × (out.new ≡ put out.old 0 (step_in l (request r (length out.old))).written) }
{
    bill_call(l, out, BillCall::Request(r))
}

// The call request that leaves its Scheduled Date to the calendar: the request with the date worked out. That the ledger is sound comes before 14 and 15.
pub fn request_by_calendar(
    l: Ledger,
    out: &mut [u8],
    q: CalendarRequest,
    holidays: &[u64],
) -> Called
    ensures { (result ≡ called l (calendar q holidays.now (length out.old))) × (out.new ≡ put out.old 0 (step_in l (calendar q holidays.now (length out.old))).written) }
{
    let day = by_calendar::due_day(q, holidays, l.today);
    match day {
        Ok(d) => {
            let r = by_calendar::on_date(q.request, d);
            request_bill(l, out, r)
        }
        Err(cause) => {
            let lent = one_ledger::lend(l);
            if !checks::sound(&lent) {
                return refused(l, Cause::BadArgument); // 2, before 14 and 15
            }
            refused(l, cause)
        }
    }
}

// The call cancel.
pub fn cancel_bill(l: Ledger, out: &mut [u8], id: Identity) -> Called
    ensures { (result ≡ called l (cancel id (length out.old))) × (out.new ≡ put out.old 0 (step_in l (cancel id (length out.old))).written) }
{
    bill_call(l, out, BillCall::Cancel(id))
}

// The place of the open bill of an account that is due first; of equals it is the one first requested.
pub fn open_bill_of(l: Ledger, account: u64) -> Result<usize, Cause>
    ensures { result ≡ open_in l account }
{
    lookups::open_bill_of(&one_ledger::lend(l), account)
}

// The amounts of the bill with this identity.
pub fn amounts_of(l: Ledger, id: Identity) -> Result<Amounts, Cause>
    ensures { result ≡ amounts_in l id }
{
    lookups::amounts_of(&one_ledger::lend(l), id)
}
