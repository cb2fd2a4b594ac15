// The calls on a lent ledger that is known to be sound: each does what the call by value does, and writes its notices if it is asked to.
// `out`, `writes` and `room` go side by side: the contracts say of the output what stood in it and what stands, and a struct of the three would be made for each call.
// That the ledger is sound is asked by a clause: a type of lent slices that hold one would be made anew after each call, where the same is shown.
ghost use Rattle.std.specs.Prelude.{◌≡◌, true, ◌+◌, ◌≤◌, length, take};
ghost use Rattle.rules.specs.Lists.{count};
ghost use Rattle.ledger.specs.Sound.{sound_ledger};
ghost use Rattle.causes.specs.Causes.{request, calendar, close, removal, file};
ghost use Rattle.causes.specs.Requests.{closes};
ghost use Rattle.causes.specs.parts.Decisions.{as_call};
ghost use Rattle.calls.specs.Machine.{called};
ghost use Rattle.calls.specs.Days.{fresh_called};
ghost use Rattle.engine.specs.parts.Calls.{CalledIn, FreshLeaves, answered};
ghost use Rattle.ledger.specs.Limits.{ledger_places};

use crate::file_groups;
use calls::Returned;
use causes::{AccountRemoval, BillCall, CalendarRequest, Request, Start, by_calendar, checks};
use decisions::{notice, requests};
use ledger::LedgerHeader;
use places::holder::Holder;
use places::{accounts, place};
use rules::Cause;
use units::Date;

// What a request or a cancel does, and the change that it makes: its bill found, the call decided, and what that leaves stored. (A function of its own, which returns
// the change alone: LLVM keeps the answer of each entry in memory where one is told by a function that it does not inline, and a close then counts its bills
// where no one reads how many.)
fn changed_in<T: Holder>(
    lent: &mut [T],
    out: &mut [u8],
    writes: bool,
    room: usize,
    c: BillCall,
) -> Result<i64, Cause>
    requires { (sound_ledger (T.held lent.old) ≡ true) × (writes ≡ true → room ≤ length out.old) }
    ensures { CalledIn T.holds T.held writes (as_call c room) lent.old out.old lent.new out.new (answered result) }
{
    let h = T::header(lent);
    let count = h.count;
    let f = place::find(lent, count, requests::call_identity(c));
    let p = ledger::books::bill_place(f, count);
    let b = T::bill_at(lent, p);
    let u = requests::decide(c, room, h, f, b)?;
    let change = requests::change_of(c, b);
    let k = u.bill;
    notice::put(out, writes, c, h, f, b, k);
    place::update(lent, p, u);
    Ok(change)
}

// A request or a cancel.
pub fn bill_call_in<T: Holder>(
    lent: &mut [T],
    out: &mut [u8],
    writes: bool,
    room: usize,
    c: BillCall,
) -> Result<Returned, Cause>
    requires { (sound_ledger (T.held lent.old) ≡ true) × (writes ≡ true → room ≤ length out.old) }
    ensures { CalledIn T.holds T.held writes (as_call c room) lent.old out.old lent.new out.new result }
{
    let change = changed_in(lent, out, writes, room, c)?;
    calls::carried_out::noticed(change)
}

// A request.
pub fn request_in<T: Holder>(
    lent: &mut [T],
    out: &mut [u8],
    writes: bool,
    room: usize,
    r: Request,
) -> Result<Returned, Cause>
    requires { (sound_ledger (T.held lent.old) ≡ true) × (writes ≡ true → room ≤ length out.old) }
    ensures { CalledIn T.holds T.held writes (request r room) lent.old out.old lent.new out.new result }
{
    let change = changed_in(lent, out, writes, room, BillCall::Request(r))?;
    calls::carried_out::noticed(change)
}

// The call request that leaves its Scheduled Date to the calendar: the request with the date worked out.
pub fn calendar_in<T: Holder>(
    lent: &mut [T],
    out: &mut [u8],
    writes: bool,
    room: usize,
    q: CalendarRequest,
    holidays: &[u64],
) -> Result<Returned, Cause>
    requires { (sound_ledger (T.held lent.old) ≡ true) × (writes ≡ true → room ≤ length out.old) }
    ensures { CalledIn T.holds T.held writes (calendar q holidays.now room) lent.old out.old lent.new out.new result }
{
    let h = T::header(lent);
    // No `?`: the must-fail edit that answers 15 to bad holidays changes the value of a line here.
    match by_calendar::due_day(q, holidays, h.today) {
        Ok(day) => {
            let r = by_calendar::on_date(q.request, day);
            bill_call_in(lent, out, writes, room, BillCall::Request(r))
        }
        Err(cause) => Err(cause),
    }
}

// The file call.
pub fn file_in<T: Holder>(
    lent: &mut [T],
    out: &mut [u8],
    writes: bool,
    room: usize,
    s: &[u8],
) -> Result<Returned, Cause>
    requires { (sound_ledger (T.held lent.old) ≡ true) × (writes ≡ true → room ≤ length out.old) }
    ensures { CalledIn T.holds T.held writes (file s.now room) lent.old out.old lent.new out.new result }
{
    let h = T::header(lent);
    checks::file_check(s, room, h.tracking, h.confirmation)?;
    let c = file_groups::take(lent, out, writes, s, s.len() / records::RECORD_SIZE);
    calls::carried_out::cleared(c)
}

// How many of the first n bills a close closes. (`lent` and n as in places::place, which says why.)
fn closed_by<T: Holder>(lent: &[T], n: usize, old: Date, new: Date) -> u64
    requires { (T.holds lent.now ≡ true) × (n ≤ ledger_places) }
    ensures { result ≡ count (closes old new) (take n (T.held lent.now).bills) }
{
    (0..n)
        .map(|i| checks::one_closed(T::bill_at(lent, i), old, new))
        .sum()
}

// The call close.
pub fn close_in<T: Holder>(lent: &mut [T], d: Date) -> Result<Returned, Cause>
    requires { sound_ledger (T.held lent.old) ≡ true }
    ensures { (T.holds lent.new ≡ true) × (T.held lent.new ≡ (called (T.held lent.old) (close d)).ledger) × (result ≡ (called (T.held lent.old) (close d)).answer) }
{
    let h = T::header(lent);
    let today = h.today;
    checks::close_check(d, today)?;
    let closed = closed_by(lent, h.count, today, d);
    T::put_header(lent, LedgerHeader { today: d, ..h });
    calls::carried_out::quiet(closed)
}

// The call removal: the date is set where the bills of the account stand.
pub fn removal_in<T: Holder>(lent: &mut [T], a: AccountRemoval) -> Result<Returned, Cause>
    requires { sound_ledger (T.held lent.old) ≡ true }
    ensures { (T.holds lent.new ≡ true) × (T.held lent.new ≡ (called (T.held lent.old) (removal a)).ledger) × (result ≡ (called (T.held lent.old) (removal a)).answer) }
{
    let h = T::header(lent);
    let count = h.count;
    let held = accounts::has_account(lent, count, a.account);
    checks::removal_check(a, held)?;
    accounts::remove(lent, count, a.account, a.date);
    calls::carried_out::quiet(0) // no bill is closed
}

// Fresh: whatever was held is gone; a fresh that is refused leaves everything as it was.
pub fn fresh_in<T: Holder>(lent: &mut [T], s: Start) -> Result<Returned, Cause>
    requires { T.sized lent.old ≡ true }
    ensures { (T.held lent.new ≡ (fresh_called (T.held lent.old) s).ledger) × (result ≡ (fresh_called (T.held lent.old) s).answer) × FreshLeaves T.holds lent.old lent.new result }
{
    checks::fresh_check(s)?;
    T::put_empty(lent, s.today, s.tracking, s.confirmation);
    calls::carried_out::quiet(0)
}
