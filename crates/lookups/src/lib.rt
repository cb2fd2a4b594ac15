// The two lookups on a lent ledger: the open bill of an account that is due first, and the amounts of one bill.
#![tactic(auto)]

ghost use Rattle.std.specs.Prelude.{◌≡◌, true, ◌≤◌, take};
ghost use Rattle.lookups.specs.Lookups.{is_open_of, open_in, counted_by, amounts_in};
ghost use Rattle.lookups.specs.parts.Walk.{none_due, due_with, due_after, place_due};
ghost use Rattle.ledger.specs.Limits.{ledger_places};

use causes::checks;
use ledger::{Bill, Identity, Posted};
use places::holder::Holder;
use places::place;
use rules::Cause;
use units::{Cents, Date};

// A bill's amounts.
#[derive(Clone, Copy)]
pub struct Amounts {
    pub charge: Cents,
    pub applied: Cents,
    pub owed: Cents,
}

// The open bill due first among those that a walk has seen: its place and its Scheduled Date.
#[derive(Clone, Copy)]
pub struct Due {
    pub place: usize,
    pub date: Date,
}

pub fn is_open_of(b: Bill, account: u64, today: Date) -> bool
    ensures { result ≡ is_open_of account today b }
{
    let t = b.terms;
    (t.identity.account == account) & t.is_open(today)
}

// What is held after the bill at place p: of two that are due the same day, the one seen first is kept.
pub fn due_with(first: Option<Due>, p: usize, b: Bill, account: u64, today: Date) -> Option<Due>
    ensures { result ≡ due_with account today p b first }
{
    if !is_open_of(b, account, today) {
        return first;
    }
    let date = b.terms.latest.scheduled;
    match first {
        Some(held) if held.date <= date => first,
        _ => Some(Due { place: p, date }),
    }
}

// Its place, or 4 if there is none.
pub fn place_due(first: Option<Due>) -> Result<usize, Cause>
    ensures { result ≡ place_due first }
{
    first.map(|held| held.place).ok_or(Cause::NoSuchBill)
}

// The open bill of an account that is due first, of the first n. (`lent` and n as in places::place, which says why.)
fn due_first<T: Holder>(lent: &[T], n: usize, account: u64, today: Date) -> Option<Due>
    requires { (T.holds lent.now ≡ true) × (n ≤ ledger_places) }
    ensures { result ≡ due_after account today 0 none_due (take n (T.held lent.now).bills) }
{
    let mut first = None;
    // No fold over the places: in words the lookup then takes a fifth longer than by this loop, which stood here before (128 bills: 5.0 us, and 4.2).
    for i in 0..n {
        let b = T::bill_at(lent, i);
        first = due_with(first, i, b, account, today);
    }
    first
}

// The place of the open bill of an account that is due first; of equals it is the one first requested.
pub fn open_bill_of<T: Holder>(lent: &[T], account: u64) -> Result<usize, Cause>
    ensures { result ≡ open_in (T.held lent.now) account }
{
    if !places::checks::sound(lent) {
        return Err(Cause::BadArgument);
    }
    if ledger::ACCOUNT_END <= account {
        return Err(Cause::BadArgument);
    }
    let h = T::header(lent);
    let first = due_first(lent, h.count, account, h.today);
    place_due(first)
}

// What the posted amounts count for.
pub fn counted(p: Posted) -> Amounts
    ensures { result ≡ counted_by p }
{
    Amounts {
        charge: p.charge(),
        applied: p.applied(),
        owed: p.owed(),
    }
}

// The amounts of the bill with this identity.
pub fn amounts_of<T: Holder>(lent: &[T], id: Identity) -> Result<Amounts, Cause>
    ensures { result ≡ amounts_in (T.held lent.now) id }
{
    if !places::checks::sound(lent) {
        return Err(Cause::BadArgument);
    }
    if !checks::good_identity(id) {
        return Err(Cause::BadArgument);
    }
    let h = T::header(lent);
    let p = place::find(lent, h.count, id).ok_or(Cause::NoSuchBill)?;
    let b = T::bill_at(lent, p);
    Ok(counted(b.posted))
}
