// The ledger without bills, the place where a bill goes, the sum of lent bills, and the signed change of it.
ghost use Rattle.std.specs.Prelude.{◌≡◌, true, ◌+◌, ◌<◌, ◌≤◌, ◌^◌, length, pos, ◌-ℤ◌};
ghost use Rattle.rules.specs.Lists.{every};
ghost use Rattle.ledger.specs.Books.{empty_ledger, bill_charge, small_charge, total_of};
ghost use Rattle.ledger.specs.parts.Places.{within, place_for};
ghost use Rattle.ledger.specs.Limits.{ledger_places};

use crate::{Bill, Ledger};
use units::{Cents, Date};

impl Ledger {
    // A ledger with no bills.
    pub fn empty(today: Date, tracking: u64, confirmation: u64) -> Ledger
        ensures { result ≡ empty_ledger today tracking confirmation }
    {
        Ledger {
            today,
            next_tracking: tracking,
            next_confirmation: confirmation,
            count: 0,
            bills: [Bill::blank(); crate::PLACES],
        }
    }
}

// The last place for one past the array.
fn within(i: usize) -> usize
    ensures { (result ≡ within i) × (result < ledger_places) }
{
    if i < crate::PLACES {
        i
    } else {
        crate::PLACES - 1
    }
}

// A place of the array: the one that was found, else the next free one, else the last.
pub fn bill_place(f: Option<usize>, count: usize) -> usize
    ensures { (result ≡ place_for f count) × (result < ledger_places) }
{
    within(f.unwrap_or(count))
}

// A sum, and the charge of one bill more.
pub fn add_charge(sum: Cents, b: Bill) -> Cents
    requires { sum.0 + bill_charge b < 2 ^ 64 }
    ensures { result.0 ≡ sum.0 + bill_charge b }
{
    sum + b.posted.charge()
}

// The sum of the posted charges of lent bills.
pub fn total(bills: &[Bill]) -> Cents
    requires { (length bills.now ≤ ledger_places) × (every small_charge bills.now ≡ true) }
    ensures { result.0 ≡ total_of bills.now }
{
    let mut sum = Cents(0);
    for &b in bills {
        sum = add_charge(sum, b);
    }
    sum
}

// The signed change of a total. By `as`, which is proved to keep both: `try_from` would want an answer for sums that no ledger has.
pub fn signed_change(new: Cents, old: Cents) -> i64
    requires { (new.0 < 2 ^ 63) × (old.0 < 2 ^ 63) }
    ensures { result ≡ pos new.0 -ℤ pos old.0 }
{
    (new.0 as i64) - (old.0 as i64)
}
