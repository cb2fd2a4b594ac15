// The bills of a lent ledger: found, summed, and stored with a header. That the slice holds a ledger, and that n is no more than its places, is asked beside
// each: a struct over the slice would ask both where it is made, once in each call, and say its two ghost facts again where it is lent to be changed.
ghost use Rattle.std.specs.Prelude.{◌≡◌, true, ◌+◌, ◌≤◌, ◌<◌, take};
ghost use Rattle.rules.specs.Lists.{every, find};
ghost use Rattle.ledger.specs.Books.{of_id, small_charge, total_of};
ghost use Rattle.ledger.specs.parts.Places.{updated};
ghost use Rattle.ledger.specs.Limits.{ledger_places};

use crate::holder::Holder;
use ledger::{Identity, Update, books};
use units::Cents;

// The place of an identity among the first n.
pub fn find<T: Holder>(lent: &[T], n: usize, id: Identity) -> Option<usize>
    requires { (T.holds lent.now ≡ true) × (n ≤ ledger_places) }
    ensures { result ≡ find (of_id id) 0 (take n (T.held lent.now).bills) }
{
    for i in 0..n {
        if T::identity_at(lent, i) == id {
            return Some(i);
        }
    }
    None
}

// The sum of the posted charges of the first n bills.
pub fn total<T: Holder>(lent: &[T], n: usize) -> Cents
    requires { (T.holds lent.now ≡ true) × (n ≤ ledger_places) × (every small_charge (take n (T.held lent.now).bills) ≡ true) }
    ensures { result.0 ≡ total_of (take n (T.held lent.now).bills) }
{
    let mut sum = Cents(0);
    for i in 0..n {
        sum = books::add_charge(sum, T::bill_at(lent, i));
    }
    sum
}

// Stores a header, and a bill at place p.
pub fn update<T: Holder>(lent: &mut [T], p: usize, u: Update)
    requires { (T.holds lent.old ≡ true) × (p < ledger_places) × (T.takes u.bill.terms.removal ≡ true) }
    ensures { (T.holds lent.new ≡ true) × (T.held lent.new ≡ updated (T.held lent.old) p u) }
{
    let b = u.bill;
    let h = u.header;
    T::put_bill(lent, p, b);
    T::put_header(lent, h);
}
