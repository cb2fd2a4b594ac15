// The bills of an account, of a lent ledger: whether there is one, and their removal date set.
ghost use Rattle.std.specs.Prelude.{◌≡◌, true, ◌≤◌, ◌<◌, take, Some};
ghost use Rattle.rules.specs.Lists.{has};
ghost use Rattle.ledger.specs.Books.{of_account, removed_of};
ghost use Rattle.ledger.specs.parts.Places.{bill_at, replaced, removed_first};
ghost use Rattle.ledger.specs.Limits.{ledger_places};

use crate::holder::Holder;
use units::Date;

// Whether one of the first n bills is of the account.
pub fn has_account<T: Holder>(lent: &[T], n: usize, account: u64) -> bool
    requires { (T.holds lent.now ≡ true) × (n ≤ ledger_places) }
    ensures { result ≡ has (of_account account) (take n (T.held lent.now).bills) }
{
    (0..n).any(|i| T::identity_at(lent, i).account == account)
}

// Sets the removal date of the bill at place p, if it is of the account.
fn remove_at<T: Holder>(lent: &mut [T], p: usize, account: u64, date: Date)
    requires { (T.holds lent.old ≡ true) × (p < ledger_places) × (T.takes (Some date) ≡ true) }
    ensures { (T.holds lent.new ≡ true) × (T.held lent.new ≡ replaced (T.held lent.old) p (removed_of account date (bill_at (T.held lent.old) p))) }
{
    if T::identity_at(lent, p).account == account {
        let b = T::bill_at(lent, p);
        T::put_bill(lent, p, b.remove_if_of(account, date));
    }
}

// Sets the removal date of those of the first n bills that are of the account.
pub fn remove<T: Holder>(lent: &mut [T], n: usize, account: u64, date: Date)
    requires { (T.holds lent.old ≡ true) × (n ≤ ledger_places) × (T.takes (Some date) ≡ true) }
    ensures { (T.holds lent.new ≡ true) × (T.held lent.new ≡ removed_first n account date (T.held lent.old)) }
{
    for i in 0..n {
        remove_at(lent, i, account, date);
    }
}
