// A ledger lent as a slice of one `Ledger`.
ghost use Rattle.std.specs.Prelude.{◌≡◌, true, refl, eqb, length};
ghost use Rattle.places.specs.parts.OneLedger.{holds_one, one_ledger, takes_any, one-places, one-sound-holds};

use crate::holder::Holder;
use ledger::{Bill, Identity, Ledger, LedgerHeader, PLACES};
use units::Date;

impl Holder for Ledger {
    ghost sized = { λ ls. eqb (length ls) 1 };

    ghost holds = { holds_one };

    ghost held = { one_ledger };

    ghost takes = { takes_any };

    ghost places = { one-places };

    ghost sound_holds = { one-sound-holds };

    ghost takes_read = { λ ls h p k. refl };

    ghost takes_said = { λ r e. refl };

    fn fits(lent: &[Ledger]) -> bool {
        if lent.len() != 1 {
            return false;
        }
        // Always true: by it the check knows how many places there are.
        let bills = &lent[0].bills[..];
        bills.len() == PLACES
    }

    fn header(lent: &[Ledger]) -> LedgerHeader {
        let ledger = &lent[0];
        LedgerHeader {
            today: ledger.today,
            tracking: ledger.next_tracking,
            confirmation: ledger.next_confirmation,
            count: ledger.count,
        }
    }

    fn bill_at(lent: &[Ledger], p: usize) -> Bill {
        lent[0].bills[p]
    }

    fn identity_at(lent: &[Ledger], p: usize) -> Identity {
        lent[0].bills[p].terms.identity
    }

    fn put_header(lent: &mut [Ledger], h: LedgerHeader) {
        let ledger = &mut lent[0];
        ledger.today = h.today;
        ledger.next_tracking = h.tracking;
        ledger.next_confirmation = h.confirmation;
        ledger.count = h.count;
    }

    fn put_bill(lent: &mut [Ledger], p: usize, b: Bill) {
        lent[0].bills[p] = b;
    }

    fn put_empty(lent: &mut [Ledger], today: Date, tracking: u64, confirmation: u64) {
        lent[0] = Ledger::empty(today, tracking, confirmation);
    }
}

// A ledger lent for a call by value.
pub fn lend(l: Ledger) -> [Ledger; 1]
    ensures { (holds_one result ≡ true) × (one_ledger result ≡ l) }
{
    [l]
}

// The ledger that the call left.
pub fn taken_back(left: &[Ledger; 1]) -> Ledger
    requires { holds_one left.now ≡ true }
    ensures { result ≡ one_ledger left.now }
{
    left[0]
}
