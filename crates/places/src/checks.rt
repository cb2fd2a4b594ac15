// The tests of a sound ledger, of a lent ledger: its header, each bill, and that no identity stands twice.
ghost use Rattle.std.specs.Prelude.{◌≡◌, true, ◌&&◌, ◌≤◌, ◌<◌, leb, take};
ghost use Rattle.units.specs.Calendar.{is_date};
ghost use Rattle.rules.specs.Lists.{every};
ghost use Rattle.ledger.specs.Sound.{is_next, sound_bill, holds_id, distinct, sound_ledger};
ghost use Rattle.ledger.specs.Limits.{ledger_places};
ghost use Rattle.places.specs.parts.Slots.{slots, identity_slot};

use crate::holder::Holder;
use crate::place;
use ledger::{Identity, LedgerHeader, PLACES};

// How many slots there are, and by what a step of the account moves the slot: 10000, which is 329 past a multiple of the slots.
const SLOTS: u64 = 509;

const ACCOUNT_STEP: u64 = 329;

// Whether the header's date, numbers and count are in range.
pub fn good_header(h: LedgerHeader) -> bool
    ensures { result ≡ (is_date h.today.0 && is_next h.tracking && is_next h.confirmation && leb h.count ledger_places) }
{
    h.today.valid()
        & ledger::sound::is_next(h.tracking)
        & ledger::sound::is_next(h.confirmation)
        & (h.count <= PLACES)
}

// Whether each of the first n bills is sound.
pub fn good_bills<T: Holder>(lent: &[T], n: usize) -> bool
    requires { (T.holds lent.now ≡ true) × (n ≤ ledger_places) }
    ensures { result ≡ every sound_bill (take n (T.held lent.now).bills) }
{
    (0..n).all(|i| T::bill_at(lent, i).sound())
}

// The slot of an identity. By `as`, which is proved to keep it: an index has no `From`.
fn slot(id: Identity) -> usize
    ensures { (result ≡ identity_slot id) × (result < slots) }
{
    ((id.account % SLOTS * ACCOUNT_STEP + id.key % SLOTS) % SLOTS) as usize
}

// Whether an identity stands among the first n.
fn stands<T: Holder>(lent: &[T], n: usize, id: Identity) -> bool
    requires { (T.holds lent.now ≡ true) × (n ≤ ledger_places) }
    ensures { result ≡ holds_id id (take n (T.held lent.now).bills) }
{
    place::find(lent, n, id).is_some()
}

// The same, where its slot was met: no walk begins where it was not.
fn stands_if_met<T: Holder>(lent: &[T], n: usize, id: Identity, met: bool) -> bool
    requires { (T.holds lent.now ≡ true) × (n ≤ ledger_places) }
    ensures { result ≡ (met && holds_id id (take n (T.held lent.now).bills)) }
{
    met && stands(lent, n, id)
}

// Whether no identity stands twice among the first n, with no set of std's, which takes the heap that a rule of the project forbids. Equal identities
// have one slot, so a place is held against those before it only where one of them has its slot.
pub fn all_distinct<T: Holder>(lent: &[T], n: usize) -> bool
    requires { (T.holds lent.now ≡ true) × (n ≤ ledger_places) }
    ensures { result ≡ distinct (take n (T.held lent.now).bills) }
{
    // An array has a usize for its length, and SLOTS is a u64, as the numbers that it divides.
    let mut met = [false; SLOTS as usize];
    for i in 0..n {
        let id = T::identity_at(lent, i);
        let s = slot(id);
        let before = met[s];
        if stands_if_met(lent, i, id, before) {
            return false;
        }
        met[s] = true;
    }
    true
}

// Whether the slice holds a sound ledger: cause 2 where it does not. Words are tested as they stand: no ledger is made of them.
pub fn sound<T: Holder>(lent: &[T]) -> bool
    ensures { result ≡ sound_ledger (T.held lent.now) }
{
    if !T::fits(lent) {
        return false;
    }
    let h = T::header(lent);
    let n = h.count;
    if !good_header(h) {
        return false;
    }
    good_bills(lent, n) & all_distinct(lent, n)
}
