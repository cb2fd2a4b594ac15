// What a ledger is lent as: a slice of 2,564 words, or of one `Ledger`. The calls ask this of the slice's elements, whichever they are.
ghost use Rattle.std.specs.Prelude.{◌≡◌, true, Bool, List, Option, ◌<◌, length};
ghost use Rattle.units.specs.declared.Date as date;
ghost use Rattle.ledger.specs.declared.Ledger as ledger_type;
ghost use Rattle.ledger.specs.Books.{empty_ledger};
ghost use Rattle.ledger.specs.parts.Places.{header_of, bill_at, with_header, replaced};
ghost use Rattle.ledger.specs.Sound.{sound_ledger};
ghost use Rattle.ledger.specs.Limits.{ledger_places};
ghost use Rattle.words.specs.Layout.{removal_said};

use ledger::{Bill, Identity, LedgerHeader};
use units::Date;

pub trait Holder {
    // Whether a slice of these has the size of a ledger; whether it holds one; the ledger that it holds, one that is not sound where it holds
    // none; and the removal dates that it can hold.
    ghost sized: { List Self → Bool };

    ghost holds: { List Self → Bool };

    ghost held: { List Self → ledger_type.Ledger };

    ghost takes: { Option date.Date → Bool };

    // Whether the slice holds a ledger, sound or not.
    fn fits(lent: &[Self]) -> bool
        ensures { result ≡ holds lent.now };

    // What the ledger holds besides its bills.
    fn header(lent: &[Self]) -> LedgerHeader
        requires { holds lent.now ≡ true }
        ensures { result ≡ header_of (held lent.now) };

    // The bill at place p.
    fn bill_at(lent: &[Self], p: usize) -> Bill
        requires { (holds lent.now ≡ true) × (p < ledger_places) }
        ensures { result ≡ bill_at (held lent.now) p };

    // Its identity.
    fn identity_at(lent: &[Self], p: usize) -> Identity
        requires { (holds lent.now ≡ true) × (p < ledger_places) }
        ensures { result ≡ (bill_at (held lent.now) p).terms.identity };

    // Stores a header.
    fn put_header(lent: &mut [Self], h: LedgerHeader)
        requires { holds lent.old ≡ true }
        ensures { (holds lent.new ≡ true) × (held lent.new ≡ with_header (held lent.old) h) };

    // Stores a bill at place p.
    fn put_bill(lent: &mut [Self], p: usize, b: Bill)
        requires { (holds lent.old ≡ true) × (p < ledger_places) × (takes b.terms.removal ≡ true) }
        ensures { (holds lent.new ≡ true) × (held lent.new ≡ replaced (held lent.old) p b) };

    // Writes a ledger with no bills, whatever stood there.
    fn put_empty(lent: &mut [Self], today: Date, tracking: u64, confirmation: u64)
        requires { sized lent.old ≡ true }
        ensures { (holds lent.new ≡ true) × (held lent.new ≡ empty_ledger today tracking confirmation) };

    ghost places: { (xs : List Self) → holds xs ≡ true → length (held xs).bills ≡ ledger_places };

    ghost sound_holds: { (xs : List Self) → sound_ledger (held xs) ≡ true → holds xs ≡ true };

    ghost takes_read: { (xs : List Self) → holds xs ≡ true → (p : _) → p < ledger_places → takes (bill_at (held xs) p).terms.removal ≡ true };

    ghost takes_said: { (r : Option date.Date) → removal_said r ≡ true → takes r ≡ true };
}
