// When the parts of a ledger are sound. The tests are strict (`&`), in the order of the definition.
ghost use Rattle.std.specs.Prelude.{◌≡◌};
ghost use Rattle.ledger.specs.Bills.{is_letter, is_rate_code, code_bytes};
ghost use Rattle.ledger.specs.Sound.{is_next, sound_removal, sound_terms, balanced, sound_amounts, sound_bill};

use crate::{Bill, Posted, RateCode, Terms};
use units::{Cents, Date};

fn is_letter(x: u8) -> bool
    ensures { result ≡ is_letter x }
{
    x.is_ascii_uppercase()
}

impl RateCode {
    // Two letters or digits, and two digits. A test and no `TryFrom`: words that are not a sound ledger's hold codes that are none.
    pub fn valid(self) -> bool
        ensures { result ≡ is_rate_code (code_bytes self) }
    {
        (is_letter(self.first) | fields::is_digit(self.first))
            & (is_letter(self.second) | fields::is_digit(self.second))
            & fields::is_digit(self.tens)
            & fields::is_digit(self.ones)
    }
}

// Whether n is a next number, or the one past the last.
pub fn is_next(n: u64) -> bool
    ensures { result ≡ is_next n }
{
    (1 <= n) & (n <= crate::USED_UP)
}

// Whether a removal date is empty or a date.
pub fn is_sound_removal(removal: Option<Date>) -> bool
    ensures { result ≡ sound_removal removal }
{
    removal.is_none_or(|d| d.valid())
}

impl Terms {
    // Whether every field but the posted amounts is in its width and range.
    pub fn sound(self) -> bool
        ensures { result ≡ sound_terms self }
    {
        let id = self.identity;
        let latest = self.latest;
        (id.account < crate::ACCOUNT_END)
            & (id.key < crate::KEY_END)
            & self.code.valid()
            & (1 <= self.requests)
            & (self.requests <= self.sequence)
            & (self.sequence <= crate::LAST_SEQUENCE)
            & (1 <= latest.tracking)
            & (latest.tracking <= crate::LAST_NUMBER)
            & latest.consumption.fits()
            & latest.billing.valid()
            & latest.from.valid()
            & latest.scheduled.valid()
            & is_sound_removal(self.removal)
    }
}

// Whether three amounts are in their width, and applied plus owed is the charge.
fn is_balanced(charge: Cents, applied: Cents, owed: Cents) -> bool
    ensures { result ≡ balanced charge applied owed }
{
    (charge.fits() & applied.fits() & owed.fits()) && applied + owed == charge
}

impl Posted {
    // Whether the amounts fit the bill that they are posted to.
    pub fn sound(self, t: Terms) -> bool
        ensures { result ≡ sound_amounts t self }
    {
        match self {
            Posted::None => true,
            Posted::BillReady(charge) => !t.cancelled & !t.product.is_prepay() & charge.fits(),
            Posted::Prepay {
                charge,
                applied,
                owed,
            } => !t.cancelled & t.product.is_prepay() & is_balanced(charge, applied, owed),
        }
    }
}

impl Bill {
    pub fn sound(self) -> bool
        ensures { result ≡ sound_bill self }
    {
        self.terms.sound() & self.posted.sound(self.terms)
    }
}
