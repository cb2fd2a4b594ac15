// One bill: its rate code written, what its amounts count for, its state, and how a request, a posting, a cancel and a
// removal change it.
ghost use Rattle.std.specs.Prelude.{◌≡◌, ◌+◌, ◌<◌, ◌≤◌, length};
ghost use Rattle.fields.specs.Put.{put};
ghost use Rattle.ledger.specs.Bills.{code_bytes, is_prepay, product_byte, product_of, charge_of, applied_of, owed_of, is_open, state_of, blank_bill, first_bill, renewed, posting, cancelled_bill, is_of_account, removed_terms, removed_bill};
ghost use Rattle.ledger.specs.Books.{removed_of};
ghost use Rattle.ledger.specs.Limits.{last_sequence};

use crate::{Bill, Identity, Latest, Posted, Product, RateCode, State, Terms};
use units::{Ccf, Cents, Date};

// The five bytes of a rate code.
impl From<RateCode> for [u8; 5] {
    ghost from_gives = { λ c xs. xs ≡ code_bytes c };

    fn from(c: RateCode) -> [u8; 5] {
        [c.first, c.second, b'C', c.tens, c.ones]
    }
}

// Writes a rate code.
pub fn put_code(out: &mut [u8], at: usize, c: RateCode)
    requires { at + 5 ≤ length out.old }
    ensures { out.new ≡ put out.old at (code_bytes c) }
{
    fields::put_bytes(out, at, &<[u8; 5]>::from(c));
}

impl Product {
    pub fn is_prepay(self) -> bool
        ensures { result ≡ is_prepay self }
    {
        match self {
            Product::BillReady => false,
            Product::Prepay => true,
        }
    }
}

// B or P.
impl From<Product> for u8 {
    ghost from_gives = { λ p x. x ≡ product_byte p };

    fn from(p: Product) -> u8 {
        match p {
            Product::BillReady => b'B',
            Product::Prepay => b'P',
        }
    }
}

// The product of a byte: no refusal, since whoever reads one has asked before whether it is B or P.
impl From<u8> for Product {
    ghost from_gives = { λ x p. p ≡ product_of x };

    fn from(x: u8) -> Product {
        if x == b'P' {
            Product::Prepay
        } else {
            Product::BillReady
        }
    }
}

impl Posted {
    pub fn charge(self) -> Cents
        ensures { result ≡ charge_of self }
    {
        match self {
            Posted::None => Cents(0),
            Posted::BillReady(charge) => charge,
            Posted::Prepay { charge, .. } => charge,
        }
    }

    pub fn applied(self) -> Cents
        ensures { result ≡ applied_of self }
    {
        match self {
            Posted::None => Cents(0),
            Posted::BillReady(_) => Cents(0),
            Posted::Prepay { applied, .. } => applied,
        }
    }

    pub fn owed(self) -> Cents
        ensures { result ≡ owed_of self }
    {
        match self {
            Posted::None => Cents(0),
            Posted::BillReady(charge) => charge,
            Posted::Prepay { owed, .. } => owed,
        }
    }
}

impl Terms {
    // It compares one field, so the equality of two identities can't stand for it.
    pub fn is_of_account(self, account: u64) -> bool
        ensures { result ≡ is_of_account account self }
    {
        self.identity.account == account
    }

    pub fn is_open(self, today: Date) -> bool
        ensures { result ≡ is_open today self }
    {
        !self.cancelled & (today <= self.latest.scheduled)
    }

    pub fn state(self, today: Date) -> State
        ensures { result ≡ state_of today self }
    {
        if self.cancelled {
            return State::Cancelled;
        }
        if self.is_open(today) {
            return State::Open;
        }
        State::Issued
    }

    // The terms with this removal date in the place of any earlier one.
    fn removed(mut self, date: Date) -> Terms
        ensures { result ≡ removed_terms date self }
    {
        self.removal = Some(date);
        self
    }
}

impl Bill {
    // What stands in a place that no bill was put in yet.
    pub fn blank() -> Bill
        ensures { result ≡ blank_bill }
    {
        let zero = Date(0);
        Bill {
            terms: Terms {
                identity: Identity { account: 0, key: 0 },
                code: RateCode {
                    first: 0,
                    second: 0,
                    tens: 0,
                    ones: 0,
                },
                product: Product::BillReady,
                sequence: 0,
                requests: 0,
                cancelled: false,
                latest: Latest {
                    tracking: 0,
                    consumption: Ccf(0),
                    billing: zero,
                    from: zero,
                    scheduled: zero,
                },
                removal: None,
            },
            posted: Posted::None,
        }
    }

    // The bill of a new identity.
    pub fn first(identity: Identity, code: RateCode, product: Product, latest: Latest) -> Bill
        ensures { result ≡ first_bill identity code product latest }
    {
        Bill {
            terms: Terms {
                identity,
                code,
                product,
                sequence: 1,
                requests: 1,
                cancelled: false,
                latest,
                removal: None,
            },
            posted: Posted::None,
        }
    }

    // The bill after another request.
    pub fn request(mut self, latest: Latest) -> Bill
        requires { (self.terms.requests ≤ self.terms.sequence) × (self.terms.sequence < last_sequence) }
        ensures { result ≡ renewed latest self }
    {
        self.terms.sequence += 1;
        self.terms.requests += 1;
        self.terms.latest = latest;
        self
    }

    // The bill with these amounts in the place of the posted ones; a SUP raises the sequence too.
    pub fn post(mut self, amounts: Posted, sup: bool) -> Bill
        requires { self.terms.sequence ≤ last_sequence }
        ensures { result ≡ posting amounts sup self }
    {
        if sup {
            self.terms.sequence += 1;
        }
        self.posted = amounts;
        self
    }

    // The bill marked as cancelled, with no posted amounts.
    pub fn cancel(mut self) -> Bill
        ensures { result ≡ cancelled_bill self }
    {
        self.terms.cancelled = true;
        self.posted = Posted::None;
        self
    }

    // The bill with this removal date in the place of any earlier one.
    fn remove(mut self, date: Date) -> Bill
        ensures { result ≡ removed_bill date self }
    {
        self.terms = self.terms.removed(date);
        self
    }

    // The same if it is of this account; else the bill as it is.
    pub fn remove_if_of(self, account: u64, date: Date) -> Bill
        ensures { result ≡ removed_of account date self }
    {
        if self.terms.is_of_account(account) {
            return self.remove(date);
        }
        self
    }
}
