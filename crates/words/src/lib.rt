// A ledger as an array of 64-bit words: which words are those of a ledger, and a bill read from and written as the words of a place.
#![tactic(auto)]

ghost use Rattle.std.specs.Prelude.{◌≡◌, true, ◌+◌, ◌≤◌, ◌<◌, [], ◌∷◌, ◌++◌, length, drop};
ghost use Rattle.fields.specs.Put.{put};
ghost use Rattle.ledger.specs.Books.{empty_ledger};
ghost use Rattle.words.specs.Layout.{place_size, ledger_size, terms_words, latest_words, posted_words, bill_words, ledger_words, holds_code, holds_posted, holds_bill, holds_ledger, posted_in, code_in, latest_in, terms_in, bill_in, ledger_of};
ghost use Rattle.units.specs.Calendar.{date_of};

use ledger::{Bill, Identity, Latest, Posted, Product, RateCode, Terms};
use units::{Ccf, Cents, Date};

// How many words stand before the first place, how many a place has, how many places there are, and how many words a ledger has.
pub const HEADER_SIZE: usize = 4;

pub const PLACE_SIZE: usize = 20;

pub const LEDGER_SIZE: usize = 2564;

// ---- which words are those of a ledger
// Whether four words are bytes.
fn fits_code(first: u64, second: u64, tens: u64, ones: u64) -> bool
    ensures { result ≡ holds_code first second tens ones }
{
    (first < 256) & ((second < 256) & ((tens < 256) & (ones < 256)))
}

// Whether the kind is 0, 1 or 2, and the words that it does not use are 0. A number, here and of a product, since these are the words that C lends.
fn fits_posted(kind: u64, charge: u64, applied: u64, owed: u64) -> bool
    ensures { result ≡ holds_posted kind charge applied owed }
{
    ((kind == 0) & ((charge == 0) & ((applied == 0) & (owed == 0))))
        | (((kind == 1) & ((applied == 0) & (owed == 0))) | (kind == 2))
}

// Whether the words from index `at` on are those of a place.
fn fits_in(words: &[u64], at: usize) -> bool
    requires { at + place_size ≤ length words.now }
    ensures { result ≡ holds_bill (drop at words.now) }
{
    let w = &words[at..];
    let product = w[6];
    let code = fits_code(w[2], w[3], w[4], w[5]);
    let posted = fits_posted(w[15], w[16], w[17], w[18]);
    code & (((product == 66) | (product == 80)) & ((w[9] <= 1) & posted))
}

// Whether the words are those of a ledger.
pub fn fits(words: &[u64]) -> bool
    ensures { result ≡ holds_ledger words.now }
{
    if words.len() != LEDGER_SIZE {
        return false;
    }
    (0..ledger::PLACES).all(|i| fits_in(words, HEADER_SIZE + PLACE_SIZE * i))
}

// ---- the ledger whose words they are
// The posted amounts of a kind and its three words.
fn posted_in(kind: u64, charge: u64, applied: u64, owed: u64) -> Posted
    ensures { result ≡ posted_in kind charge applied owed }
{
    if kind == 2 {
        return Posted::Prepay {
            charge: Cents(charge),
            applied: Cents(applied),
            owed: Cents(owed),
        };
    }
    if kind == 1 {
        return Posted::BillReady(Cents(charge));
    }
    Posted::None
}

// What a bill has from its latest request, of a place's words. Two clauses stand at the three that read a place: a struct that holds the slice would hold the
// same two as ghost fields, and have one maker, for one caller.
fn latest_in(w: &[u64]) -> Latest
    requires { place_size ≤ length w.now }
    ensures { result ≡ latest_in w.now }
{
    Latest {
        tracking: w[10],
        consumption: Ccf(w[11]),
        billing: Date(w[12]),
        from: Date(w[13]),
        scheduled: Date(w[14]),
    }
}

// The rate code of a place's words. By `as`, which is proved to keep each: `try_from` would want an answer for words that no place holds.
fn code_in(w: &[u64]) -> RateCode
    requires has_place { place_size ≤ length w.now }
    requires holds { holds_bill w.now ≡ true }
    ensures { result ≡ code_in w.now }
{
    RateCode {
        first: w[2] as u8,
        second: w[3] as u8,
        tens: w[4] as u8,
        ones: w[5] as u8,
    }
}

// A bill but for its posted amounts, of a place's words.
fn terms_in(w: &[u64]) -> Terms
    requires has_place { place_size ≤ length w.now }
    requires holds { holds_bill w.now ≡ true }
    ensures { result ≡ terms_in w.now }
{
    let code = code_in(w);
    // by `as`, as in `code_in`
    let product = Product::from(w[6] as u8);
    let latest = latest_in(w);
    // 0 is none
    let removal = w[19];
    Terms {
        identity: Identity {
            account: w[0],
            key: w[1],
        },
        code,
        product,
        sequence: w[7],
        requests: w[8],
        cancelled: w[9] == 1,
        latest,
        removal: (removal != 0).then_some(Date(removal)),
    }
}

// The bill of the 20 words from index `at` on.
pub fn bill_in(words: &[u64], at: usize) -> Bill
    requires has_place { at + place_size ≤ length words.now }
    requires holds { holds_bill (drop at words.now) ≡ true }
    ensures { result ≡ bill_in (drop at words.now) }
{
    let w = &words[at..];
    let terms = terms_in(w);
    let posted = posted_in(w[15], w[16], w[17], w[18]);
    Bill { terms, posted }
}

// ---- a ledger's words
// Words 15 to 19 of a place.
fn last_words(p: Posted, removal: u64) -> [u64; 5]
    ensures { result ≡ posted_words p ++ (removal ∷ []) }
{
    match p {
        Posted::None => [0, 0, 0, 0, removal],
        Posted::BillReady(charge) => [1, charge.0, 0, 0, removal],
        Posted::Prepay {
            charge,
            applied,
            owed,
        } => [2, charge.0, applied.0, owed.0, removal],
    }
}

// Words 10 to 14 of a place.
fn latest_words(r: Latest) -> [u64; 5]
    ensures { result ≡ latest_words r }
{
    [
        r.tracking,
        r.consumption.0,
        r.billing.0,
        r.from.0,
        r.scheduled.0,
    ]
}

// Words 0 to 9 of a place.
fn terms_words(t: Terms) -> [u64; 10]
    ensures { result ≡ terms_words t }
{
    [
        t.identity.account,
        t.identity.key,
        u64::from(t.code.first),
        u64::from(t.code.second),
        u64::from(t.code.tens),
        u64::from(t.code.ones),
        u64::from(u8::from(t.product)),
        t.sequence,
        t.requests,
        u64::from(t.cancelled),
    ]
}

// Writes a place's 20 words into words from index `at` on.
pub fn put_bill(words: &mut [u64], at: usize, b: Bill)
    requires { at + place_size ≤ length words.old }
    ensures { words.new ≡ put words.old at (bill_words b) }
{
    // word 19 is 0 where there is no removal date
    let removal = b.terms.removal.map_or(0, |d| d.0);
    words[at..at + 10].copy_from_slice(&terms_words(b.terms));
    words[at + 10..at + 15].copy_from_slice(&latest_words(b.terms.latest));
    words[at + 15..at + PLACE_SIZE].copy_from_slice(&last_words(b.posted, removal));
}

// Writes the words of a ledger with no bills, which read back as that ledger; none is made.
pub fn write_empty(words: &mut [u64], today: u64, tracking: u64, confirmation: u64)
    requires { length words.old ≡ ledger_size }
    ensures written { words.new ≡ ledger_words (empty_ledger (date_of today) tracking confirmation) }
    ensures read_back { ledger_of words.new ≡ empty_ledger (date_of today) tracking confirmation }
{
    words[0] = today;
    words[1] = tracking;
    words[2] = confirmation;
    words[3] = 0;
    for i in 0..ledger::PLACES {
        let blank = Bill::blank();
        put_bill(words, HEADER_SIZE + PLACE_SIZE * i, blank);
    }
}
