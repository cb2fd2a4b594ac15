// What a request and a cancel leave of the bill at their place. That a header's numbers are not past the last is asked by a clause: a type of such headers would
// have to ask it where one is made, at the same calls, since a ledger holds any number.
ghost use Rattle.std.specs.Prelude.{◌≡◌, ◌≤◌};
ghost use Rattle.rules.specs.Rules.{first};
ghost use Rattle.causes.specs.Requests.{latest_of, new_bill};
ghost use Rattle.causes.specs.parts.Decisions.{SoundAt, CanRenew, requested_by, grown, used_by, call_identity, causes_by, decided_by, ChangeFits, change_by};
ghost use Rattle.ledger.specs.Limits.{ledger_places, used_up};

use causes::{BillCall, Request, checks};
use ledger::{Bill, Identity, Latest, LedgerHeader, Product, RateCode, Update};
use rules::Cause;
use units::Cents;

// A header, the place that was found and the bill there go side by side below: the definitions take the three, and a struct would be taken apart in each function.

// What a bill has from a request that takes this Tracking ID.
fn latest_of(r: Request, tracking: u64) -> Latest
    ensures { result ≡ latest_of r tracking }
{
    Latest {
        tracking,
        consumption: r.consumption,
        billing: r.billing,
        from: r.from,
        scheduled: r.scheduled,
    }
}

// The bill of a new identity.
fn new_bill(r: Request, tracking: u64) -> Bill
    ensures { result ≡ new_bill r tracking }
{
    Bill::first(
        r.identity,
        RateCode::from(r.code),
        Product::from(r.product),
        latest_of(r, tracking),
    )
}

// The bill as a request leaves it: a new one, or a known one with the new values.
fn requested(r: Request, tracking: u64, f: Option<usize>, b: Bill) -> Bill
    requires { CanRenew f b }
    ensures { result ≡ requested_by r tracking f b }
{
    match f {
        None => new_bill(r, tracking),
        Some(_) => b.request(latest_of(r, tracking)),
    }
}

// One bill more, where none was found.
fn grown(f: Option<usize>, n: usize) -> usize
    requires { n ≤ ledger_places }
    ensures { result ≡ grown f n }
{
    if f.is_none() { n + 1 } else { n }
}

// One of each number used, with so many bills.
fn use_numbers(h: LedgerHeader, n: usize) -> LedgerHeader
    requires { (h.tracking ≤ used_up) × (h.confirmation ≤ used_up) }
    ensures { result ≡ used_by h n }
{
    LedgerHeader {
        tracking: h.tracking + 1,
        confirmation: h.confirmation + 1,
        count: n,
        ..h
    }
}

// Whose bill a request or a cancel is about.
pub fn call_identity(c: BillCall) -> Identity
    ensures { result ≡ call_identity c }
{
    match c {
        BillCall::Request(r) => r.identity,
        BillCall::Cancel(id) => id,
    }
}

// The first cause against a request or a cancel, where b stands at the place that was found.
fn first_cause(
    c: BillCall,
    room: usize,
    h: LedgerHeader,
    f: Option<usize>,
    b: Bill,
) -> Result<(), Cause>
    requires { (h.tracking ≤ used_up) × (h.confirmation ≤ used_up) }
    ensures { result ≡ first (causes_by c room h f b) }
{
    let sought = group::sought_by(f, b);
    match c {
        BillCall::Request(r) => checks::request_check(r, room, h, sought),
        BillCall::Cancel(id) => {
            checks::cancel_check(id, room, h.tracking, h.confirmation, sought)
        }
    }
}

// The header and the bill that a request or a cancel leaves, or the first cause against it, where b stands at the place that was found.
pub fn decide(
    c: BillCall,
    room: usize,
    h: LedgerHeader,
    f: Option<usize>,
    b: Bill,
) -> Result<Update, Cause>
    requires numbers { (h.tracking ≤ used_up) × (h.confirmation ≤ used_up) × (h.count ≤ ledger_places) }
    requires sound_at { SoundAt f b }
    ensures { result ≡ decided_by (first (causes_by c room h f b)) c h f b }
{
    first_cause(c, room, h, f, b)?;
    match c {
        BillCall::Request(r) => Ok(Update {
            header: use_numbers(h, grown(f, h.count)),
            bill: requested(r, h.tracking, f, b),
        }),
        BillCall::Cancel(_) => Ok(Update {
            header: use_numbers(h, h.count),
            bill: b.cancel(),
        }),
    }
}

// The signed change that a request or a cancel makes, where b stood at its place.
pub fn change_of(c: BillCall, b: Bill) -> i64
    requires { ChangeFits c b }
    ensures { result ≡ change_by c b }
{
    match c {
        BillCall::Request(_) => 0,
        BillCall::Cancel(_) => ledger::books::signed_change(Cents(0), b.posted.charge()),
    }
}
