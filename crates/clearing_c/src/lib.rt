// The calls for C and Rust programs: numbers and lent slices only, the ledger lent as 2,564 words (crate words). include/clearing.h is the
// header. Each answers 0 if it was carried out, else the number of its cause, and then every lent buffer holds what it held (but for what
// clearing_entry found of the entry). No struct crosses the C interface, so functions alike in what they take name each number again.
#![tactic(auto)]

pub mod days;
pub mod journals;

ghost use Rattle.std.specs.Prelude.{◌≡◌, length};
ghost use Rattle.fields.specs.Put.{put};
ghost use Rattle.words.specs.Layout.{ledger_of};
ghost use Rattle.causes.specs.Causes.{request, calendar, file, cancel, close, removal};
ghost use Rattle.calls.specs.Machine.{step_in, called};
ghost use Rattle.lookups.specs.Lookups.{open_in, amounts_in};
ghost use Rattle.journal.specs.Entries.{head_of};
ghost use Rattle.boundary.specs.Boundary.{start_of, identity_from, removal_from, request_of, calendar_of, fresh_in, Gives, head_called, head_written, head_found, number_of, number_left, amounts_left, Prints};
ghost use Rattle.units.specs.Calendar.{date_of};

use causes::{AccountRemoval, CalendarRequest, Request, Start};
use journal::{Body, Head};
use ledger::Identity;
use rules::Cause;
use units::{Ccf, Date};

// Stores a number that was found, and gives the number of the answer. Casts here and in `journals` lose nothing: a usize is no more than a u64, as in boundary.
// `clearing_amounts` and `store_result` make an array of what was found, and boundary's `give` fills two places of one answer, so each keeps a `match` of its own.
fn store_number(place: &mut u64, found: Result<u64, Cause>) -> u64
    ensures answer { result ≡ number_of found }
    ensures stored { place.new ≡ number_left place.old found }
{
    match found {
        Ok(n) => {
            *place = n;
            0
        }
        Err(cause) => u64::from(cause),
    }
}

// Fresh.
pub fn clearing_fresh(
    ledger: &mut [u64],
    today: u64,
    tracking: u64,
    confirmation: u64,
    change: &mut i64,
    counts: &mut [u64; 4],
) -> u64
    ensures { Gives (fresh_in ledger.old (start_of today tracking confirmation)) ledger.old change.old counts.old ledger.new change.new counts.new result }
{
    let start = Start {
        today: Date(today),
        tracking,
        confirmation,
    };
    boundary::call(ledger, &mut [], change, counts, Body::Fresh(start), b"")
}

// Close of day.
pub fn clearing_close(
    ledger: &mut [u64],
    today: u64,
    change: &mut i64,
    counts: &mut [u64; 4],
) -> u64
    ensures { Gives (called (ledger_of ledger.old) (close (date_of today))) ledger.old change.old counts.old ledger.new change.new counts.new result }
{
    boundary::call(
        ledger,
        &mut [],
        change,
        counts,
        Body::Close(Date(today)),
        b"",
    )
}

// Removal: the removal date of all bills of an account.
pub fn clearing_removal(
    ledger: &mut [u64],
    account: u64,
    date: u64,
    change: &mut i64,
    counts: &mut [u64; 4],
) -> u64
    ensures { Gives (called (ledger_of ledger.old) (removal (removal_from account date))) ledger.old change.old counts.old ledger.new change.new counts.new result }
{
    let a = AccountRemoval {
        account,
        date: Date(date),
    };
    boundary::call(ledger, &mut [], change, counts, Body::Removal(a), b"")
}

// What a request takes, from numbers.
fn request_of(
    code: &[u8; 5],
    account: u64,
    key: u64,
    product: u8,
    billing: u64,
    from: u64,
    consumption: u64,
    scheduled: u64,
) -> Request
    ensures { result ≡ request_of code.now (identity_from account key) product billing from consumption scheduled }
{
    Request {
        code: causes::code_field(code),
        identity: Identity { account, key },
        product,
        billing: Date(billing),
        from: Date(from),
        consumption: Ccf(consumption),
        scheduled: Date(scheduled),
    }
}

// Request: the rate code in five bytes, the product as B or P.
pub fn clearing_request(
    ledger: &mut [u64],
    code: &[u8; 5],
    account: u64,
    key: u64,
    product: u8,
    billing: u64,
    from: u64,
    consumption: u64,
    scheduled: u64,
    out: &mut [u8],
    change: &mut i64,
    counts: &mut [u64; 4],
) -> u64
    ensures gives { Gives (called (ledger_of ledger.old) (request (request_of code.now (identity_from account key) product billing from consumption scheduled) (length out.old))) ledger.old change.old counts.old ledger.new change.new counts.new result }
    ensures written { out.new ≡ put out.old 0 (step_in (ledger_of ledger.old) (request (request_of code.now (identity_from account key) product billing from consumption scheduled) (length out.old))).written }
{
    let r = request_of(
        code,
        account,
        key,
        product,
        billing,
        from,
        consumption,
        scheduled,
    );
    boundary::call(ledger, out, change, counts, Body::Request(r), b"")
}

// Request whose Scheduled Date is so many business days from today.
pub fn clearing_request_by_calendar(
    ledger: &mut [u64],
    code: &[u8; 5],
    account: u64,
    key: u64,
    product: u8,
    billing: u64,
    from: u64,
    consumption: u64,
    number: u64,
    holidays: &[u64],
    out: &mut [u8],
    change: &mut i64,
    counts: &mut [u64; 4],
) -> u64
    ensures gives { Gives (called (ledger_of ledger.old) (calendar (calendar_of code.now (identity_from account key) product billing from consumption number) holidays.now (length out.old))) ledger.old change.old counts.old ledger.new change.new counts.new result }
    ensures written { out.new ≡ put out.old 0 (step_in (ledger_of ledger.old) (calendar (calendar_of code.now (identity_from account key) product billing from consumption number) holidays.now (length out.old))).written }
{
    let request = request_of(code, account, key, product, billing, from, consumption, 0);
    let q = CalendarRequest { request, number };
    boundary::call_by_calendar(ledger, out, change, counts, q, holidays)
}

// A supplier file: its answers go to out.
pub fn clearing_file(
    ledger: &mut [u64],
    s: &[u8],
    out: &mut [u8],
    change: &mut i64,
    counts: &mut [u64; 4],
) -> u64
    ensures gives { Gives (called (ledger_of ledger.old) (file s.now (length out.old))) ledger.old change.old counts.old ledger.new change.new counts.new result }
    ensures written { out.new ≡ put out.old 0 (step_in (ledger_of ledger.old) (file s.now (length out.old))).written }
{
    boundary::call(ledger, out, change, counts, Body::File, s)
}

// Cancel.
pub fn clearing_cancel(
    ledger: &mut [u64],
    account: u64,
    key: u64,
    out: &mut [u8],
    change: &mut i64,
    counts: &mut [u64; 4],
) -> u64
    ensures gives { Gives (called (ledger_of ledger.old) (cancel (identity_from account key) (length out.old))) ledger.old change.old counts.old ledger.new change.new counts.new result }
    ensures written { out.new ≡ put out.old 0 (step_in (ledger_of ledger.old) (cancel (identity_from account key) (length out.old))).written }
{
    let id = Identity { account, key };
    boundary::call(ledger, out, change, counts, Body::Cancel(id), b"")
}

// Lookup: the place of the open bill of an account that is due first; of equals it is the one first requested.
pub fn clearing_open_bill(ledger: &[u64], account: u64, place: &mut u64) -> u64
    ensures answer { result ≡ number_of (open_in (ledger_of ledger.now) account) }
    ensures stored { place.new ≡ number_left place.old (open_in (ledger_of ledger.now) account) }
{
    let found = lookups::open_bill_of(ledger, account);
    store_number(place, found.map(|p| p as u64))
}

// Lookup: charge, applied and owed of one bill.
pub fn clearing_amounts(ledger: &[u64], account: u64, key: u64, amounts: &mut [u64; 3]) -> u64
    ensures answer { result ≡ number_of (amounts_in (ledger_of ledger.now) (identity_from account key)) }
    ensures stored { amounts.new ≡ amounts_left amounts.old (amounts_in (ledger_of ledger.now) (identity_from account key)) }
{
    let found = lookups::amounts_of(ledger, Identity { account, key });
    match found {
        Ok(a) => {
            let all = [a.charge.0, a.applied.0, a.owed.0];
            *amounts = all;
            0
        }
        Err(cause) => u64::from(cause),
    }
}

// The posted table of a ledger, without a line after a bad entry; written are its bytes.
pub fn clearing_ledger_table(ledger: &[u64], out: &mut [u8], written: &mut u64) -> u64
    ensures { Prints (ledger_of ledger.now) out.old written.old out.new written.new result }
{
    let p = table::print(out, ledger, false);
    store_number(written, p.map(|n| n as u64))
}

// The journal entry at the start of some bytes, before which so many entries came; found are its bytes, 0 where no whole good one stands there
// (13), and 1 if it is cut short, else 0.
pub fn clearing_entry(
    ledger: &mut [u64],
    journal: &[u8],
    seen: u64,
    out: &mut [u8],
    change: &mut i64,
    counts: &mut [u64; 4],
    found: &mut [u64; 2],
) -> u64
    ensures gives { Gives (head_called (length out.old) ledger.old journal.now (head_of seen journal.now)) ledger.old change.old counts.old ledger.new change.new counts.new result }
    ensures written { out.new ≡ put out.old 0 (head_written (length out.old) ledger.old journal.now (head_of seen journal.now)) }
    ensures told { found.new ≡ head_found (head_of seen journal.now) }
{
    let h = journal::head_at(journal, seen);
    let no_entry = u64::from(Cause::BadEntry);
    match h {
        Head::Cut => {
            *found = [0, 1];
            no_entry
        }
        Head::Bad => {
            *found = [0, 0];
            no_entry
        }
        Head::Whole(body, n) => {
            *found = [n as u64, 0];
            boundary::call(ledger, out, change, counts, body, &journal[3..n])
        }
    }
}
