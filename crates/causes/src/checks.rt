// The first cause against each call, on small values. (That the ledger is sound is asked by who holds it.)
ghost use Rattle.std.specs.Prelude.{◌≡◌, cond, ◌≤◌};
ghost use Rattle.fields.specs.Put.{same_list};
ghost use Rattle.rules.specs.Lists.{all};
ghost use Rattle.ledger.specs.Bills.{is_rate_code, code_bytes};
ghost use Rattle.rules.specs.Rules.{first};
ghost use Rattle.causes.specs.Causes.{is_number, good_identity, five_of, is_product, undated_tests, request_tests, lacks, fresh_causes, bill_causes, request_causes, file_causes, cancel_causes, close_causes, good_removal, removal_causes};
ghost use Rattle.causes.specs.Requests.{closes};
ghost use Rattle.ledger.specs.Limits.{used_up};
ghost use Rattle.records.specs.Limits.{file_records};

use crate::{AccountRemoval, CodeField, Request, Start};
use ledger::{Bill, Identity, LedgerHeader, RateCode, Terms};
use rules::Cause;
use units::Date;

// Whether t Tracking IDs and c Confirmation Numbers are more than are left.
pub fn lacks(tracking: u64, confirmation: u64, t: u64, c: u64) -> bool
    requires { (tracking ≤ used_up) × (confirmation ≤ used_up) × (t ≤ file_records) × (c ≤ file_records) }
    ensures { result ≡ lacks tracking confirmation t c }
{
    (ledger::USED_UP < tracking + t) | (ledger::USED_UP < confirmation + c)
}

// Whether account and Bill Key are in their widths.
pub fn good_identity(id: Identity) -> bool
    ensures { result ≡ good_identity id }
{
    (id.account < ledger::ACCOUNT_END) & (id.key < ledger::KEY_END)
}

// Whether five bytes hold a rate code.
fn good_code(x: CodeField) -> bool
    ensures { result ≡ is_rate_code (five_of x) }
{
    RateCode::from(x).valid() & (x.third == 67)
}

// Whether five bytes hold this rate code.
fn same_code(x: CodeField, c: RateCode) -> bool
    ensures { result ≡ same_list (five_of x) (code_bytes c) }
{
    x == CodeField::from(c)
}

fn good_product(x: u8) -> bool
    ensures { result ≡ is_product x }
{
    (x == b'B') | (x == b'P')
}

// Whether every argument but the Scheduled Date is in its width and range.
pub fn good_undated(r: Request) -> bool
    ensures { result ≡ all (undated_tests r) }
{
    let code = r.code;
    let id = r.identity;
    let billing = r.billing;
    let from = r.from;
    let consumption = r.consumption;
    good_code(code)
        & good_identity(id)
        & good_product(r.product)
        & billing.valid()
        & from.valid()
        & consumption.fits()
}

// Whether every argument is in its width and range.
pub fn good_request(r: Request) -> bool
    ensures { result ≡ all (request_tests r) }
{
    let scheduled = r.scheduled;
    good_undated(r) & scheduled.valid()
}

// The causes against a request for a known bill, or for a new one where so many bills are held.
fn bill_check(r: Request, held: usize, b: Option<Terms>) -> Result<(), Cause>
    ensures { result ≡ first (bill_causes r held b) }
{
    let Some(t) = b else {
        if ledger::PLACES <= held {
            return Err(Cause::LedgerFull);
        }
        return Ok(());
    };
    let cancelled = t.cancelled;
    if cancelled {
        return Err(Cause::BillCancelled);
    }
    let code = r.code;
    let product = t.product;
    if !(same_code(code, t.code) & (r.product == u8::from(product))) {
        return Err(Cause::OtherCodeOrProduct);
    }
    let consumption = r.consumption;
    if consumption == t.latest.consumption {
        return Err(Cause::ConsumptionUnchanged);
    }
    if t.sequence == ledger::LAST_SEQUENCE {
        return Err(Cause::SequenceUsedUp);
    }
    Ok(())
}

// The first cause against a request of a sound ledger. (The bounds of its two next numbers are a clause here and in decisions, and no field of LedgerHeader: places
// `Holder::header` gives the header of a ledger that is not sound too.)
pub fn request_check(
    r: Request,
    room: usize,
    h: LedgerHeader,
    b: Option<Terms>,
) -> Result<(), Cause>
    requires { (h.tracking ≤ used_up) × (h.confirmation ≤ used_up) }
    ensures { result ≡ first (request_causes r room h.today h.tracking h.confirmation h.count b) }
{
    if !good_request(r) {
        return Err(Cause::BadArgument);
    }
    if room < records::NOTICE_SIZE {
        return Err(Cause::OutputTooSmall);
    }
    let scheduled = r.scheduled;
    let today = h.today;
    if scheduled < today {
        return Err(Cause::ScheduledBeforeToday);
    }
    bill_check(r, h.count, b)?;
    if lacks(h.tracking, h.confirmation, 1, 1) {
        return Err(Cause::TooFewNumbers);
    }
    Ok(())
}

// The first cause against a cancel of a sound ledger.
pub fn cancel_check(
    id: Identity,
    room: usize,
    tracking: u64,
    confirmation: u64,
    b: Option<Terms>,
) -> Result<(), Cause>
    requires { (tracking ≤ used_up) × (confirmation ≤ used_up) }
    ensures { result ≡ first (cancel_causes id room tracking confirmation b) }
{
    if !good_identity(id) {
        return Err(Cause::BadArgument);
    }
    if room < records::NOTICE_SIZE {
        return Err(Cause::OutputTooSmall);
    }
    let Some(t) = b else {
        return Err(Cause::NoSuchBill);
    };
    let cancelled = t.cancelled;
    if cancelled {
        return Err(Cause::BillCancelled);
    }
    if lacks(tracking, confirmation, 1, 1) {
        return Err(Cause::TooFewNumbers);
    }
    Ok(())
}

// Causes 11, 1 and 12 of a file: room is the length of the output lent for its answers.
pub fn file_check(s: &[u8], room: usize, tracking: u64, confirmation: u64) -> Result<(), Cause>
    requires { (tracking ≤ used_up) × (confirmation ≤ used_up) }
    ensures { result ≡ first (file_causes s.now room tracking confirmation) }
{
    if !file::good_file(s) {
        return Err(Cause::BadFile);
    }
    let len = s.len();
    if room < len {
        return Err(Cause::OutputTooSmall);
    }
    let needs = file::count_groups(s, len / records::RECORD_SIZE);
    // Rust has no `From` of a usize for u64: the casts lose nothing.
    if lacks(
        tracking,
        confirmation,
        needs.ids as u64,
        needs.groups as u64,
    ) {
        return Err(Cause::TooFewNumbers);
    }
    Ok(())
}

// Whether n is a next number that fresh takes.
fn is_number(n: u64) -> bool
    ensures { result ≡ is_number n }
{
    (1 <= n) & (n <= ledger::LAST_NUMBER)
}

// The cause against a fresh, if there is one.
pub fn fresh_check(s: Start) -> Result<(), Cause>
    ensures { result ≡ first (fresh_causes s) }
{
    let today = s.today;
    if today.valid() & is_number(s.tracking) & is_number(s.confirmation) {
        return Ok(());
    }
    Err(Cause::BadArgument)
}

// The cause against a close of day, if there is one.
pub fn close_check(d: Date, today: Date) -> Result<(), Cause>
    ensures { result ≡ first (close_causes d today) }
{
    if !d.valid() {
        return Err(Cause::BadArgument);
    }
    if d <= today {
        return Err(Cause::NotAfterToday);
    }
    Ok(())
}

// Whether the account is in its width and the date is one.
fn good_removal(a: AccountRemoval) -> bool
    ensures { result ≡ good_removal a }
{
    let date = a.date;
    (a.account < ledger::ACCOUNT_END) & date.valid()
}

// The first cause against a removal: held says whether there is a bill of the account.
pub fn removal_check(a: AccountRemoval, held: bool) -> Result<(), Cause>
    ensures { result ≡ first (removal_causes a held) }
{
    if !good_removal(a) {
        return Err(Cause::BadArgument);
    }
    if held {
        return Ok(());
    }
    Err(Cause::NoSuchBill)
}

// 1 for a bill that is open on the old date and not on the new one.
pub fn one_closed(b: Bill, old: Date, new: Date) -> u64
    ensures { result ≡ cond (closes old new b) 1 0 }
{
    u64::from(b.terms.is_open(old) & !b.terms.is_open(new))
}
