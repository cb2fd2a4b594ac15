// The static library for C and Rust programs: each function exports the one of crate clearing_c under the same name, with the same contract. A static library
// exports no function of the crates below it, so the C interface needs each signature twice.
// include/clearing.h is its header.
#![tactic(auto)]

pub mod days;
pub mod journals;

ghost use Rattle.std.specs.Prelude.{◌≡◌, length};
ghost use Rattle.fields.specs.Put.{put};
ghost use Rattle.words.specs.Layout.{ledger_of};
ghost use Rattle.causes.specs.Causes.{request, calendar, file, cancel, close, removal};
ghost use Rattle.calls.specs.Machine.{step_in, called};
ghost use Rattle.lookups.specs.Lookups.{open_in, amounts_in};
ghost use Rattle.journal.specs.Entries.{head_of};
ghost use Rattle.boundary.specs.Boundary.{start_of, identity_from, removal_from, request_of, calendar_of, fresh_in, Gives, head_called, head_written, head_found, number_of, number_left, amounts_left, Prints};
ghost use Rattle.units.specs.Calendar.{date_of};

// Fresh.
#[unsafe(no_mangle)]
pub extern "C" fn clearing_fresh(
    ledger: &mut [u64],
    today: u64,
    tracking: u64,
    confirmation: u64,
    change: &mut i64,
    counts: &mut [u64; 4],
) -> u64
    ensures { Gives (fresh_in ledger.old (start_of today tracking confirmation)) ledger.old change.old counts.old ledger.new change.new counts.new result }
{
    clearing_c::clearing_fresh(ledger, today, tracking, confirmation, change, counts)
}

// Close of day.
#[unsafe(no_mangle)]
pub extern "C" fn clearing_close(
    ledger: &mut [u64],
    today: u64,
    change: &mut i64,
    counts: &mut [u64; 4],
) -> u64
    ensures { Gives (called (ledger_of ledger.old) (close (date_of today))) ledger.old change.old counts.old ledger.new change.new counts.new result }
{
    clearing_c::clearing_close(ledger, today, change, counts)
}

// Removal: the removal date of all bills of an account.
#[unsafe(no_mangle)]
pub extern "C" fn clearing_removal(
    ledger: &mut [u64],
    account: u64,
    date: u64,
    change: &mut i64,
    counts: &mut [u64; 4],
) -> u64
    ensures { Gives (called (ledger_of ledger.old) (removal (removal_from account date))) ledger.old change.old counts.old ledger.new change.new counts.new result }
{
    clearing_c::clearing_removal(ledger, account, date, change, counts)
}

// Request: the rate code in five bytes, the product as B or P.
#[unsafe(no_mangle)]
pub extern "C" fn clearing_request(
    ledger: &mut [u64],
    code: &[u8; 5],
    account: u64,
    key: u64,
    product: u8,
    billing: u64,
    from: u64,
    consumption: u64,
    scheduled: u64,
    out: &mut [u8],
    change: &mut i64,
    counts: &mut [u64; 4],
) -> u64
    ensures gives { Gives (called (ledger_of ledger.old) (request (request_of code.now (identity_from account key) product billing from consumption scheduled) (length out.old))) ledger.old change.old counts.old ledger.new change.new counts.new result }
    ensures written { out.new ≡ put out.old 0 (step_in (ledger_of ledger.old) (request (request_of code.now (identity_from account key) product billing from consumption scheduled) (length out.old))).written }
{
    clearing_c::clearing_request(
        ledger,
        code,
        account,
        key,
        product,
        billing,
        from,
        consumption,
        scheduled,
        out,
        change,
        counts,
    )
}

// Request whose Scheduled Date is so many business days from today.
#[unsafe(no_mangle)]
pub extern "C" fn clearing_request_by_calendar(
    ledger: &mut [u64],
    code: &[u8; 5],
    account: u64,
    key: u64,
    product: u8,
    billing: u64,
    from: u64,
    consumption: u64,
    number: u64,
    holidays: &[u64],
    out: &mut [u8],
    change: &mut i64,
    counts: &mut [u64; 4],
) -> u64
    ensures gives { Gives (called (ledger_of ledger.old) (calendar (calendar_of code.now (identity_from account key) product billing from consumption number) holidays.now (length out.old))) ledger.old change.old counts.old ledger.new change.new counts.new result }
    ensures written { out.new ≡ put out.old 0 (step_in (ledger_of ledger.old) (calendar (calendar_of code.now (identity_from account key) product billing from consumption number) holidays.now (length out.old))).written }
{
    clearing_c::clearing_request_by_calendar(
        ledger,
        code,
        account,
        key,
        product,
        billing,
        from,
        consumption,
        number,
        holidays,
        out,
        change,
        counts,
    )
}

// A supplier file: its answers go to out.
#[unsafe(no_mangle)]
pub extern "C" fn clearing_file(
    ledger: &mut [u64],
    s: &[u8],
    out: &mut [u8],
    change: &mut i64,
    counts: &mut [u64; 4],
) -> u64
    ensures gives { Gives (called (ledger_of ledger.old) (file s.now (length out.old))) ledger.old change.old counts.old ledger.new change.new counts.new result }
    ensures written { out.new ≡ put out.old 0 (step_in (ledger_of ledger.old) (file s.now (length out.old))).written }
{
    clearing_c::clearing_file(ledger, s, out, change, counts)
}

// Cancel.
#[unsafe(no_mangle)]
pub extern "C" fn clearing_cancel(
    ledger: &mut [u64],
    account: u64,
    key: u64,
    out: &mut [u8],
    change: &mut i64,
    counts: &mut [u64; 4],
) -> u64
    ensures gives { Gives (called (ledger_of ledger.old) (cancel (identity_from account key) (length out.old))) ledger.old change.old counts.old ledger.new change.new counts.new result }
    ensures written { out.new ≡ put out.old 0 (step_in (ledger_of ledger.old) (cancel (identity_from account key) (length out.old))).written }
{
    clearing_c::clearing_cancel(ledger, account, key, out, change, counts)
}

// Lookup: the place of the open bill of an account that is due first; of equals it is the one first requested.
#[unsafe(no_mangle)]
pub extern "C" fn clearing_open_bill(ledger: &[u64], account: u64, place: &mut u64) -> u64
    ensures answer { result ≡ number_of (open_in (ledger_of ledger.now) account) }
    ensures stored { place.new ≡ number_left place.old (open_in (ledger_of ledger.now) account) }
{
    clearing_c::clearing_open_bill(ledger, account, place)
}

// Lookup: charge, applied and owed of one bill.
#[unsafe(no_mangle)]
pub extern "C" fn clearing_amounts(
    ledger: &[u64],
    account: u64,
    key: u64,
    amounts: &mut [u64; 3],
) -> u64
    ensures answer { result ≡ number_of (amounts_in (ledger_of ledger.now) (identity_from account key)) }
    ensures stored { amounts.new ≡ amounts_left amounts.old (amounts_in (ledger_of ledger.now) (identity_from account key)) }
{
    clearing_c::clearing_amounts(ledger, account, key, amounts)
}

// The posted table of a ledger, without a line after a bad entry; written are its bytes.
#[unsafe(no_mangle)]
pub extern "C" fn clearing_ledger_table(ledger: &[u64], out: &mut [u8], written: &mut u64) -> u64
    ensures { Prints (ledger_of ledger.now) out.old written.old out.new written.new result }
{
    clearing_c::clearing_ledger_table(ledger, out, written)
}

// The journal entry at the start of some bytes, before which so many entries came; found are its bytes, 0 where no whole good one stands there
// (13), and 1 if it is cut short, else 0.
#[unsafe(no_mangle)]
pub extern "C" fn clearing_entry(
    ledger: &mut [u64],
    journal: &[u8],
    seen: u64,
    out: &mut [u8],
    change: &mut i64,
    counts: &mut [u64; 4],
    found: &mut [u64; 2],
) -> u64
    ensures gives { Gives (head_called (length out.old) ledger.old journal.now (head_of seen journal.now)) ledger.old change.old counts.old ledger.new change.new counts.new result }
    ensures written { out.new ≡ put out.old 0 (head_written (length out.old) ledger.old journal.now (head_of seen journal.now)) }
    ensures told { found.new ≡ head_found (head_of seen journal.now) }
{
    clearing_c::clearing_entry(ledger, journal, seen, out, change, counts, found)
}
