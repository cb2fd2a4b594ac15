// A call on words that may hold anything, and what it came to given to the caller's buffers. The buffers go side by side: no struct of them crosses the C interface.
#![tactic(auto)]

ghost use Rattle.std.specs.Prelude.{◌≡◌, length};
ghost use Rattle.fields.specs.Put.{put};
ghost use Rattle.words.specs.Layout.{ledger_of};
ghost use Rattle.causes.specs.Causes.{calendar};
ghost use Rattle.calls.specs.Machine.{step_in, called};
ghost use Rattle.journal.specs.EntryCalls.{entry_written};
ghost use Rattle.boundary.specs.Boundary.{entry_in, Leaves, Stores, Gives};

use calls::Returned;
use causes::CalendarRequest;
use engine::call;
use entries::entry;
use journal::Body;
use rules::Cause;

// Makes a call in the lent words: a fresh asks that they are 2,564, and any other that they are those of a sound ledger (2).
fn make(ledger: &mut [u64], out: &mut [u8], body: Body, s: &[u8]) -> Result<Returned, Cause>
    ensures { Leaves (entry_in (length out.old) ledger.old body s.now) (entry_written (length out.old) (ledger_of ledger.old) body s.now) ledger.old out.old ledger.new out.new result }
{
    if let Body::Fresh(start) = body {
        if ledger.len() != words::LEDGER_SIZE {
            return Err(Cause::BadArgument);
        }
        return call::fresh_in(ledger, start);
    }
    if !places::checks::sound(ledger) {
        return Err(Cause::BadArgument);
    }
    let room = out.len();
    entry::entry(ledger, out, true, room, body, s)
}

// Makes a request by calendar in the lent words, if they are those of a sound ledger (2).
fn make_by_calendar(
    ledger: &mut [u64],
    out: &mut [u8],
    q: CalendarRequest,
    holidays: &[u64],
) -> Result<Returned, Cause>
    ensures { Leaves (called (ledger_of ledger.old) (calendar q holidays.now (length out.old))) (step_in (ledger_of ledger.old) (calendar q holidays.now (length out.old))).written ledger.old out.old ledger.new out.new result }
{
    if !places::checks::sound(ledger) {
        return Err(Cause::BadArgument);
    }
    let room = out.len();
    call::calendar_in(ledger, out, true, room, q, holidays)
}

// Stores what an answer returned, and gives its number.
fn give(change: &mut i64, counts: &mut [u64; 4], a: Result<Returned, Cause>) -> u64
    ensures { Stores a change.old counts.old change.new counts.new result }
{
    match a {
        Err(cause) => u64::from(cause),
        Ok(r) => {
            *change = r.change;
            // Rust has no `From` of a usize for u64, here and in clearing_c: the cast loses nothing.
            *counts = [r.written as u64, r.accepted, r.rejected, r.closed];
            0
        }
    }
}

// Both. The bytes s are those of a file, and of any other call none.
pub fn call(
    ledger: &mut [u64],
    out: &mut [u8],
    change: &mut i64,
    counts: &mut [u64; 4],
    body: Body,
    s: &[u8],
) -> u64
    ensures gives { Gives (entry_in (length out.old) ledger.old body s.now) ledger.old change.old counts.old ledger.new change.new counts.new result }
    ensures written { out.new ≡ put out.old 0 (entry_written (length out.old) (ledger_of ledger.old) body s.now) }
{
    let a = make(ledger, out, body, s);
    give(change, counts, a)
}

// The same of a request by calendar, with the holidays lent to it. It is no case of `call`: a journal has no such entry, so no body says it; `give` is what both share.
pub fn call_by_calendar(
    ledger: &mut [u64],
    out: &mut [u8],
    change: &mut i64,
    counts: &mut [u64; 4],
    q: CalendarRequest,
    holidays: &[u64],
) -> u64
    ensures gives { Gives (called (ledger_of ledger.old) (calendar q holidays.now (length out.old))) ledger.old change.old counts.old ledger.new change.new counts.new result }
    ensures written { out.new ≡ put out.old 0 (step_in (ledger_of ledger.old) (calendar q holidays.now (length out.old))).written }
{
    let a = make_by_calendar(ledger, out, q, holidays);
    give(change, counts, a)
}
