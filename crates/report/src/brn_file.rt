// The notices of a journal: the bytes of its BRN file.
ghost use Rattle.std.specs.Prelude.{◌≡◌, ◌≤◌, length};
ghost use Rattle.journal.specs.EntryCalls.{brn_of};
ghost use Rattle.report.specs.NoticesOf.{ReportsNotices};
ghost use Rattle.report.specs.parts.Fits.{refusal_of};

use crate::Reported;
use entries::run;
use rules::Cause;

// Twice what one entry may write: room for the last notices of a journal.
const LAST_ROOM: usize = 2 * records::FILE_SIZE;

// What is answered where the notices of a journal have no room in so many bytes. A run only measures them where the entries' tags and lengths do not show it.
fn refusal(src: &[u8], room: usize) -> Option<Reported>
    ensures { result ≡ refusal_of room src.now }
{
    if room::has_room_for_any(src, room) {
        return None;
    }
    let mut ws = [0u64; words::LEDGER_SIZE];
    run::start(&mut ws);
    let r = run::run(&mut ws, &mut [], false, src, 0);
    if r.written <= room {
        return None;
    }
    Some(Reported {
        report: Err(Cause::OutputTooSmall),
        stopped: journal::ends_bad(r.end.is_bad(), src.len() - r.used, r.seen),
    })
}

// Writes the notices of a journal into an output that has room for them. A run stops where fewer bytes are left than one entry may write, so the last
// notices, which have fewer, are made in a buffer of twice that and put behind.
fn write_notices(src: &[u8], out: &mut [u8]) -> Reported
    requires { length (brn_of src.now) ≤ length out.old }
    ensures { ReportsNotices src.now out.old out.new result }
{
    let mut ws = [0u64; words::LEDGER_SIZE];
    run::start(&mut ws);
    let r = run::run(&mut ws, out, true, src, 0);
    let left = src.len() - r.used;
    let full = r.end.is_full();
    if !full {
        return Reported {
            report: Ok(r.written),
            stopped: journal::ends_bad(r.end.is_bad(), left, r.seen),
        };
    }
    let mut last = [0u8; LAST_ROOM];
    let from = r.used;
    let q = run::run(&mut ws, &mut last, true, &src[from..], r.seen);
    let size = q.written;
    fields::put_bytes(out, r.written, &last[..size]);
    Reported {
        report: Ok(r.written + size),
        stopped: journal::ends_bad(q.end.is_bad(), left - q.used, q.seen),
    }
}

// Writes the notices of a whole journal, or nothing if the output lent is too small for them.
pub fn post_notices(src: &[u8], out: &mut [u8]) -> Reported
    ensures { ReportsNotices src.now out.old out.new result }
{
    match refusal(src, out.len()) {
        Some(refused) => refused,
        None => write_notices(src, out),
    }
}
