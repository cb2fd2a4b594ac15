// One entry of a journal on a ledger that is lent as words.
ghost use Rattle.std.specs.Prelude.{◌≡◌, true, ◌≤◌, length};
ghost use Rattle.ledger.specs.Sound.{sound_ledger};
ghost use Rattle.words.specs.Layout.{ledger_of};
ghost use Rattle.journal.proofs.MadeLaws.{Taken};
ghost use Rattle.entries.specs.parts.Stepping.{EntryCalledIn, SteppedIn};
ghost use Rattle.entries.specs.parts.Running.{met_bad, had_no_room};
ghost use Rattle.records.specs.Limits.{file_size};

use calls::Returned;
use causes::BillCall;
use engine::call;
use journal::{Body, Head};
use rules::Cause;

// An entry that was made: how many bytes it has, and what its call answers.
#[derive(Clone, Copy)]
pub struct Made {
    pub size: usize,
    pub answer: Result<Returned, Cause>,
}

// Why no further entry is made: none stands whole at the start of the bytes that are left, a bad one does, or the output has no room for another's.
#[derive(Clone, Copy)]
pub enum Ended {
    Cut,
    Bad,
    Full,
}

impl Ended {
    // Whether a bad entry stands there.
    pub fn is_bad(self) -> bool
        ensures { result ≡ met_bad self }
    {
        matches!(self, Ended::Bad)
    }

    // Whether entries may be left that had no room.
    pub fn is_full(self) -> bool
        ensures { result ≡ had_no_room self }
    {
        matches!(self, Ended::Full)
    }
}

// Makes an entry, whose body's bytes are s; its call is lent so much room. That the words hold a sound ledger is asked by a clause, here, in run, tracing and
// replay: a type of such words would be made anew after each call, where the same is shown.
pub fn entry(
    ws: &mut [u64],
    out: &mut [u8],
    writes: bool,
    room: usize,
    body: Body,
    s: &[u8],
) -> Result<Returned, Cause>
    requires is_sound { (sound_ledger (ledger_of ws.old) ≡ true) × Taken body }
    requires has_room { writes ≡ true → room ≤ length out.old }
    ensures { EntryCalledIn writes room 0 body s.now ws.old out.old ws.new out.new result }
{
    match body {
        Body::Request(r) => call::request_in(ws, out, writes, room, r),
        Body::File => call::file_in(ws, out, writes, room, s),
        Body::Cancel(id) => call::bill_call_in(ws, out, writes, room, BillCall::Cancel(id)),
        Body::Close(d) => call::close_in(ws, d),
        Body::Removal(a) => call::removal_in(ws, a),
        Body::Fresh(x) => call::fresh_in(ws, x),
        Body::Unread => Err(Cause::BadArgument),
    }
}

// Makes the entry at the start of src, after so many entries: "Each call's output there is 64,200 bytes".
pub fn step(
    ws: &mut [u64],
    out: &mut [u8],
    src: &[u8],
    seen: u64,
    writes: bool,
) -> Result<Made, Ended>
    requires is_sound { sound_ledger (ledger_of ws.old) ≡ true }
    requires has_room { writes ≡ true → file_size ≤ length out.old }
    ensures { SteppedIn writes 0 seen src.now ws.old out.old ws.new out.new result }
{
    let h = journal::head_at(src, seen);
    match h {
        Head::Cut => Err(Ended::Cut),
        Head::Bad => Err(Ended::Bad),
        Head::Whole(body, size) => {
            let answer = entry(ws, out, writes, records::FILE_SIZE, body, &src[3..size]);
            Ok(Made { size, answer })
        }
    }
}
