// What a call that was carried out answers.
ghost use Rattle.std.specs.Prelude.{◌≡◌, ◌<◌, ◌^◌};
ghost use Rattle.calls.specs.parts.Answers.{noticed, cleared};
ghost use Rattle.calls.specs.Days.{quiet_answer};

use crate::Returned;
use group::Tally;
use rules::Cause;
use units::Cents;

// The answer of a call that wrote a notice of two records. (Ok in a Result, here and below, as the calls return it.)
pub fn noticed(change: i64) -> Result<Returned, Cause>
    ensures { result ≡ noticed change }
{
    Ok(Returned {
        change,
        written: records::NOTICE_SIZE,
        accepted: 0,
        rejected: 0,
        closed: 0,
    })
}

// What a call that writes and posts nothing returns.
pub fn quiet(closed: u64) -> Result<Returned, Cause>
    ensures { result ≡ quiet_answer closed }
{
    Ok(Returned {
        change: 0,
        written: 0,
        accepted: 0,
        rejected: 0,
        closed,
    })
}

// What a file that was taken returns: the change is what came less what went.
pub fn cleared(c: Tally) -> Result<Returned, Cause>
    requires { (c.came < 2 ^ 63) × (c.went < 2 ^ 63) }
    ensures { result ≡ cleared c }
{
    let change = ledger::books::signed_change(Cents(c.came), Cents(c.went));
    Ok(Returned {
        change,
        written: c.written,
        accepted: c.accepted,
        rejected: c.rejected,
        closed: 0,
    })
}
