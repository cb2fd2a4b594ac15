// What is counted over a file's groups.
ghost use Rattle.std.specs.Prelude.{◌≡◌, cond, ◌+◌, ◌*◌, ◌^◌, ◌≤◌};
ghost use Rattle.records.specs.Limits.{file_size};
ghost use Rattle.group.specs.Groups.{is_accepted, is_rejected};
ghost use Rattle.group.specs.parts.Turns.{came_by, went_by, no_tally, tallied, WithinFile};

use crate::Tally;
use ledger::{Bill, Posted};

// No group yet.
pub fn none() -> Tally
    ensures { result ≡ no_tally }
{
    Tally {
        accepted: 0,
        rejected: 0,
        written: 0,
        came: 0,
        went: 0,
    }
}

// One group more, whose answer has so many bytes and before which b stood at its place. (A rejection counts whatever its code is.)
pub fn add<E: Copy>(c: Tally, v: Result<Posted, E>, b: Bill, size: usize) -> Tally
    requires { WithinFile c × (size ≤ file_size) × (came_by v ≤ 10 ^ 13) × (went_by v b ≤ 10 ^ 13) }
    ensures { result ≡ tallied c v b size }
{
    match v {
        Ok(amounts) => Tally {
            accepted: c.accepted + 1,
            written: c.written + size,
            came: c.came + amounts.charge().0,
            went: c.went + b.posted.charge().0,
            ..c
        },
        Err(_) => Tally {
            rejected: c.rejected + 1,
            written: c.written + size,
            ..c
        },
    }
}
