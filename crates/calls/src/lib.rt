// What a call leaves and answers.
#![tactic(auto)]

pub mod carried_out;

use ledger::Ledger;
use rules::Cause;

// What a call that was carried out returns: the signed change in cents, how many bytes it wrote, of a file how many groups were
// accepted and rejected, of a close how many bills it closed.
#[derive(Clone, Copy)]
pub struct Returned {
    pub change: i64,
    pub written: usize,
    pub accepted: u64,
    pub rejected: u64,
    pub closed: u64,
}

// The ledger that a call leaves, and its answer: what it returned, or the cause against it.
#[derive(Clone, Copy)]
pub struct Called {
    pub ledger: Ledger,
    pub answer: Result<Returned, Cause>,
}
