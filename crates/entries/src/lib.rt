// The entries of a journal, on a ledger that is lent as words: one of them, and all that stand at the start of some bytes.
#![tactic(auto)]

pub mod entry;
pub mod run;
