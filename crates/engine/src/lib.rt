// The engine: a ledger that is lent, as words or as one `Ledger`, and changed in place. Crate by_value lends its ledger to it, crate entries a journal's words.
#![tactic(auto)]

pub mod call;
pub mod file_groups;
