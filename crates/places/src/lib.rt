// A lent ledger: what a slice that holds one offers, whether it is of words or of one `Ledger`, and the parts of a ledger found, stored and tested
// there.
#![tactic(auto)]

pub mod accounts;
pub mod checks;
pub mod holder;
mod in_words;
pub mod one_ledger;
pub mod place;
