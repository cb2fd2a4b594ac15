// What a request and a cancel leave of the bill at their place, and the notices that they write.
#![tactic(auto)]

pub mod notice;
pub mod requests;
