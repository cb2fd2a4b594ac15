// The ledger and its bills, by value: the types. What is done with a bill stands in bills.rt, with the ledger in
// books.rt, and when a ledger is sound in sound.rt.
#![tactic(auto)]

pub mod bills;
pub mod books;
pub mod sound;

use units::{Ccf, Cents, Date};

// "up to 128 bills".
pub const PLACES: usize = 128;

// The last sequence of a bill.
pub const LAST_SEQUENCE: u64 = 999;

// The last Tracking ID or Confirmation Number, and what the next number is when all are used up.
pub const LAST_NUMBER: u64 = 999999999;

pub const USED_UP: u64 = 1000000000;

// The first number past the 12 digits of a Customer Account Number, and past the 4 of a Bill Key.
pub const ACCOUNT_END: u64 = 1000000000000;

pub const KEY_END: u64 = 10000;

// What identifies a bill: Customer Account Number and Bill Key.
#[derive(Clone, Copy, PartialEq, Eq)]
pub struct Identity {
    pub account: u64,
    pub key: u64,
}

// Two of A-Z or 0-9, then C, then two digits: the C is not held.
#[derive(Clone, Copy, PartialEq, Eq)]
pub struct RateCode {
    pub first: u8,
    pub second: u8,
    pub tens: u8,
    pub ones: u8,
}

#[derive(Clone, Copy, PartialEq, Eq)]
pub enum Product {
    BillReady,
    Prepay,
}

// A bill's posted amounts.
#[derive(Clone, Copy)]
pub enum Posted {
    None,
    BillReady(Cents),
    Prepay {
        charge: Cents,
        applied: Cents,
        owed: Cents,
    },
}

// What a bill has from its latest request.
#[derive(Clone, Copy)]
pub struct Latest {
    pub tracking: u64,
    pub consumption: Ccf,
    pub billing: Date,
    pub from: Date,
    pub scheduled: Date,
}

// A bill but for its posted amounts: what the rules read of it.
#[derive(Clone, Copy)]
pub struct Terms {
    pub identity: Identity,
    pub code: RateCode,
    pub product: Product,
    pub sequence: u64,
    pub requests: u64,
    pub cancelled: bool,
    pub latest: Latest,
    // When the account was removed, if it was: paper 2 of document 02.
    pub removal: Option<Date>,
}

#[derive(Clone, Copy)]
pub struct Bill {
    pub terms: Terms,
    pub posted: Posted,
}

// The bills held are the first `count`, in order of first request; the others play no part. An array with its count beside it: memory is fixed by a rule of the
// project, and a list that holds its own length (`arrayvec`) is not `Copy`, as a ledger by value is.
#[derive(Clone, Copy)]
pub struct Ledger {
    pub today: Date,
    pub next_tracking: u64,
    pub next_confirmation: u64,
    pub count: usize,
    pub bills: [Bill; PLACES],
}

// A ledger but for its bills.
#[derive(Clone, Copy)]
pub struct LedgerHeader {
    pub today: Date,
    pub tracking: u64,
    pub confirmation: u64,
    pub count: usize,
}

// What a call or a group leaves: the header, and the bill at its place.
#[derive(Clone, Copy)]
pub struct Update {
    pub header: LedgerHeader,
    pub bill: Bill,
}

// Where a bill stands in its life.
#[derive(Clone, Copy)]
pub enum State {
    Open,
    Issued,
    Cancelled,
}
