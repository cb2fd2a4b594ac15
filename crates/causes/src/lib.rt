// What decides on a call, on small values: its arguments, and the first cause against it. The engine finds the bill and stores what is left.
#![tactic(auto)]

pub mod by_calendar;
pub mod checks;

ghost use Rattle.std.specs.Prelude.{◌≡◌, ◌≤◌, length};
ghost use Rattle.causes.specs.Causes.{code_field};
ghost use Rattle.causes.specs.Requests.{code_of, field_of_code};

use ledger::{Identity, RateCode};
use units::{Ccf, Date};

// What fresh takes.
#[derive(Clone, Copy)]
pub struct Start {
    pub today: Date,
    pub tracking: u64,
    pub confirmation: u64,
}

// Five bytes that may hold a rate code.
#[derive(Clone, Copy, PartialEq, Eq)]
pub struct CodeField {
    pub first: u8,
    pub second: u8,
    pub third: u8,
    pub tens: u8,
    pub ones: u8,
}

// The rate code of five bytes: no refusal, since whoever keeps one has asked before whether they hold one.
impl From<CodeField> for RateCode {
    ghost from_gives = { λ x c. c ≡ code_of x };

    fn from(x: CodeField) -> RateCode {
        RateCode {
            first: x.first,
            second: x.second,
            tens: x.tens,
            ones: x.ones,
        }
    }
}

// The five bytes of a rate code: its third is C.
impl From<RateCode> for CodeField {
    ghost from_gives = { λ c x. x ≡ field_of_code c };

    fn from(c: RateCode) -> CodeField {
        CodeField {
            first: c.first,
            second: c.second,
            third: b'C',
            tens: c.tens,
            ones: c.ones,
        }
    }
}

// The field that the first five bytes of s are.
pub fn code_field(s: &[u8]) -> CodeField
    requires { 5 ≤ length s.now }
    ensures { result ≡ code_field s.now }
{
    CodeField {
        first: s[0],
        second: s[1],
        third: s[2],
        tens: s[3],
        ones: s[4],
    }
}

// What a request takes: the rate code in five bytes, the product as B or P (a byte and no Product, since that it is one of the two is asked of the call by cause 2).
// The product stands behind the code: alone before a word it had seven bytes of padding behind it, which were moved with each entry of a journal as two words that
// overlap, and each load of them waited for both stores.
#[derive(Clone, Copy)]
pub struct Request {
    pub code: CodeField,
    pub product: u8,
    pub identity: Identity,
    pub billing: Date,
    pub from: Date,
    pub consumption: Ccf,
    pub scheduled: Date,
}

// A request that leaves its Scheduled Date to the calendar: so many business days from today. The date that `request` holds is not read.
#[derive(Clone, Copy)]
pub struct CalendarRequest {
    pub request: Request,
    pub number: u64,
}

// What a removal takes: the removal date of all bills of an account.
#[derive(Clone, Copy)]
pub struct AccountRemoval {
    pub account: u64,
    pub date: Date,
}

// What a request or a cancel takes: each is a call on one bill.
#[derive(Clone, Copy)]
pub enum BillCall {
    Request(Request),
    Cancel(Identity),
}
