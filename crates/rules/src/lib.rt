// What the rules are stated with: why a call is refused and a group rejected, under the documents' numbers; specs/ has rule lists, and tests, sums and
// searches over a list.
#![tactic(auto)]

ghost use Rattle.std.specs.Prelude.{◌≡◌};
ghost use Rattle.rules.specs.Numbers.{cause_number, code_number};

// Why a call is refused: documents 01 and 02 give each cause its number.
#[derive(Clone, Copy, Debug, PartialEq, Eq)]
pub enum Cause {
    OutputTooSmall = 1,
    BadArgument = 2,
    LedgerFull = 3,
    NoSuchBill = 4,
    BillCancelled = 5,
    OtherCodeOrProduct = 6,
    ConsumptionUnchanged = 7,
    SequenceUsedUp = 8,
    ScheduledBeforeToday = 9,
    NotAfterToday = 10,
    BadFile = 11,
    TooFewNumbers = 12,
    BadEntry = 13,
    BadHolidays = 14,
    NoSuchDay = 15,
}

// Its number. By `as`, here and below: Rust gives an enum's number no other way.
impl From<Cause> for u64 {
    ghost from_gives = { λ cause n. n ≡ cause_number cause };

    fn from(cause: Cause) -> u64 {
        cause as u64
    }
}

// Why a group is rejected: the error code of its REJ, whose number stands behind BR.
#[derive(Clone, Copy, Debug, PartialEq, Eq)]
pub enum ErrorCode {
    Br01 = 1,
    Br05 = 5,
    Br06 = 6,
    Br07 = 7,
    Br08 = 8,
    Br09 = 9,
    Br10 = 10,
    Br11 = 11,
    Br12 = 12,
    Br13 = 13,
    Br14 = 14,
    Br16 = 16,
    Br17 = 17,
    Br19 = 19,
    Br20 = 20,
    Br21 = 21,
    Br22 = 22,
    Br23 = 23,
    Br24 = 24,
    Br25 = 25,
    Br26 = 26,
}

// Its number.
impl From<ErrorCode> for u64 {
    ghost from_gives = { λ code n. n ≡ code_number code };

    fn from(code: ErrorCode) -> u64 {
        code as u64
    }
}
