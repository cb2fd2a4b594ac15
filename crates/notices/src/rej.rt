// REJ: what sends a group back, with the code that rejects it. Crate answers writes it.
use units::Date;

// What a REJ holds besides the sender's records: the code, a number that stands behind BR, today and the Confirmation Number. (A number and no ErrorCode: any
// code that a caller has is written.)
#[derive(Clone, Copy)]
pub struct Rej {
    pub code: u64,
    pub today: Date,
    pub confirmation: u64,
}
