// ACF: what tells a supplier that a group is accepted. Crate answers writes it.
use ledger::Terms;
use units::Date;

// What an ACF holds besides the sender's header: the bill's terms, the Tracking ID that a SUP takes, today and the Confirmation Number.
#[derive(Clone, Copy)]
pub struct Acf {
    pub terms: Terms,
    pub tracking: u64,
    pub today: Date,
    pub confirmation: u64,
}
