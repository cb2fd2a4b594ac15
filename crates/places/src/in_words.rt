// A ledger lent as 2,564 words.
ghost use Rattle.std.specs.Prelude.{eqb, length};
ghost use Rattle.words.specs.Layout.{ledger_size, holds_ledger, ledger_of, removal_said};
ghost use Rattle.words.proofs.WordLaws.{sound-holds};
ghost use Rattle.words.proofs.PartLaws.{places_of, removal-said};

use crate::holder::Holder;
use ledger::{Bill, Identity, LedgerHeader};
use units::Date;
use words::{HEADER_SIZE, PLACE_SIZE};

impl Holder for u64 {
    ghost sized = { λ ws. eqb (length ws) ledger_size };

    ghost holds = { holds_ledger };

    ghost held = { ledger_of };

    ghost takes = { removal_said };

    ghost places = { places_of };

    ghost sound_holds = { sound-holds };

    ghost takes_read = { removal-said };

    ghost takes_said = { λ r e. e };

    fn fits(lent: &[u64]) -> bool {
        words::fits(lent)
    }

    // By `as`, here and where a header is stored: Rust has no `From` of a u64 for an index, and a count of bills fits both.
    fn header(lent: &[u64]) -> LedgerHeader {
        LedgerHeader {
            today: Date(lent[0]),
            tracking: lent[1],
            confirmation: lent[2],
            count: lent[3] as usize,
        }
    }

    fn bill_at(lent: &[u64], p: usize) -> Bill {
        words::bill_in(lent, HEADER_SIZE + PLACE_SIZE * p)
    }

    fn identity_at(lent: &[u64], p: usize) -> Identity {
        let at = HEADER_SIZE + PLACE_SIZE * p;
        Identity {
            account: lent[at],
            key: lent[at + 1],
        }
    }

    fn put_header(lent: &mut [u64], h: LedgerHeader) {
        lent[0] = h.today.0;
        lent[1] = h.tracking;
        lent[2] = h.confirmation;
        lent[3] = h.count as u64;
    }

    fn put_bill(lent: &mut [u64], p: usize, b: Bill) {
        words::put_bill(lent, HEADER_SIZE + PLACE_SIZE * p, b);
    }

    fn put_empty(lent: &mut [u64], today: Date, tracking: u64, confirmation: u64) {
        words::write_empty(lent, today.0, tracking, confirmation);
    }
}
