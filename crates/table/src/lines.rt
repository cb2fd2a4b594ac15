// What the table takes of a lent ledger: the lines of its bills, and their total. Two methods per kind of ledger, since document 01 asks that the table's total and
// lines walk a lent slice of bills: a `Ledger` lends its own, and of words, which hold no bills, each is read at its place.
ghost use Rattle.std.specs.Prelude.{◌≡◌, true, ◌+◌, ◌*◌, ◌≤◌, length, take};
ghost use Rattle.fields.specs.Put.{put};
ghost use Rattle.rules.specs.Lists.{every};
ghost use Rattle.ledger.specs.Books.{small_charge, total_of};
ghost use Rattle.ledger.specs.Limits.{ledger_places};
ghost use Rattle.words.specs.Layout.{holds_ledger, ledger_of};
ghost use Rattle.table.specs.Table.{lines_of, line_size};

use crate::{LINE_SIZE, put_line};
use ledger::{Bill, Ledger, books};
use places::holder::Holder;
use places::place;
use units::{Cents, Date};

pub trait Lines: Holder {
    // Writes the lines of the first n bills, and answers where they end.
    fn put_lines(lent: &[Self], n: usize, out: &mut [u8], at: usize, today: Date) -> usize
        requires { (Self.holds lent.now ≡ true) × (n ≤ ledger_places) × (at + line_size * n ≤ length out.old) }
        ensures { (result ≡ at + line_size * n) × (out.new ≡ put out.old at (lines_of today (take n (Self.held lent.now).bills))) };

    // The sum of their posted charges.
    fn total(lent: &[Self], n: usize) -> Cents
        requires { (Self.holds lent.now ≡ true) × (n ≤ ledger_places) × (every small_charge (take n (Self.held lent.now).bills) ≡ true) }
        ensures { result.0 ≡ total_of (take n (Self.held lent.now).bills) };
}

impl Lines for u64 {
    fn put_lines(lent: &[u64], n: usize, out: &mut [u8], at: usize, today: Date) -> usize {
        for i in 0..n {
            let b = u64::bill_at(lent, i);
            put_line(out, at + LINE_SIZE * i, b, today);
        }
        at + LINE_SIZE * n
    }

    fn total(lent: &[u64], n: usize) -> Cents {
        place::total(lent, n)
    }
}

impl Lines for Ledger {
    fn put_lines(lent: &[Ledger], n: usize, out: &mut [u8], at: usize, today: Date) -> usize {
        put_bills(&lent[0].bills[..n], out, at, today)
    }

    fn total(lent: &[Ledger], n: usize) -> Cents {
        books::total(&lent[0].bills[..n])
    }
}

// Writes the lines of lent bills, and answers where they end.
fn put_bills(bills: &[Bill], out: &mut [u8], at: usize, today: Date) -> usize
    requires { at + line_size * length bills.now ≤ length out.old }
    ensures { (result ≡ at + line_size * length bills.now) × (out.new ≡ put out.old at (lines_of today bills.now)) }
{
    let mut end = at;
    for b in bills {
        put_line(out, end, *b, today);
        end += LINE_SIZE;
    }
    end
}
