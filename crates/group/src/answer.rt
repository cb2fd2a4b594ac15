// The answer to a group, ACF or REJ, where the bill at its place is at hand.
ghost use Rattle.std.specs.Prelude.{◌≡◌, true, ◌+◌, ◌-◌, ◌*◌, ◌≤◌, length};
ghost use Rattle.fields.specs.Put.{put};
ghost use Rattle.records.specs.Limits.{record_size, file_records};
ghost use Rattle.records.specs.Layout.{record_at};
ghost use Rattle.notices.specs.Answers.{acf};
ghost use Rattle.file.specs.parts.Walk.{group_at};
ghost use Rattle.group.specs.parts.Turns.{if_written, answer_at};

use ledger::{Bill, LedgerHeader, Posted};
use notices::acf::Acf;
use notices::rej::Rej;
use records::RECORD_SIZE;
use records::group::GroupAt;

// What the ACF to a group says, where b is the bill at its place.
fn acf_of(b: Bill, h: LedgerHeader) -> Acf
    ensures { result ≡ record { terms = b.terms; tracking = h.tracking; today = h.today; confirmation = h.confirmation } }
{
    let terms = b.terms;
    let today = h.today;
    Acf {
        terms,
        tracking: h.tracking,
        today,
        confirmation: h.confirmation,
    }
}

// Writes the ACF for a group's header.
fn write_acf(out: &mut [u8], at: usize, g: &GroupAt, a: Acf)
    requires { at + record_size ≤ length out.old }
    ensures { out.new ≡ put out.old at (acf (record_at g.now.file.now g.now.header) a) }
{
    answers::acf::write(out, at, records::record_at(g.file, g.header), a);
}

// Writes the answer to the group g, where b is the bill at its place, if notices are written, and says how long it is. A rejection comes with the number that stands
// behind BR, any number. (`writes` and no closure in its place: the length is told where nothing is written too, and a closure's contract would have to say what it
// writes at each place, as this one does. Seven parameters: `turn` alone calls it, and would alone make a struct of some of them.)
pub fn answer(
    out: &mut [u8],
    at: usize,
    writes: bool,
    g: &GroupAt,
    v: Result<Posted, u64>,
    b: Bill,
    h: LedgerHeader,
) -> usize
    requires in_file { g.now.records ≤ file_records }
    requires has_room { writes ≡ true → at + (g.now.records - g.now.header) * record_size ≤ length out.old }
    ensures { (out.new ≡ put out.old at (if_written writes (answer_at v h b (group_at g.now.file.now g.now.header g.now.records)))) × (result ≡ length (answer_at v h b (group_at g.now.file.now g.now.header g.now.records))) × (result ≤ (g.now.records - g.now.header) * record_size) }
{
    let today = h.today;
    let confirmation = h.confirmation;
    match v {
        Ok(_) => {
            if writes {
                write_acf(out, at, g, acf_of(b, h));
                return RECORD_SIZE;
            }
            RECORD_SIZE
        }
        Err(code) => {
            let k = file::detail_count(g);
            if writes {
                let x = Rej {
                    code,
                    today,
                    confirmation,
                };
                answers::rej::write(out, at, g.file, g.header, k, x);
                return (k + 1) * RECORD_SIZE;
            }
            (k + 1) * RECORD_SIZE
        }
    }
}
