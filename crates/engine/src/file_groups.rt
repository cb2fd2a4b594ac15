// A file's groups on a lent ledger: each decided, answered and posted in its place.
ghost use Rattle.std.specs.Prelude.{◌≡◌, true, ◌+◌, ◌-◌, ◌*◌, ◌≤◌, length};
ghost use Rattle.records.specs.Layout.{records_from};
ghost use Rattle.file.specs.File.{groups};
ghost use Rattle.group.specs.parts.Turns.{Ready, FitForTurn, TurnLeavesOn, FileTaken};
ghost use Rattle.records.specs.Limits.{record_size, file_records};

use group::Tally;
use places::holder::Holder;
use places::place;
use records::group::GroupAt;

// One group's turn: its bill found, the group decided and answered, and what that leaves stored.
fn turn<T: Holder>(
    lent: &mut [T],
    out: &mut [u8],
    writes: bool,
    c: Tally,
    g: &GroupAt,
    duplicate: bool,
) -> Tally
    requires in_file { (g.now.records ≤ file_records) × (writes ≡ true → c.written + (g.now.records - g.now.header) * record_size ≤ length out.old) }
    requires holds { (T.holds lent.old ≡ true) × FitForTurn (T.held lent.old) c }
    ensures { (T.holds lent.new ≡ true) × TurnLeavesOn g.now.file.now g.now.header g.now.records duplicate (T.held lent.old) c writes out.old (T.held lent.new) out.new result }
{
    let h = T::header(lent);
    let count = h.count;
    let f = place::find(lent, count, group::identity_at(g));
    let p = ledger::books::bill_place(f, count);
    let b = T::bill_at(lent, p);
    let x = group::turn(out, writes, c, g, duplicate, h, f, b);
    let u = x.update;
    place::update(lent, p, u);
    x.tally
}

// The groups of the first n records, in order, each on the ledger that the one before left. (n stands beside the bytes, as the definitions take records by number.)
pub fn take<T: Holder>(lent: &mut [T], out: &mut [u8], writes: bool, s: &[u8], n: usize) -> Tally
    requires file_fits { (n ≤ file_records) × (n * record_size ≤ length s.now) × (writes ≡ true → n * record_size ≤ length out.old) }
    requires holds { (T.holds lent.old ≡ true) × Ready (T.held lent.old) }
    ensures { (T.holds lent.new ≡ true) × FileTaken (T.held lent.old) (groups (records_from s.now 0 n)) writes out.old (T.held lent.new) out.new result }
{
    let marks = group::marks(s, n);
    let mut c = group::counts::none();
    for (header, duplicate) in marks[..n].iter().enumerate() {
        if file::header_at(s, header) {
            let g = GroupAt {
                file: s,
                records: n,
                header,
            };
            c = turn(lent, out, writes, c, &g, *duplicate);
        }
    }
    c
}
