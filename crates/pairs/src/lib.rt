// Line 3: the groups of a file that have another of the same code, account and Bill Key.
#![tactic(auto)]

ghost use Rattle.std.specs.Prelude.{◌≡◌, true, false, ℕ, ◌+◌, ◌*◌, ◌≤◌, ◌<◌, length, get_or};
ghost use Rattle.records.specs.Limits.{record_size, file_records};
ghost use Rattle.file.specs.parts.Walk.{group_at, mark_at};
ghost use Rattle.pairs.specs.parts.GroupNumbers.{code_number, named_by, group_number, number_at, number_slot};

use records::group::{self, GroupAt, GroupRecords};
use records::{FILE_RECORDS, Notification, layout};
use rules::ErrorCode;

// A form's Notification Code as a number, 0 for none.
fn code_number(form: Result<Notification, ErrorCode>) -> u64
    ensures { (result ≡ code_number form) × (result ≤ 2) }
{
    match form {
        Err(_) => 0,
        Ok(Notification::Response) => 1,
        Ok(Notification::Supplement) => 2,
    }
}

// The code, account and Bill Key of a group as one number, and no struct in an Option: by a struct with the derived equality the walk over 100 groups of which each
// has its equal 50 groups away takes 23.2 us, and by numbers, which stood here before, 6.8 (both walks in Rust, compiled by LLVM).
fn named(r: &GroupRecords, code: u64) -> u64
    requires { code ≤ 2 }
    ensures { result ≡ named_by r.now.header.now r.now.detail.now code }
{
    let account = layout::ACCOUNT.number(r.header).unwrap_or(0);
    let key = layout::KEY.number(r.detail).unwrap_or(0);
    code * 10000000000000000 + (account * 10000 + key)
}

// The number of a group, 0 where it fails line 1 or 2.
fn group_number(g: &GroupAt) -> u64
    ensures { result ≡ group_number (group_at g.now.file.now g.now.header g.now.records) }
{
    let form = file::form_at(g);
    let code = code_number(form);
    if code == 0 {
        return 0;
    }
    named(&group::group_records(g.file, g.header), code)
}

// The number of record i, 0 where it is no header.
fn number_at(s: &[u8], i: usize, n: usize) -> u64
    requires { (i < n) × (n * record_size ≤ length s.now) }
    ensures { result ≡ number_at s.now n i }
{
    if file::header_at(s, i) {
        return group_number(&GroupAt {
            file: s,
            records: n,
            header: i,
        });
    }
    0
}

// The numbers of the records of a file. (Its clause stands here, in `duplicates` and in group `marks`: GroupAt asks for an index, which none of them has, and a
// struct of s and n alone would be made for these three and taken apart in each.)
fn group_numbers(s: &[u8], n: usize) -> [u64; FILE_RECORDS]
    requires { (n ≤ file_records) × (n * record_size ≤ length s.now) }
    ensures { (length result ≡ file_records) × ((k : ℕ) → k < n → get_or result k 0 ≡ number_at s.now n k) }
{
    let mut r = [0u64; FILE_RECORDS];
    for (i, number) in r[..n].iter_mut().enumerate() {
        *number = number_at(s, i, n);
    }
    r
}

// The slot of a number. (Rust has no `From` of a u64 for usize: the cast loses nothing, since the rest is below 509.)
fn slot(number: u64) -> usize
    ensures { (result ≡ number_slot number) × (result < 509) }
{
    (number % 509) as usize
}

// The slots that the numbers of two records share: two equal numbers always do. (Sets as arrays of fixed size: there is no heap.)
fn shared_slots<'a>(numbers: &'a [u64; FILE_RECORDS], n: usize) -> [bool; 509]
    requires { (n ≤ file_records) × (length numbers.now ≡ file_records) }
    ensures { (length result ≡ 509) × ((j k : ℕ) → j < n → k < n → (j ≡ k → ⊥) → get_or numbers.now j 0 ≡ get_or numbers.now k 0 → get_or result (number_slot (get_or numbers.now k 0)) false ≡ true) }
{
    let mut once = [false; 509];
    let mut twice = [false; 509];
    for &own in &numbers[..n] {
        let h = slot(own);
        let before = once[h];
        let again = twice[h];
        twice[h] = again | before;
        once[h] = true;
    }
    twice
}

// The headers of groups that get BR14: the walk over the others of a group is left at the first match, and not begun where no other can match.
pub fn duplicates(s: &[u8], n: usize) -> [bool; FILE_RECORDS]
    requires { (n ≤ file_records) × (n * record_size ≤ length s.now) }
    ensures { ((k : ℕ) → k < n → get_or result k false ≡ mark_at s.now n k) × ((k : ℕ) → n ≤ k → get_or result k false ≡ false) }
{
    let numbers = group_numbers(s, n);
    let shared = shared_slots(&numbers, n);
    let mut marks = [false; FILE_RECORDS];
    for (i, &own) in numbers[..n].iter().enumerate() {
        let h = slot(own);
        let met = shared[h];
        if (own != 0) & met {
            'others: for (j, &other) in numbers[..n].iter().enumerate() {
                if (other == own) & (j != i) {
                    marks[i] = true;
                    break 'others;
                }
            }
        }
    }
    marks
}
