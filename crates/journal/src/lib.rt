// Journal entries: what stands at the start of some bytes.
#![tactic(auto)]

ghost use Rattle.std.specs.Prelude.{◌≡◌, true, ◌+◌, ◌-◌, ◌*◌, ◌≤◌, ◌<◌, length, get_or};
ghost use Rattle.fields.specs.Put.{part, put};
ghost use Rattle.journal.specs.declared.Body.TheVariants as body;
ghost use Rattle.journal.specs.Journal.{ends_bad};
ghost use Rattle.journal.specs.parts.Fields.{identity_field_of, body_or};
ghost use Rattle.journal.specs.Entries.{fresh_body, request_body, cancel_body, close_body, removal_body, body_of, good_length, in_turn, whole_of, head_by, head_of, frame_of};

use causes::{AccountRemoval, Request, Start};
use ledger::Identity;
use records::layout;
use units::{Ccf, Date};

// How many entries a journal has at most.
pub const ENTRY_LIMIT: u64 = 1000000000;

// What an entry's body holds. Unread: a field that should be digits is not, so the call is refused with 2.
#[derive(Clone, Copy)]
pub enum Body {
    Fresh(Start),
    Request(Request),
    File,
    Cancel(Identity),
    Close(Date),
    Removal(AccountRemoval),
    Unread,
}

// What stands at the start of some bytes: too few of them, a bad entry, or a whole entry and how many bytes it has.
#[derive(Clone, Copy)]
pub enum Head {
    Cut,
    Bad,
    Whole(Body, usize),
}

// An entry by its tag and the length of its body alone.
#[derive(Clone, Copy)]
pub struct Frame {
    pub tag: u8,
    pub length: usize,
}

// Reads the account from index `at` on, and the key behind it: the identity, where both hold digits only.
fn read_identity(s: &[u8], at: usize) -> Option<Identity>
    requires { at + 16 ≤ length s.now }
    ensures { result ≡ identity_field_of (part s.now at 12) (part s.now (at + 12) 4) }
{
    let account = fields::read_field(s, at, layout::ACCOUNT.width)?;
    let key = fields::read_field(s, at + layout::ACCOUNT.width, layout::KEY.width)?;
    Some(Identity { account, key })
}

// What the body of a fresh holds: today, Tracking, Confirmation; none, here and below, where a field that should be digits is not. (No Option of a `Body`: what is
// taken out of one is moved as the largest body is, its padding too, and a load waits for the stores that it spans.)
fn fresh_body(s: &[u8]) -> Option<Start>
    requires { 26 ≤ length s.now }
    ensures { body_or body.Fresh result ≡ fresh_body s.now }
{
    let today = fields::read_field(s, 0, 8)?;
    let tracking = fields::read_field(s, 8, 9)?;
    let confirmation = fields::read_field(s, 17, 9)?;
    Some(Start {
        today: Date(today),
        tracking,
        confirmation,
    })
}

// That of a request: code, account, key, B or P, Billing, From, consumption, Scheduled.
fn request_body(s: &[u8]) -> Option<Request>
    requires { 56 ≤ length s.now }
    ensures { body_or body.Request result ≡ request_body s.now }
{
    let identity = read_identity(s, 5)?;
    let billing = fields::read_field(s, 22, 8)?;
    let from = fields::read_field(s, 30, 8)?;
    let consumption = fields::read_field(s, 38, 10)?;
    let scheduled = fields::read_field(s, 48, 8)?;
    Some(Request {
        code: causes::code_field(s),
        identity,
        product: s[21],
        billing: Date(billing),
        from: Date(from),
        consumption: Ccf(consumption),
        scheduled: Date(scheduled),
    })
}

// That of a cancel: account, key.
fn cancel_body(s: &[u8]) -> Option<Identity>
    requires { 16 ≤ length s.now }
    ensures { body_or body.Cancel result ≡ cancel_body s.now }
{
    read_identity(s, 0)
}

// That of a close: the new today.
fn close_body(s: &[u8]) -> Option<Date>
    requires { 8 ≤ length s.now }
    ensures { body_or body.Close result ≡ close_body s.now }
{
    let today = fields::read_field(s, 0, 8)?;
    Some(Date(today))
}

// That of a removal: account, date.
fn removal_body(s: &[u8]) -> Option<AccountRemoval>
    requires { 20 ≤ length s.now }
    ensures { body_or body.Removal result ≡ removal_body s.now }
{
    let account = fields::read_field(s, 0, layout::ACCOUNT.width)?;
    let date = fields::read_field(s, layout::ACCOUNT.width, 8)?;
    Some(AccountRemoval {
        account,
        date: Date(date),
    })
}

// Whether an entry with this tag may have this length.
// A tag stays the document's number, here and in room, tracing and trace_lines: a byte may be none of the six, and a line of `trace` names an entry by its byte
// where its body is not read.
fn good_length(tag: u8, n: usize) -> bool
    ensures { result ≡ good_length tag n }
{
    match tag {
        0 => n == 26,
        1 => n == 56,
        2 => n <= records::FILE_SIZE,
        3 => n == 16,
        4 => n == 8,
        5 => n == 20,
        _ => false,
    }
}

// Tag 0 stands first and nowhere else.
fn in_turn(seen: u64, tag: u8) -> bool
    ensures { result ≡ in_turn seen tag }
{
    if seen == 0 {
        return tag == 0;
    }
    tag != 0
}

// A refused fresh counts as a bad entry.
fn fresh_head(b: Body, end: usize) -> Head
    ensures { result ≡ whole_of 0 b end }
{
    let Body::Fresh(start) = b else {
        return Head::Bad;
    };
    let check = causes::checks::fresh_check(start);
    match check {
        Err(_) => Head::Bad,
        Ok(()) => Head::Whole(b, end),
    }
}

// An entry with this tag and length whose bytes are all there. Each head is made where its body is read.
fn whole_at(s: &[u8], tag: u8, n: usize) -> Head
    requires { (good_length tag n ≡ true) × (n + 3 ≤ length s.now) }
    ensures { result ≡ whole_of tag (body_of tag (part s.now 3 n)) (n + 3) }
{
    let end = n + 3;
    let body = &s[3..end];
    match tag {
        0 => fresh_head(fresh_body(body).map_or(Body::Unread, Body::Fresh), end),
        1 => Head::Whole(request_body(body).map_or(Body::Unread, Body::Request), end),
        2 => Head::Whole(Body::File, end),
        3 => Head::Whole(cancel_body(body).map_or(Body::Unread, Body::Cancel), end),
        4 => Head::Whole(close_body(body).map_or(Body::Unread, Body::Close), end),
        _ => Head::Whole(removal_body(body).map_or(Body::Unread, Body::Removal), end),
    }
}

// An entry with this tag and length, after so many entries.
fn head_by(s: &[u8], seen: u64, tag: u8, n: usize) -> Head
    requires { n < 65536 }
    ensures { result ≡ head_by seen s.now tag n }
{
    let good = (seen < ENTRY_LIMIT) & in_turn(seen, tag) & good_length(tag, n);
    if !good {
        return Head::Bad;
    }
    if s.len() < n + 3 {
        return Head::Cut;
    }
    whole_at(s, tag, n)
}

// The length that the entry at the start of s says its body has.
fn length_at(s: &[u8]) -> usize
    requires { 3 ≤ length s.now }
    ensures { (result ≡ get_or s.now 1 0 * 256 + get_or s.now 2 0) × (result < 65536) }
{
    usize::from(u16::from_be_bytes([s[1], s[2]]))
}

// What stands at the start of s, after so many entries.
pub fn head_at(s: &[u8], seen: u64) -> Head
    ensures { result ≡ head_of seen s.now }
{
    if s.len() < 3 {
        return Head::Cut;
    }
    head_by(s, seen, s[0], length_at(s))
}

// What stands at the start of s by its tag and length alone: whoever only looks for the entries reads no digits.
pub fn frame_at(s: &[u8]) -> Option<Frame>
    ensures { result ≡ frame_of s.now }
{
    if s.len() < 3 {
        return None;
    }
    let tag = s[0];
    let length = length_at(s);
    let whole = good_length(tag, length) & (length + 3 <= s.len());
    if !whole {
        return None;
    }
    Some(Frame { tag, length })
}

// Moves the bytes from index `from` up to n to the start, and answers how many there are.
pub fn keep(buf: &mut [u8], from: usize, n: usize) -> usize
    requires { (from ≤ n) × (n ≤ length buf.old) }
    ensures { (result ≡ n - from) × (buf.new ≡ put buf.old 0 (part buf.old from (n - from))) }
{
    buf.copy_within(from..n, 0);
    n - from
}

// Whether a journal ended bad: a bad entry stopped it, bytes are left (an entry cut short), or it held no entry.
pub fn ends_bad(stopped: bool, left: usize, seen: u64) -> bool
    ensures { result ≡ ends_bad stopped left seen }
{
    stopped | (0 < left) | (seen == 0)
}
