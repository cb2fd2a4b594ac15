// Fixed-width fields in lent bytes: digits for every width, parts of a slice, writes into a lent output. An output and an index go together: a lent part,
// `&mut out[at + 13..at + 13 + 4]` for `out, at + 13, 4`, would write the index twice, and each caller's contract would have to put the part back.
#![tactic(auto)]

ghost use Rattle.std.specs.Prelude.{◌≡◌, ◌+◌, ◌≤◌, length};
ghost use Rattle.fields.specs.Digits.{digits, is_digit, numeric};
ghost use Rattle.fields.specs.Put.{put, part, filled, same_list, holds};
ghost use Rattle.fields.specs.Field.{field_of};

// Writes the `width` lowest digits of n into out from index `at` on.
pub fn put_digits(out: &mut [u8], at: usize, width: usize, n: u64)
    requires { at + width ≤ length out.old }
    ensures { out.new ≡ put out.old at (digits width n) }
{
    let mut m = n;
    // From the last digit, which `% 10` gives first: the one to write is the i-th, by its index. By `as`, which is proved to keep the digit: `try_from` would want
    // an answer for what is no byte.
    for i in (0..width).rev() {
        out[at + i] = (48 + m % 10) as u8;
        m = m / 10;
    }
}

// How many bytes `put_bytes` moves at once: by way of an array, so that LLVM moves them as words. One copy of a long part is a call of `memmove`, which an archive
// for C would then need from outside.
const PIECE: usize = 32;

// Writes src into out from index `at` on: whole pieces, and then what is left.
pub fn put_bytes(out: &mut [u8], at: usize, src: &[u8])
    requires { at + length src.now ≤ length out.old }
    ensures { out.new ≡ put out.old at src.now }
{
    let whole = src.len() / PIECE;
    for k in 0..whole {
        let i = k * PIECE;
        let mut piece = [0u8; PIECE];
        piece.copy_from_slice(&src[i..i + PIECE]);
        out[at + i..at + i + PIECE].copy_from_slice(&piece);
    }
    let i = whole * PIECE;
    out[at + i..at + src.len()].copy_from_slice(&src[i..]);
}

// Writes n bytes of src from index `from` on into out from index `at` on.
pub fn put_part(out: &mut [u8], at: usize, src: &[u8], from: usize, n: usize)
    requires has_room { at + n ≤ length out.old }
    requires in_source { from + n ≤ length src.now }
    ensures { out.new ≡ put out.old at (part src.now from n) }
{
    put_bytes(out, at, &src[from..from + n]);
}

// Writes the byte b `width` times into out from index `at` on.
pub fn put_fill(out: &mut [u8], at: usize, width: usize, b: u8)
    requires { at + width ≤ length out.old }
    ensures { out.new ≡ put out.old at (filled width b) }
{
    out[at..at + width].fill(b);
}

// Whether a code is that of a digit.
pub fn is_digit(x: u8) -> bool
    ensures { result ≡ is_digit x }
{
    x.is_ascii_digit()
}

// What a whole slice holds as a field: a number, where it holds digits only. Nineteen digits always fit a u64.
pub fn read_digits(f: &[u8]) -> Option<u64>
    requires { length f.now ≤ 19 }
    ensures { result ≡ field_of f.now }
{
    let mut n: u64 = 0;
    for &x in f {
        if !is_digit(x) {
            return None;
        }
        n = n * 10 + u64::from(x - b'0');
    }
    Some(n)
}

// Reads the field of `width` bytes from index `at` on.
pub fn read_field(s: &[u8], at: usize, width: usize) -> Option<u64>
    requires { (at + width ≤ length s.now) × (width ≤ 19) }
    ensures { result ≡ field_of (part s.now at width) }
{
    read_digits(&s[at..at + width])
}

// Whether the `width` bytes of s from index `at` on are digits only.
pub fn is_numeric(s: &[u8], at: usize, width: usize) -> bool
    requires { (at + width ≤ length s.now) × (width ≤ 19) }
    ensures { result ≡ numeric (part s.now at width) }
{
    read_field(s, at, width).is_some()
}

// Whether n bytes of a from index i on are those of b from index j on.
pub fn same_part(a: &[u8], i: usize, b: &[u8], j: usize, n: usize) -> bool
    requires in_first { i + n ≤ length a.now }
    requires in_second { j + n ≤ length b.now }
    ensures { result ≡ same_list (part a.now i n) (part b.now j n) }
{
    a[i..i + n] == b[j..j + n]
}

// Whether s holds `text` from index `at` on.
pub fn is_text(s: &[u8], at: usize, text: &[u8]) -> bool
    requires { at + length text.now ≤ length s.now }
    ensures { result ≡ holds s.now at text.now }
{
    same_part(s, at, text, 0, text.len())
}

// Whether the `width` bytes of s from index `at` on are the lowest digits of n.
pub fn is_digits(s: &[u8], at: usize, width: usize, n: u64) -> bool
    requires { at + width ≤ length s.now }
    ensures { result ≡ same_list (part s.now at width) (digits width n) }
{
    let mut m = n;
    // From the last digit by an index, and by `as`, as in `put_digits`.
    for i in (0..width).rev() {
        if s[at + i] != (48 + m % 10) as u8 {
            return false;
        }
        m = m / 10;
    }
    true
}
