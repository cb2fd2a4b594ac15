// What program `business_day` reads and prints: a date and a number as arguments, holidays one date a line, and the date worked out or the refusal.
#![tactic(auto)]

ghost use Rattle.std.specs.Prelude.{◌≡◌, ◌==◌, ◌+◌, ◌≤◌, length, take, drop, position};
ghost use Rattle.fields.specs.Put.{put};
ghost use Rattle.holidays.specs.Lines.{date_in, digit_in, holidays_of};
ghost use Rattle.holidays.specs.DayLine.{number_width, day_line, day_room, day_of};
ghost use Rattle.holidays.specs.parts.FirstLine.{first_line};

use rules::Cause;
use units::Date;

// The bytes of the longest line that is printed.
pub const DAY_ROOM: usize = 11;

// The number of 8 digits, 0 where the bytes are anything else. 0 here and 10 below, and no Option: the calendar refuses both, and the callers would put them for None.
fn date_in(line: &[u8]) -> u64
    ensures { result ≡ date_in line.now }
{
    if line.len() != 8 {
        return 0;
    }
    fields::read_digits(line).unwrap_or(0)
}

// The number of one digit, 10 where the bytes are anything else.
fn digit_in(argument: &[u8]) -> u64
    ensures { result ≡ digit_in argument.now }
{
    if argument.len() != 1 {
        return 10;
    }
    let x = argument[0];
    if !fields::is_digit(x) {
        return 10;
    }
    u64::from(x - b'0')
}

// The index of the first byte 10.
fn newline(s: &[u8]) -> Option<usize>
    ensures { result ≡ position (λ b. b == 10) s.now }
{
    s.iter().position(|b| *b == 10)
}

// Where the line from index `at` on ends: at its byte 10, or where the bytes end.
fn line_end(s: &[u8], at: usize) -> usize
    requires { at ≤ length s.now }
    ensures { result ≡ at + length (first_line (drop at s.now)) }
{
    let rest = &s[at..];
    at + newline(rest).unwrap_or(rest.len())
}

// Puts the dates of the lines into `holidays`, as many as it has room for, and answers how many it put: memory is fixed by a rule of the project, and what
// reads them takes a slice.
fn read_holidays(s: &[u8], holidays: &mut [u64]) -> usize
    ensures answer { result ≡ length (take (length holidays.old) (holidays_of s.now)) }
    ensures dates { holidays.new ≡ put holidays.old 0 (take (length holidays.old) (holidays_of s.now)) }
{
    let mut at = 0;
    for (n, holiday) in holidays.iter_mut().enumerate() {
        if s.len() <= at {
            return n;
        }
        let end = line_end(s, at);
        *holiday = date_in(&s[at..end]);
        at = end + 1;
    }
    holidays.len()
}

// How many digits the number of a cause has.
fn number_width(n: u64) -> usize
    ensures { result ≡ number_width n }
{
    if n < 10 { 1 } else { 2 }
}

// Writes the line of a date that was worked out, or of the refusal, and answers its length. (Not by `write!`: it would need a writer over the slice.)
// The room is a clause, and no array in the type: an array would ask more of who calls `print_day`.
fn put_day(out: &mut [u8], d: Result<Date, Cause>) -> usize
    requires { day_room ≤ length out.old }
    ensures answer { result ≡ length (day_line d) }
    ensures written { out.new ≡ put out.old 0 (day_line d) }
{
    match d {
        Ok(date) => {
            fields::put_digits(out, 0, 8, date.0);
            fields::put_bytes(out, 8, b"\n");
            9
        }
        Err(cause) => {
            let n = u64::from(cause);
            let width = number_width(n);
            fields::put_bytes(out, 0, b"stopped,");
            fields::put_digits(out, 8, width, n);
            fields::put_bytes(out, 8 + width, b"\n");
            9 + width
        }
    }
}

// What is worked out of the bytes of DATE and NUMBER, which go side by side (a struct of both would be taken apart here), and of the holidays' lines. One line more than the most is taken: so many are refused.
fn day_of(date: &[u8], number: &[u8], s: &[u8]) -> Result<Date, Cause>
    ensures { result ≡ day_of date.now number.now s.now }
{
    let mut holidays = [0u64; calendar::MOST_HOLIDAYS + 1];
    let n = read_holidays(s, &mut holidays);
    let start = Date(date_in(date));
    let further = digit_in(number);
    calendar::business_day(start, further, &holidays[..n])
}

// Writes the line that is printed for the bytes of DATE and NUMBER and the holidays' lines, and answers its length.
pub fn print_day(out: &mut [u8], date: &[u8], number: &[u8], s: &[u8]) -> usize
    requires { day_room ≤ length out.old }
    ensures answer { result ≡ length (day_line (day_of date.now number.now s.now)) }
    ensures written { out.new ≡ put out.old 0 (day_line (day_of date.now number.now s.now)) }
{
    let d = day_of(date, number, s);
    put_day(out, d)
}
