//! Month dates: the dates of RFC 3164 (section 4.1.2), with a year or without one.
//!
//! **Rule.** The year may come after the day, as the Rust crate has it. A date is recognised by its letters and digits
//! alone, before anybody asks for its year. Nothing here allocates.
ghost use Rattle.std.specs.Prelude.{◌≡◌, IfSome, Option, MatchOption, chars};
ghost use Rattle.syslog_pieces.specs.Words.{Front, NoFront, Row, Text, shown, Reads, ReadsBytes, MonthDate};
ghost use Rattle.syslog_pieces.specs.Bodies.MonthReading as parts;
ghost use Rattle.syslog_pieces.specs.Timestamp.MonthDate as spec;

use syslog_text::text::{literal, number, past_colon, some_blanks};

/// The numbers that a month date shows. There may be no such date, as for `Feb 30`.
#[derive(Clone, Copy, Debug)]
pub struct MonthDate {
    /// The year; absent if the date shows none.
    pub year: Option<u32>,
    /// The month, from 1 to 12.
    pub month: u32,
    /// The day of the month.
    pub day: u32,
    /// The hour.
    pub hour: u32,
    /// The minute.
    pub minute: u32,
    /// The second.
    pub second: u32,
}

/// A month and the day of it.
#[derive(Clone, Copy)]
struct MonthDay {
    month: u32,
    day: u32,
}

/// The hour, the minute and the second.
#[derive(Clone, Copy)]
struct TimeOfDay {
    hour: u32,
    minute: u32,
    second: u32,
}

/// Returns the month date at the front, with a year or without one, and the rest of the text; none if no month date
/// begins it.
#[inline(always)]
pub fn month_date(text: &str) -> Option<(MonthDate, &str)>
    ensures { Reads spec.month_date (λ d. d) (chars text.now) result }
{
    let (day, rest) = read_day(text)?;
    match read_clock(rest) {
        Some((clock, after)) => Some((date_of(None, day, clock), after)),
        None => date_with_year(day, rest),
    }
}

// Returns what `dated` does. Its answer is taken apart here, since the space for it is cleared where this begins, and
// not for each text.
#[inline(always)]
fn date_with_year(day: MonthDay, text: &str) -> Option<(MonthDate, &str)>
    ensures { (whole : Text) → Front (Row parts.day_row) whole (chars text.now) (parts.day_values day)
        → NoFront (Row spec.clock_row) (chars text.now) → Reads spec.month_date (λ d. d) whole result }
{
    match dated(day, text) {
        Some((date, rest)) => Some((date, rest)),
        None => None,
    }
}

// Reads the rest of a month date with a year, whose month and day are before the text.
#[inline(never)]
fn dated(day: MonthDay, text: &str) -> Option<(MonthDate, &str)>
    ensures { (whole : Text) → Front (Row parts.day_row) whole (chars text.now) (parts.day_values day)
        → NoFront (Row spec.clock_row) (chars text.now) → Reads spec.month_date (λ d. d) whole result }
{
    let (year, rest) = number(text, 2_147_483_647)?;
    let rest = some_blanks(rest)?;
    let (clock, rest) = read_clock(rest)?;
    Some((date_of(Some(year), day, clock), rest))
}

fn date_of(year: Option<u32>, day: MonthDay, clock: TimeOfDay) -> MonthDate
    ensures { result ≡ parts.date_of year day clock }
{
    MonthDate {
        year,
        month: day.month,
        day: day.day,
        hour: clock.hour,
        minute: clock.minute,
        second: clock.second,
    }
}

// Reads the month and the day, and the blanks after each of them.
#[inline(always)]
fn read_day(text: &str) -> Option<(MonthDay, &str)>
    ensures { Reads (Row parts.day_row) parts.day_values (chars text.now) result }
{
    let (month, after_month) = read_month(text)?;
    let rest = some_blanks(after_month)?;
    let (day, rest) = number(rest, u32::MAX)?;
    let rest = some_blanks(rest)?;
    Some((MonthDay { month, day }, rest))
}

// Reads hour, minute and second, and the colon after them if there is one.
#[inline(always)]
fn read_clock(text: &str) -> Option<(TimeOfDay, &str)>
    ensures { MatchOption result
        (NoFront (Row spec.clock_row) (chars text.now))
        (λ x. (more : Option (Unit {0}))
        × Front (Row spec.clock_row) (chars text.now) (shown x.1) (parts.clock_values x.0 more)) }
{
    let (hour, rest) = number(text, u32::MAX)?;
    let rest = literal(rest, ':')?;
    let (minute, rest) = number(rest, u32::MAX)?;
    let rest = literal(rest, ':')?;
    let (second, rest) = number(rest, u32::MAX)?;
    let clock = TimeOfDay {
        hour,
        minute,
        second,
    };
    Some((clock, past_colon(rest)))
}

// Reads the name of a month, which has three letters in any case. Returns its number and the text after it.
#[inline(always)]
fn read_month(text: &str) -> Option<(u32, &str)>
    ensures { Reads spec.month (λ n. n) (chars text.now) result }
{
    let (number, after) = month(text.as_bytes())?;
    Some((number, text.split_at(text.len() - after.len()).1))
}

// Reads the name of a month at the front of bytes.
#[inline(always)]
fn month(bytes: &[u8]) -> Option<(u32, &[u8])>
    ensures { ReadsBytes spec.month (λ n. n) bytes.now result }
{
    match bytes {
        // Most texts that have no month begin with a digit.
        [a, b, c, rest @ ..] if *a >= b'A' => {
            let number = named_month(
                a.to_ascii_lowercase(),
                b.to_ascii_lowercase(),
                c.to_ascii_lowercase(),
            )?;
            Some((number, rest))
        }
        _ => None,
    }
}

// Returns the number of the month that three small letters name.
#[tactic(auto, unfolding(crate::specs::Bodies::MonthReading::small_month))]
#[inline(always)]
fn named_month(a: u8, b: u8, c: u8) -> Option<u32>
    ensures value { result ≡ parts.small_month a b c }
    ensures name { IfSome result (λ n. parts.IsNamed a b c n) }
{
    match (a, b, c) {
        (b'j', b'a', b'n') => Some(1),
        (b'f', b'e', b'b') => Some(2),
        (b'm', b'a', b'r') => Some(3),
        (b'a', b'p', b'r') => Some(4),
        (b'm', b'a', b'y') => Some(5),
        (b'j', b'u', b'n') => Some(6),
        (b'j', b'u', b'l') => Some(7),
        (b'a', b'u', b'g') => Some(8),
        (b's', b'e', b'p') => Some(9),
        (b'o', b'c', b't') => Some(10),
        (b'n', b'o', b'v') => Some(11),
        (b'd', b'e', b'c') => Some(12),
        _ => None,
    }
}
