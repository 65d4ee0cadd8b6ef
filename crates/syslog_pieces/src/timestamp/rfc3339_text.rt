//! The numbers that an RFC 3339 text writes, read at the front of a text, and the timestamp that they name.
//!
//! The text is ASCII, so its bytes are its characters: it is read byte by byte, from the left.
ghost use Rattle.std.specs.Prelude.{◌≡◌, ◌<◌, chars};
ghost use Rattle.syslog_pieces.specs.Words.{Reads, ReadsBytes, IsAnswer, IsStampOfRfc3339};
ghost use Rattle.syslog_pieces.specs.Bodies.Clock.{fields_of_rfc3339};
ghost use Rattle.syslog_pieces.specs.Timestamp.Rfc3339 as spec;

use super::ClockStamp;
use super::digits::{after_letter, four_digits, fraction, pair, pair_after};
use super::fields::CivilFields;
use super::instant::clock_stamp;
use jiff::tz::Offset;

/// The numbers of an RFC 3339 text as they are written; there may be no such date or time. The fraction is in
/// nanoseconds, the offset in seconds.
#[derive(Clone, Copy)]
pub struct Rfc3339Fields {
    pub year: u16,
    pub month: u32,
    pub day: u32,
    pub hour: u32,
    pub minute: u32,
    pub second: u32,
    pub nanosecond: u32,
    pub offset: i32,
}

/// Returns the timestamp that these numbers write, if its date and its offset exist.
pub fn stamp(written: Rfc3339Fields) -> Option<ClockStamp>
    ensures { IsAnswer (IsStampOfRfc3339 written) result }
{
    let offset = Offset::from_seconds(written.offset).ok()?;
    clock_stamp(fields_of(written), offset)
}

// Returns the civil fields. A leap second has no place of its own on the clock, so it counts as the second before.
fn fields_of(written: Rfc3339Fields) -> CivilFields
    ensures { result ≡ fields_of_rfc3339 written }
{
    CivilFields {
        year: i32::from(written.year),
        month: written.month,
        day: written.day,
        hour: written.hour,
        minute: written.minute,
        second: written.second.min(59),
        nanosecond: written.nanosecond,
    }
}

// The length of `YYYY-MM-DDTHH:MM:SSZ`: no text is shorter.
const LEAST: usize = 20;

/// Reads the numbers of a timestamp of RFC 3339 at the front of the text. Returns them and the text after them.
#[inline(always)]
pub fn read(text: &str) -> Option<(Rfc3339Fields, &str)>
    ensures { Reads spec.stamp_text (λ written. written) (chars text.now) result }
{
    let bytes = text.as_bytes();
    // With the length known, no piece looks for its end.
    if bytes.len() < LEAST {
        return None;
    }
    let (written, end) = numbers(bytes)?;
    Some((written, text.split_at(text.len() - end.len()).1))
}

#[inline(always)]
fn numbers(text: &[u8]) -> Option<(Rfc3339Fields, &[u8])>
    ensures { ReadsBytes spec.stamp_text (λ written. written) text.now result }
{
    let (year, rest) = four_digits(text)?;
    let (month, rest) = pair_after(rest, b'-', 100)?;
    let (day, rest) = pair_after(rest, b'-', 100)?;
    let rest = after_letter(rest, b'T')?;
    let (hour, rest) = pair(rest, 100)?;
    let (minute, rest) = pair_after(rest, b':', 100)?;
    let (second, rest) = pair_after(rest, b':', 61)?;
    let (nanosecond, rest) = fraction(rest)?;
    let (offset, rest) = offset(rest)?;
    let written = Rfc3339Fields {
        year,
        month,
        day,
        hour,
        minute,
        second,
        nanosecond,
        offset,
    };
    Some((written, rest))
}

// Reads `Z`, or a sign and `HH:MM`, in seconds.
#[inline(always)]
fn offset(text: &[u8]) -> Option<(i32, &[u8])>
    ensures { ReadsBytes spec.offset (λ seconds. seconds) text.now result }
{
    if let Some(rest) = after_letter(text, b'Z') {
        return Some((0, rest));
    }
    let (is_behind, rest) = sign(text)?;
    let (hours, rest) = pair(rest, 24)?;
    let (minutes, rest) = pair_after(rest, b':', 60)?;
    Some((seconds(is_behind, hours, minutes), rest))
}

// Returns hours and minutes in seconds, negative if the clock is slow of UTC.
fn seconds(is_behind: bool, hours: u32, minutes: u32) -> i32
    requires hours { hours < 24 }
    requires minutes { minutes < 60 }
    ensures { result ≡ spec.seconds_of (is_behind, (hours, (minutes, tt))) }
{
    let seconds = ((hours * 60 + minutes) * 60) as i32;
    if is_behind { -seconds } else { seconds }
}

// Reads `+` or `-`, and returns whether it is `-`.
#[inline(always)]
fn sign(text: &[u8]) -> Option<(bool, &[u8])>
    ensures { ReadsBytes spec.sign (λ behind. behind) text.now result }
{
    match text {
        [b'-', rest @ ..] => Some((true, rest)),
        [b'+', rest @ ..] => Some((false, rest)),
        _ => None,
    }
}
