//! The dates that senders show.
//!
//! **Rule.** A month date may be followed by a fraction (`.123`, `,123`, or `:123` as H3C writes), a zone (`zone`) and
//! a year. A date of RFC 3339 may have a space for its `T`, a comma for its dot, and months and days of one digit. Its
//! offset may lack the colon or the minutes, be the name of a zone, or be absent. Second 60 counts as 59 there, as the
//! port has it.
ghost use Rattle.std.specs.Prelude.{◌≡◌, ◌<◌, chars, ℕ, Option, false, MatchBool, option_map, true};
ghost use Rattle.syslog_text.specs.Pieces.Class.{Ends, Front, Row, after, optional};
ghost use Rattle.syslog_text.specs.Pieces.View.{Reads, Recognises, Skips, shown};
ghost use Rattle.syslog_text.specs.Text.{number as any_number};
ghost use Rattle.syslog_sent.specs.DateViews.{bsd_values, iso_values};
ghost use Rattle.std.specs.Char.{is_ascii_digit, is_not_whitespace};
ghost use Rattle.syslog_sent.specs.Named.{BeginsWith};
ghost use Rattle.syslog_sent.specs.Zone.{zone as any_zone};
ghost use Rattle.syslog_sent.specs.Date as spec;

use crate::sent::SentDate;
use crate::zone::{bare_word, begins_with_capital, has_shape, is_one_of, zone};
use syslog_pieces::timestamp::MonthDate;
use syslog_pieces::timestamp::month_date::month_date;
use syslog_pieces::timestamp::pairs::{decimals, pair, pair_after, year};
use syslog_text::text::{first, literal, number};

/// A month date, and what follows it: a fraction in nanoseconds, a zone with its offset where that is known, and a
/// year.
#[derive(Clone, Copy)]
pub struct BsdDate {
    date: MonthDate,
    nanosecond: Option<u32>,
    zone: Option<Option<i32>>,
    year: Option<u16>,
}

/// The numbers of a date that is nearly one of RFC 3339.
#[derive(Clone, Copy)]
struct IsoDate {
    year: u16,
    month: u32,
    day: u32,
    hour: u32,
    minute: u32,
    second: u32,
    nanosecond: Option<u32>,
    zone: Option<Option<i32>>,
}

// Returns the text after a dot or a comma.
fn point(text: &str) -> Option<&str>
    ensures { Recognises spec.point (chars text.now) result }
{
    match literal(text, '.') {
        Some(rest) => Some(rest),
        None => literal(text, ','),
    }
}

// Returns the text after a dot or a comma, and all of it if it begins with neither.
fn past_point(text: &str) -> &str
    ensures { (v : (optional spec.point).Value) × Front (optional spec.point) (chars text.now) (shown result) v }
{
    match point(text) {
        Some(rest) => rest,
        None => text,
    }
}

/// Returns the fraction at the front, in nanoseconds, and the text after it. A fraction is a dot or a comma, and
/// decimals.
#[inline(always)]
pub fn fraction(text: &str) -> Option<(u32, &str)>
    ensures { Reads spec.fraction (λ n. n) (chars text.now) result }
{
    let rest = point(text)?;
    decimals(rest)
}

/// Returns the fraction at the front in nanoseconds, if there is one, and the text after it.
#[inline(always)]
pub fn optional_fraction(text: &str) -> (Option<u32>, &str)
    ensures { Front (optional spec.fraction) (chars text.now) (shown result.1) result.0 }
{
    match fraction(text) {
        Some((nanosecond, rest)) => (Some(nanosecond), rest),
        None => (None, text),
    }
}

// Whether a digit begins the text. No decimals begin otherwise, so few texts are read further.
#[inline(always)]
fn begins_digit(text: &str) -> bool
    ensures { MatchBool result (BeginsWith is_ascii_digit (chars text.now))
        (BeginsWith is_ascii_digit (chars text.now) → ⊥) }
{
    match first(text) {
        Some((c, _)) => c.is_ascii_digit(),
        None => false,
    }
}

// Returns the decimals after a month date, in nanoseconds, and the text after them. A digit right after the seconds is
// only there if the date ends in a colon, as H3C writes.
#[inline(always)]
fn late_fraction(text: &str) -> Option<(u32, &str)>
    ensures { Reads spec.late_fraction (λ n. n) (chars text.now) result }
{
    let digits = past_point(text);
    if !begins_digit(digits) {
        return None;
    }
    decimals(digits)
}

#[inline(always)]
fn optional_late_fraction(text: &str) -> (Option<u32>, &str)
    ensures { Front (optional spec.late_fraction) (chars text.now) (shown result.1) result.0 }
{
    match late_fraction(text) {
        Some((nanosecond, rest)) => (Some(nanosecond), rest),
        None => (None, text),
    }
}

/// Returns the zone at the front, if there is one, and the text after it.
#[inline(always)]
pub fn optional_zone(text: &str) -> (Option<Option<i32>>, &str)
    ensures { Front (optional any_zone) (chars text.now) (shown result.1) result.0 }
{
    match zone(text) {
        Some((offset, rest)) => (Some(offset), rest),
        None => (None, text),
    }
}

// Whether the text is empty or begins with white space.
#[inline(always)]
fn ends_run(text: &str) -> bool
    ensures { MatchBool result (Ends is_not_whitespace (chars text.now))
        (Ends is_not_whitespace (chars text.now) → ⊥) }
{
    match first(text) {
        Some((c, _)) => c.is_whitespace(),
        None => true,
    }
}

// Whether a year has ended before the text. A colon and a word after it are an address of IPv6, as `2001:db8::12`.
// It is a call of its own, since few dates have a year there.
#[inline(never)]
fn is_over(text: &str) -> bool
    ensures { MatchBool result (spec.IsOver (chars text.now)) (spec.IsOver (chars text.now) → ⊥) }
{
    match first(text) {
        Some((':', rest)) => ends_run(rest),
        _ => ends_run(text),
    }
}

// Returns a year that nothing goes on from, and the text after it.
#[inline(always)]
fn whole_year(text: &str) -> Option<(u16, &str)>
    ensures { Reads spec.whole_year (λ y. y) (chars text.now) result }
{
    let (year, rest) = year(text)?;
    is_over(rest).then_some((year, rest))
}

// Returns a year after a space, and the text after it.
#[inline(always)]
fn year_after(text: &str) -> Option<(u16, &str)>
    ensures { Reads spec.year_after (λ y. y) (chars text.now) result }
{
    let rest = literal(text, ' ')?;
    whole_year(rest)
}

#[inline(always)]
fn optional_year(text: &str) -> (Option<u16>, &str)
    ensures { Front (optional spec.year_after) (chars text.now) (shown result.1) result.0 }
{
    match year_after(text) {
        Some((year, rest)) => (Some(year), rest),
        None => (None, text),
    }
}

impl BsdDate {
    /// Returns whether nothing follows the month date.
    pub fn is_plain(&self) -> bool
        ensures { result ≡ spec.is_plain (bsd_values self.now) }
    {
        self.nanosecond.is_none() && self.zone.is_none() && self.year.is_none()
    }

    /// Returns the date in the year and the zone that are shown.
    #[inline(always)]
    pub fn sent(self) -> SentDate
        ensures { result ≡ spec.bsd_of (bsd_values self) }
    {
        let date = match self.year {
            Some(year) => MonthDate {
                year: Some(u32::from(year)),
                ..self.date
            },
            None => self.date,
        };
        SentDate {
            date,
            nanosecond: self.nanosecond.unwrap_or(0),
            offset: self.zone.flatten(),
        }
    }
}

/// Returns the month date at the front, with what follows it, and the text after these.
#[inline(always)]
pub fn bsd(text: &str) -> Option<(BsdDate, &str)>
    ensures { Reads (Row spec.bsd_row) bsd_values (chars text.now) result }
{
    let (date, rest) = month_date(text)?;
    let (nanosecond, rest) = optional_late_fraction(rest);
    let (zone, rest) = optional_zone(rest);
    let (year, rest) = optional_year(rest);
    let shown = BsdDate {
        date,
        nanosecond,
        zone,
        year,
    };
    Some((shown, rest))
}

/// Returns the month date at the front, and the text after it.
pub fn bsd_date(text: &str) -> Option<(SentDate, &str)>
    ensures { Reads spec.bsd_date (λ d. d) (chars text.now) result }
{
    let (date, rest) = bsd(text)?;
    Some((date.sent(), rest))
}

// Returns the text after a `T` or a space.
fn middle(text: &str) -> Option<&str>
    ensures { Skips spec.middle tt (chars text.now) result }
{
    match literal(text, 'T') {
        Some(rest) => Some(rest),
        None => literal(text, ' '),
    }
}

// Returns a number after a dash, and the text after it.
#[inline(always)]
fn dashed(text: &str) -> Option<(u32, &str)>
    ensures { Reads (after 45 (any_number 99)) (λ n. n) (chars text.now) result }
{
    let rest = literal(text, '-')?;
    number(rest, 99)
}

// Returns a number after a slash, and the text after it.
fn slashed(text: &str) -> Option<(u32, &str)>
    ensures { Reads (after 47 (any_number 99)) (λ n. n) (chars text.now) result }
{
    let rest = literal(text, '/')?;
    number(rest, 99)
}

// Returns a month or a day after a dash or a slash, and the text after it.
#[inline(always)]
fn date_part(text: &str) -> Option<(u32, &str)>
    ensures { Reads spec.date_part (λ n. n) (chars text.now) result }
{
    match dashed(text) {
        Some(read) => Some(read),
        None => slashed(text),
    }
}

impl IsoDate {
    #[inline(always)]
    fn sent(self) -> SentDate
        ensures { result ≡ spec.iso_of (iso_values self) }
    {
        let date = MonthDate {
            year: Some(u32::from(self.year)),
            month: self.month,
            day: self.day,
            hour: self.hour,
            minute: self.minute,
            second: self.second.min(59),
        };
        SentDate {
            date,
            nanosecond: self.nanosecond.unwrap_or(0),
            offset: self.zone.flatten(),
        }
    }
}

// Returns the date at the front that is nearly one of RFC 3339, and the text after it.
fn iso(text: &str) -> Option<(IsoDate, &str)>
    ensures { Reads (Row spec.iso_row) iso_values (chars text.now) result }
{
    let (year, rest) = year(text)?;
    let (month, rest) = date_part(rest)?;
    let (day, rest) = date_part(rest)?;
    let rest = middle(rest)?;
    let (hour, rest) = pair(rest, 100)?;
    let (minute, rest) = pair_after(rest, ':', 100)?;
    let (second, rest) = pair_after(rest, ':', 61)?;
    let (nanosecond, rest) = optional_fraction(rest);
    let (zone, rest) = optional_zone(rest);
    let shown = IsoDate {
        year,
        month,
        day,
        hour,
        minute,
        second,
        nanosecond,
        zone,
    };
    Some((shown, rest))
}

/// Returns the date at the front that is nearly one of RFC 3339, as a line shows it, and the text after it.
pub fn iso_date(text: &str) -> Option<(SentDate, &str)>
    ensures { Reads spec.iso_date (λ d. d) (chars text.now) result }
{
    let (date, rest) = iso(text)?;
    Some((date.sent(), rest))
}

/// Returns the date at the front in any of the forms, and the text after it.
pub fn any_date(text: &str) -> Option<(SentDate, &str)>
    ensures { Reads spec.any_date (λ d. d) (chars text.now) result }
{
    match bsd_date(text) {
        Some(read) => Some(read),
        None => iso_date(text),
    }
}

const DAYS: [&str; 7] = ["Mon", "Tue", "Wed", "Thu", "Fri", "Sat", "Sun"];

fn is_day(word: &str) -> bool
    ensures { MatchBool result (spec.IsDay (chars word.now)) (spec.IsDay (chars word.now) → ⊥) }
{
    if !has_shape(word.as_bytes()) {
        return false;
    }
    is_one_of(&DAYS, word)
}

/// Returns the text after the day of the week, if that begins it.
#[inline(always)]
pub fn weekday(text: &str) -> Option<&str>
    ensures { Recognises spec.weekday (chars text.now) result }
{
    if !begins_with_capital(text) {
        return None;
    }
    let (day, rest) = bare_word(text)?;
    if !is_day(day) {
        return None;
    }
    Some(rest)
}
