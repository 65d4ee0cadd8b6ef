//! The year and the zone of dates that show none.
//!
//! The programs and the library for C use it, so that all of them complete such dates in one way.
ghost use Rattle.std.specs.Prelude.{◌≡◌, ◌↔◌, ◌+ℤ◌, IsTrue, None, pos, ℕ, ℤ};
ghost use Rattle.jiff.specs.{Placed.IsPosixZone, Words.epoch_day, Words.read_whole};
ghost use Rattle.syslog_loose.specs.Words.{MatchOption, plain_zone, IsOffsetSeconds, IsYear};
ghost use Rattle.syslog_loose.specs.Reckoning.{IsDateBy, IsYearOnDay, IsZoneAt, reckoned_year};

use crate::variant::IncompleteDate;
use jiff::civil::Date;
use jiff::tz::{Offset, TimeZone};

/// The year that is returned for a date that no year has. The calendar does not have it.
const NO_YEAR: i32 = 10_000;

/// How many years are tried, the last one first: the latest 29 February may lie eight years back.
const YEARS: usize = 9;

/// Returns the year of a date that shows none, from the current year and, if it is known, the current month: in January
/// a date of December is of the year before. It is meant as the body of a `get_year`, for years from -9999 to 9999.
#[inline]
pub fn reckon_year(year: i32, month: Option<u32>, date: IncompleteDate) -> i32
    ensures { IsYear year → result ≡ reckoned_year year month date }
{
    if month == Some(1) && date.0 == 12 {
        year.saturating_sub(1)
    } else {
        year
    }
}

/// Returns the year of a date that shows none, from the current day: the last year that puts the date no more than a
/// day past that day; 10,000 if there is none, as for `Feb 30`. It is meant as the body of a `get_year`.
#[inline(never)]
pub fn latest_year(day: Date, date: IncompleteDate) -> i32
    ensures { IsYearOnDay day date result }
{
    let limit = day_after(day);
    let mut year = limit.year();
    for _ in 0..YEARS {
        if is_by(limit, year, date.0, date.1) {
            return i32::from(year);
        }
        year -= 1;
    }
    NO_YEAR
}

// Returns the day after this one; this one, if it is the calendar's last.
fn day_after(day: Date) -> Date
    ensures { (year : ℤ) (month number : ℕ) → IsDateBy (epoch_day result) year month number
        ↔ IsDateBy (epoch_day day +ℤ pos 1) year month number }
{
    match day.tomorrow() {
        Ok(next) => next,
        Err(_) => day,
    }
}

// Returns whether the calendar has this date, on the limit or before it.
fn is_by(limit: Date, year: i16, month: u32, day: u32) -> bool
    ensures { IsTrue result ↔ IsDateBy (epoch_day limit) year month day }
{
    let (Ok(month), Ok(day)) = (i8::try_from(month), i8::try_from(day)) else {
        return false;
    };
    match Date::new(year, month, day) {
        Ok(date) => date <= limit,
        Err(_) => false,
    }
}

/// Returns the zone that is always this many seconds ahead of UTC; none if they are more than 25:59:59 either way.
pub fn zone_ahead(seconds: i32) -> Option<TimeZone<'static>>
    ensures { MatchOption result (¬ (IsOffsetSeconds seconds))
        (λ zone. IsOffsetSeconds seconds × IsZoneAt seconds (plain_zone zone)) }
{
    match Offset::from_seconds(seconds) {
        Ok(offset) => Some(TimeZone::fixed(offset)),
        Err(_) => None,
    }
}

/// Returns the zone of a POSIX rule, as `CET-1CEST,M3.5.0,M10.5.0/3`; none if the text is no such rule.
pub fn zone_of_rule(rule: &str) -> Option<TimeZone<'static>>
    ensures { MatchOption result (read_whole rule.now ≡ None) (λ zone. IsPosixZone rule.now (plain_zone zone)) }
{
    TimeZone::posix(rule).ok()
}
