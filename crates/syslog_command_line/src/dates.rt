//! The words of a command line that say how dates that show no year or no zone are completed.
ghost use Rattle.std.specs.Prelude.{◌≡◌, ◌∷◌, ◌<◌, ◌≤◌, [], MatchOption, ℕ, ℤ};
ghost use Rattle.jiff.specs.Types.{Date as AnyDate};
ghost use Rattle.syslog_loose.specs.declared.today.Today.{Today as AnyToday};
ghost use Rattle.syslog_command_line.specs.Arguments.{NamesDate, NamesOffset, two_digits};

use crate::args::read_year;
use syslog_loose::{Date, Today};

/// Returns the year, the month or the day that a text of the form `YEAR`, `YEAR-MONTH` or `YEAR-MONTH-DAY` writes; none
/// for any other text. Years are from 0 to 9999, and the calendar has the day.
pub fn read_date(text: &str) -> Option<Today>
    ensures { MatchOption result ((today : AnyToday) → ¬ (NamesDate text.now today))
        (λ today. NamesDate text.now today) }
{
    let Some((year, rest)) = text.split_once('-') else {
        return Some(Today::Year(read_year(text)?));
    };
    let year = read_year(year)?;
    match rest.split_once('-') {
        None => Some(Today::Month(year, read_month(rest)?)),
        Some((month, day)) => Some(Today::Day(read_day(year, month, day)?)),
    }
}

// Returns the day that two digits for the month and two for the day write, if the calendar has it in the year.
fn read_day(year: i32, month: &str, day: &str) -> Option<Date>
    ensures { MatchOption result
        ((date : AnyDate) → date.year ≡ year → month.now ≡ two_digits date.month → ¬ (day.now ≡ two_digits date.day))
        (λ date. (date.year ≡ year) × (month.now ≡ two_digits date.month) × (day.now ≡ two_digits date.day)) }
{
    let year = i16::try_from(year).ok()?;
    let month = i8::try_from(read_pair(month)?).ok()?;
    let day = i8::try_from(read_pair(day)?).ok()?;
    Date::new(year, month, day).ok()
}

// Returns the month that two digits write.
fn read_month(text: &str) -> Option<u32>
    ensures { MatchOption result ((n : ℕ) → 1 ≤ n → n ≤ 12 → ¬ (text.now ≡ two_digits n))
        (λ n. (1 ≤ n) × (n ≤ 12) × (text.now ≡ two_digits n)) }
{
    let month = read_pair(text)?;
    if (1..=12).contains(&month) {
        Some(month)
    } else {
        None
    }
}

// Returns the number that two digits write.
fn read_pair(text: &str) -> Option<u32>
    ensures { MatchOption result ((n : ℕ) → n < 100 → ¬ (text.now ≡ two_digits n))
        (λ n. (n < 100) × (text.now ≡ two_digits n)) }
{
    let [tens, ones] = text.as_bytes() else {
        return None;
    };
    read_digits(*tens, *ones)
}

/// Returns the seconds that a text of the form `+HH:MM` or `-HH:MM` writes, up to 23:59; none for any other text.
pub fn read_offset(text: &str) -> Option<i32>
    ensures { MatchOption result ((seconds : ℤ) → ¬ (NamesOffset text.now seconds))
        (λ seconds. NamesOffset text.now seconds) }
{
    let [sign, hour_tens, hour_ones, b':', minute_tens, minute_ones] = text.as_bytes() else {
        return None;
    };
    let hours = read_digits(*hour_tens, *hour_ones)?;
    let minutes = read_digits(*minute_tens, *minute_ones)?;
    if hours > 23 || minutes > 59 {
        return None;
    }
    let seconds = (hours * 3600 + minutes * 60) as i32;
    match sign {
        b'+' => Some(seconds),
        b'-' => Some(-seconds),
        _ => None,
    }
}

// The number that two ASCII digits name.
fn read_digits(tens: u8, ones: u8) -> Option<u32>
    ensures { MatchOption result ((n : ℕ) → n < 100 → ¬ (tens ∷ ones ∷ [] ≡ two_digits n))
        (λ n. (n < 100) × (tens ∷ ones ∷ [] ≡ two_digits n)) }
{
    if tens.is_ascii_digit() && ones.is_ascii_digit() {
        Some(u32::from(tens - b'0') * 10 + u32::from(ones - b'0'))
    } else {
        None
    }
}
