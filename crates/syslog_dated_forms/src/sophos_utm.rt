//! Lines of Sophos UTM: `2026:03:02-06:33:04 utm9 ulogd[4567]: id="2001" ..`.
//!
//! **Rule.** Year, month and day have colons between them, and a hyphen is before the clock (Sophos UTM Administration
//! Guide, "Logging & Reporting"; its remote syslog sends the lines of its own files). What follows is read as the port
//! reads it.
ghost use Rattle.std.specs.Prelude.{◌≡◌, chars};
ghost use Rattle.syslog_text.specs.Pieces.View.{Reads};
ghost use Rattle.syslog_sent.specs.Sent.{Sends};
ghost use Rattle.syslog_dated_forms.specs.SophosUtm as spec;

use crate::dated::says;
use crate::tail::read_wide_tail;
use syslog_pieces::timestamp::MonthDate;
use syslog_pieces::timestamp::pairs::{pair_after, year};
use syslog_sent::sent::{Sent, SentDate};
use syslog_text::text::blanks;

/// Returns the date with these numbers, without a fraction and a zone.
pub(crate) fn date_of(
    year: u16,
    month: u32,
    day: u32,
    hour: u32,
    minute: u32,
    second: u32,
) -> SentDate
    ensures { result ≡ spec.colon_of (year, (month, (day, (hour, (minute, (second, tt)))))) }
{
    let date = MonthDate {
        year: Some(u32::from(year)),
        month,
        day,
        hour,
        minute,
        second,
    };
    SentDate {
        date,
        nanosecond: 0,
        offset: None,
    }
}

fn colon_date(text: &str) -> Option<(SentDate, &str)>
    ensures { Reads spec.colon_date (λ d. d) (chars text.now) result }
{
    let (year, after_year) = year(text)?;
    let (month, after_month) = pair_after(after_year, ':', 100)?;
    let (day, after_day) = pair_after(after_month, ':', 100)?;
    let (hour, after_hour) = pair_after(after_day, '-', 100)?;
    let (minute, after_minute) = pair_after(after_hour, ':', 100)?;
    let (second, rest) = pair_after(after_minute, ':', 100)?;
    Some((date_of(year, month, day, hour, minute, second), rest))
}

/// Returns what a line of Sophos UTM says.
pub(crate) fn read_utm(text: &str) -> Option<Sent<'_>>
    ensures { Sends spec.utm_form (chars text.now) result }
{
    let (date, rest) = colon_date(blanks(text))?;
    Some(says(date, read_wide_tail(rest)))
}
