//! Lines of Cisco Unified Communications Manager: `12: cucm1: Nov 23 2026 02:13:44 PM.442 UTC :  %UC_AUDITLOG-5-..:
//! text`.
//!
//! **Rule.** Its clock shows twelve hours (Cisco, "Unified Serviceability": alarm definitions). A counter comes before
//! the date, and the host between them if it is configured. The mnemonic is the app name, as in other lines of Cisco's.
ghost use Rattle.std.specs.Prelude.{◌≡◌, chars};
ghost use Rattle.syslog_text.specs.Pieces.View.{Reads, Recognises};
ghost use Rattle.syslog_sent.specs.Sent.{Sends};
ghost use Rattle.syslog_dated_forms.specs.Ucm as spec;

use crate::cisco::{counter, message, optional_label};
use syslog_pieces::timestamp::MonthDate;
use syslog_pieces::timestamp::month_date::month_date;
use syslog_sent::date::{optional_fraction, optional_zone};
use syslog_sent::named::past;
use syslog_sent::sent::{Sent, SentDate};
use syslog_sent::skips::colon;
use syslog_text::text::blanks;

fn morning(text: &str) -> Option<&str>
    ensures { Recognises spec.morning (chars text.now) result }
{
    past(text, " AM")
}

fn afternoon(text: &str) -> Option<&str>
    ensures { Recognises spec.afternoon (chars text.now) result }
{
    past(text, " PM")
}

// Returns whether the hour is one after noon, and the text after that.
fn half(text: &str) -> Option<(bool, &str)>
    ensures { Reads spec.half (λ late. late) (chars text.now) result }
{
    if let Some(rest) = morning(text) {
        return Some((false, rest));
    }
    let rest = afternoon(text)?;
    Some((true, rest))
}

// Returns the hour of a clock that shows twenty-four.
fn hour_of(is_late: bool, hour: u32) -> u32
    ensures { result ≡ spec.hour_of is_late hour }
{
    if is_late {
        return if hour < 12 { hour + 12 } else { hour };
    }
    if hour == 12 { 0 } else { hour }
}

// The date with these numbers, in the zone that is shown if one is.
fn date_of(
    date: MonthDate,
    is_late: bool,
    fraction: Option<u32>,
    zone: Option<Option<i32>>,
) -> SentDate
    ensures { result ≡ spec.half_of (date, (is_late, (fraction, (zone, tt)))) }
{
    let date = MonthDate {
        hour: hour_of(is_late, date.hour),
        ..date
    };
    SentDate {
        date,
        nanosecond: fraction.unwrap_or(0),
        offset: zone.flatten(),
    }
}

// Returns a date with a clock of twelve hours, and the text after it.
fn half_date(text: &str) -> Option<(SentDate, &str)>
    ensures { Reads spec.half_date (λ d. d) (chars text.now) result }
{
    let (date, after_date) = month_date(text)?;
    let (is_late, after_half) = half(after_date)?;
    let (nanosecond, after_fraction) = optional_fraction(after_half);
    let (zone, rest) = optional_zone(after_fraction);
    Some((date_of(date, is_late, nanosecond, zone), rest))
}

/// Returns what a line of Cisco Unified Communications Manager says.
pub(crate) fn read_ucm(text: &str) -> Option<Sent<'_>>
    ensures { Sends spec.ucm_form (chars text.now) result }
{
    let at_label = counter(blanks(text))?;
    let (hostname, at_date) = optional_label(at_label);
    let (date, after_date) = half_date(at_date)?;
    let after_colon = colon(blanks(after_date))?;
    let (tag, msg) = message(blanks(after_colon))?;
    Some(Sent {
        version: None,
        date: Some(date),
        hostname,
        appname: Some(tag),
        process: None,
        msgid: None,
        msg,
    })
}
