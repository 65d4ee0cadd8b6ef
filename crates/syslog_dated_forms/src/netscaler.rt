//! Lines of Citrix NetScaler (ADC): `03/02/2026:06:33:04 GMT ns1 0-PPE-0 : default TCP CONN_TERMINATE ..`.
//!
//! **Rule.** The month comes first, as in the appliance's default setting, or the year (Citrix, "Audit logging": date
//! formats MMDDYYYY and YYYYMMDD; nothing tells a line of DDMMYYYY). Two spaces after the date are around the name of
//! an appliance that has none; then the packet engine is the program. Otherwise what follows is read as the port reads
//! it.
ghost use Rattle.std.specs.Prelude.{◌≡◌, chars};
ghost use Rattle.syslog_text.specs.Pieces.Class.{Row, after};
ghost use Rattle.syslog_text.specs.Pieces.View.{Reads};
ghost use Rattle.syslog_pieces.specs.Timestamp.Rfc3339.{year as any_year};
ghost use Rattle.syslog_sent.specs.Sent.{Sends};
ghost use Rattle.syslog_dated_forms.specs.NetScalerViews.{day_value, month_first_values, year_first_values};
ghost use Rattle.syslog_dated_forms.specs.NetScaler as spec;

use crate::dated::says;
use crate::ios_xr::name;
use crate::sophos_utm::date_of;
use crate::tail::read_wide_tail;
use syslog_pieces::timestamp::pairs::{pair, pair_after, year};
use syslog_sent::date::optional_zone;
use syslog_sent::sent::{Sent, SentDate};
use syslog_sent::skips::{colon, gap, two_spaces};
use syslog_text::text::{blanks, literal};

// Returns a year after a slash, and the text after it.
fn slashed_year(text: &str) -> Option<(u16, &str)>
    ensures { Reads (after 47 any_year) (λ y. y) (chars text.now) result }
{
    let rest = literal(text, '/')?;
    year(rest)
}

/// A day of the calendar.
#[derive(Clone, Copy)]
struct Day {
    year: u16,
    month: u32,
    day: u32,
}

fn month_first(text: &str) -> Option<(Day, &str)>
    ensures { Reads (Row spec.month_first_row) month_first_values (chars text.now) result }
{
    let (month, rest) = pair(text, 100)?;
    let (day, rest) = pair_after(rest, '/', 100)?;
    let (year, rest) = slashed_year(rest)?;
    Some((Day { year, month, day }, rest))
}

fn year_first(text: &str) -> Option<(Day, &str)>
    ensures { Reads (Row spec.year_first_row) year_first_values (chars text.now) result }
{
    let (year, rest) = year(text)?;
    let (month, rest) = pair_after(rest, '/', 100)?;
    let (day, rest) = pair_after(rest, '/', 100)?;
    Some((Day { year, month, day }, rest))
}

fn slashed_day(text: &str) -> Option<(Day, &str)>
    ensures { Reads spec.slashed_day day_value (chars text.now) result }
{
    if let Some(found) = month_first(text) {
        return Some(found);
    }
    year_first(text)
}

// The date with these numbers, in the zone that is shown if one is.
fn slashed_of(day: Day, hour: u32, minute: u32, second: u32, zone: Option<Option<i32>>) -> SentDate
    ensures { result ≡ spec.slashed_of (day_value day, (hour, (minute, (second, (zone, tt))))) }
{
    SentDate {
        offset: zone.flatten(),
        ..date_of(day.year, day.month, day.day, hour, minute, second)
    }
}

// Returns a date with slashes, and the text after it.
fn slashed_date(text: &str) -> Option<(SentDate, &str)>
    ensures { Reads spec.slashed_date (λ d. d) (chars text.now) result }
{
    let (day, rest) = slashed_day(text)?;
    let (hour, rest) = pair_after(rest, ':', 100)?;
    let (minute, rest) = pair_after(rest, ':', 100)?;
    let (second, rest) = pair_after(rest, ':', 100)?;
    let (zone, rest) = optional_zone(rest);
    Some((slashed_of(day, hour, minute, second, zone), rest))
}

/// Returns what a line of NetScaler says.
pub(crate) fn read_netscaler(text: &str) -> Option<Sent<'_>>
    ensures { Sends spec.netscaler_form (chars text.now) result }
{
    let (date, rest) = slashed_date(blanks(text))?;
    Some(says(date, read_wide_tail(rest)))
}

/// Returns what a line of a NetScaler without a name says.
pub(crate) fn read_unnamed(text: &str) -> Option<Sent<'_>>
    ensures { Sends spec.unnamed_form (chars text.now) result }
{
    let (date, after_date) = slashed_date(blanks(text))?;
    let at_engine = two_spaces(after_date)?;
    let (engine, after_engine) = name(at_engine)?;
    let at_colon = gap(after_engine)?;
    let rest = colon(at_colon)?;
    Some(Sent {
        version: None,
        date: Some(date),
        hostname: None,
        appname: Some(engine),
        process: None,
        msgid: None,
        msg: blanks(rest),
    })
}
