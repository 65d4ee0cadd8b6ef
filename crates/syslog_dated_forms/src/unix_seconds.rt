//! Lines whose date is the seconds since 1970: `1 1772433184.123456789 MX84 flows allow ..` of Cisco Meraki, and
//! `1772433184.123456 web1 sshd[811]: text` of `journalctl -o short-unix`.
//!
//! **Rule.** The date is what a clock in UTC shows at that second. Ten digits at least are such a date. Meraki's
//! message begins with its type, which is no program. Without the `1` a line is Meraki's if its type is one that is
//! documented.
ghost use Rattle.std.specs.Prelude.{◌≡◌, MatchBool, chars};
ghost use Rattle.syslog_text.specs.Pieces.Rules.{such_that};
ghost use Rattle.syslog_text.specs.Pieces.View.{Reads, Recognises};
ghost use Rattle.syslog_pieces.specs.Timestamp.Fields.{fields_of};
ghost use Rattle.syslog_sent.specs.Sent.{Sends};
ghost use Rattle.syslog_sent.specs.Zone.{bare_word as any_word};
ghost use Rattle.syslog_dated_forms.specs.UnixSeconds as spec;

use crate::cisco::origin;
use crate::readers::past_word_if;
use jiff::Timestamp;
use jiff::civil::DateTime;
use jiff::tz::Offset;
use syslog_pieces::timestamp::MonthDate;
use syslog_sent::date::fraction;
use syslog_sent::named::read_program;
use syslog_sent::sent::{Sent, SentDate};
use syslog_sent::skips::gap;
use syslog_sent::zone::is_one_of;
use syslog_text::text::{blanks, host, literal, number};

// Returns what a clock in UTC shows so many seconds after 1970 began.
fn shown_at(seconds: u32) -> Option<DateTime>
    ensures { spec.ShowsAt seconds result }
{
    match Timestamp::from_second(i64::from(seconds)) {
        Ok(instant) => Some(Offset::UTC.to_datetime(instant)),
        Err(_) => None,
    }
}

// The date of a datetime in UTC, with this fraction.
fn in_utc(shown: DateTime, nanosecond: u32) -> SentDate
    ensures { result ≡ spec.in_utc (fields_of shown) nanosecond }
{
    let date = MonthDate {
        year: Some(u32::from(shown.year().unsigned_abs())),
        month: shown.month() as u32,
        day: shown.day() as u32,
        hour: shown.hour() as u32,
        minute: shown.minute() as u32,
        second: shown.second() as u32,
    };
    SentDate {
        date,
        nanosecond,
        offset: Some(0),
    }
}

// Returns the number that ten digits or more write, and the text after them.
fn seconds(text: &str) -> Option<(u32, &str)>
    ensures { Reads spec.seconds (λ n. n) (chars text.now) result }
{
    let (seconds, rest) = number(text, u32::MAX)?;
    if seconds < 1_000_000_000 {
        return None;
    }
    Some((seconds, rest))
}

fn unix_date(text: &str) -> Option<(SentDate, &str)>
    ensures { Reads spec.unix_date (λ d. d) (chars text.now) result }
{
    let (seconds, after_seconds) = seconds(text)?;
    let (nanosecond, rest) = fraction(after_seconds)?;
    let shown = shown_at(seconds)?;
    Some((in_utc(shown, nanosecond), rest))
}

/// Returns what a line of Meraki says.
pub(crate) fn read_meraki(text: &str) -> Option<Sent<'_>>
    ensures { Sends spec.meraki_form (chars text.now) result }
{
    let after_version = literal(blanks(text), '1')?;
    let before_date = gap(after_version)?;
    let (date, after_date) = unix_date(before_date)?;
    let before_device = gap(after_date)?;
    let (device, after_device) = origin(before_device)?;
    let msg = gap(after_device)?;
    Some(Sent {
        version: None,
        date: Some(date),
        hostname: Some(device),
        appname: None,
        process: None,
        msgid: None,
        msg,
    })
}

/// Returns what a line of `short-unix` says.
pub(crate) fn read_short(text: &str) -> Option<Sent<'_>>
    ensures { Sends spec.short_form (chars text.now) result }
{
    let (date, after_date) = unix_date(blanks(text))?;
    let before_host = gap(after_date)?;
    let (hostname, after_host) = host(before_host)?;
    let before_program = gap(after_host)?;
    let (program, after_program) = read_program(before_program)?;
    Some(Sent {
        version: None,
        date: Some(date),
        hostname,
        appname: Some(program.name),
        process: program.process,
        msgid: None,
        msg: blanks(after_program),
    })
}

const EVENT_TYPES: [&str; 11] = [
    "events",
    "flows",
    "urls",
    "ids-alerts",
    "security_event",
    "airmarshal_events",
    "firewall",
    "cellular_firewall",
    "vpn_firewall",
    "ip_flow_start",
    "ip_flow_end",
];

fn is_event_type(word: &str) -> bool
    ensures { MatchBool result (spec.IsEventType (chars word.now)) (spec.IsEventType (chars word.now) → ⊥) }
{
    is_one_of(&EVENT_TYPES, word)
}

// Returns the text after a type of Meraki's messages.
#[tactic(auto, using(crate::proofs::ReaderLemmas::past_such))]
fn event_type(text: &str) -> Option<&str>
    ensures { Recognises (such_that any_word spec.IsEventType) (chars text.now) result }
{
    past_word_if(text, is_event_type)
}

/// Returns what a line of Meraki without the version says.
pub(crate) fn read_typed(text: &str) -> Option<Sent<'_>>
    ensures { Sends spec.typed_form (chars text.now) result }
{
    let (date, after_date) = unix_date(blanks(text))?;
    let before_device = gap(after_date)?;
    let (device, after_device) = origin(before_device)?;
    let msg = gap(after_device)?;
    let _ = event_type(msg)?;
    Some(Sent {
        version: None,
        date: Some(date),
        hostname: Some(device),
        appname: None,
        process: None,
        msgid: None,
        msg,
    })
}
