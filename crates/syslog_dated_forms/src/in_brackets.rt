//! Lines whose date is in brackets: `[Mon Mar  2 06:33:04 2026] text`.
//!
//! **Rule.** All after the brackets is the message. Apache's error log (httpd, "Log Files"), `dmesg -T` (dmesg(1)),
//! Kafka (its log4j.properties), Slurm and Asterisk write such lines.
ghost use Rattle.std.specs.Prelude.{◌≡◌, MatchOption, chars};
ghost use Rattle.syslog_text.specs.Bodies.Scan.{EndsRun, SplitsRun};
ghost use Rattle.syslog_text.specs.Pieces.Class.{Division, Front, NoDivision, Row, Values, optional};
ghost use Rattle.syslog_text.specs.Pieces.View.{Recognises, shown};
ghost use Rattle.syslog_sent.specs.Sent.{Sends};
ghost use Rattle.syslog_dated_forms.specs.InBrackets as spec;

use crate::readers::past_any;
use syslog_sent::date::{any_date, weekday};
use syslog_sent::sent::{Sent, SentDate};
use syslog_sent::skips::gap;
use syslog_text::text::{blanks, first, literal};

// The place of the bracket that closes, in bytes.
fn open_end(text: &str) -> usize
    ensures { EndsRun spec.is_open text.now result }
{
    match text.find(']') {
        Some(end) => end,
        None => text.len(),
    }
}

// Returns what comes before the bracket that closes, and the text from that on.
fn inside(text: &str) -> (&str, &str)
    ensures { SplitsRun spec.is_open text.now result.0.now result.1.now }
{
    text.split_at(open_end(text))
}

fn day(text: &str) -> Option<&str>
    ensures { Recognises (Row spec.day_row) (chars text.now) result }
{
    weekday(text).and_then(gap)
}

// The date that the whole text shows.
fn whole_date(text: &str) -> Option<SentDate>
    ensures { MatchOption result (NoDivision spec.stamp_row (chars text.now))
        (λ d. (v : Values spec.stamp_row) × Division spec.stamp_row (chars text.now) v × (d ≡ v.1.0)) }
{
    let (date, rest) = any_date(past_any(text, day))?;
    match first(rest) {
        Some(_) => None,
        None => Some(date),
    }
}

/// Returns what a line says whose date is in brackets.
pub(crate) fn read_in_brackets(text: &str) -> Option<Sent<'_>>
    ensures { Sends spec.in_brackets_form (chars text.now) result }
{
    let at_date = literal(blanks(text), '[')?;
    let (stamp, after_date) = inside(at_date);
    let date = whole_date(stamp)?;
    let rest = literal(after_date, ']')?;
    Some(Sent {
        version: None,
        date: Some(date),
        hostname: None,
        appname: None,
        process: None,
        msgid: None,
        msg: blanks(rest),
    })
}
