//! Lines of Cisco's systems that show no date of the device: `29: %SYS-5-RESTART: text`, `29: 1w2d: %SYS-5-CONFIG_I:
//! text`.
//!
//! **Rule.** The device writes no date, or how long it has run (IOS, "service timestamps log uptime"), which is left
//! out. Where a collector files the line, the date is the collector's.
ghost use Rattle.std.specs.Prelude.{◌≡◌, chars};
ghost use Rattle.syslog_text.specs.Pieces.Class.{Front, Row, Text, optional, run};
ghost use Rattle.syslog_text.specs.Pieces.Rules.{such_that};
ghost use Rattle.syslog_text.specs.Pieces.View.{Reads, Recognises, seen, shown};
ghost use Rattle.syslog_text.specs.Text.{is_blank};
ghost use Rattle.syslog_sent.specs.Date.{any_date};
ghost use Rattle.syslog_sent.specs.Sent.{Sends};
ghost use Rattle.syslog_sent.specs.Zone.{bare_word as any_word};
ghost use Rattle.syslog_dated_forms.specs.Undated as spec;

use crate::address::has_pair;
use crate::cisco::{counter, label, message};
use crate::filed::past_front;
use crate::readers::past_any;
use syslog_sent::named::is_number;
use syslog_sent::sent::{Sent, SentDate};
use syslog_sent::skips::{colon, digits, gap};
use syslog_sent::zone::bare_word;
use syslog_text::text::{blanks, first, past_colon};

fn begins_digit(word: &str) -> bool
    ensures { result ≡ spec.begins_digit (chars word.now) }
{
    match first(word) {
        Some((c, _)) => c.is_ascii_digit(),
        None => false,
    }
}

fn is_uptime(word: &str) -> bool
    ensures { result ≡ spec.is_uptime (chars word.now) }
{
    begins_digit(word) && !is_number(word)
}

fn uptime_word(text: &str) -> Option<&str>
    ensures { Recognises (such_that any_word spec.IsUptime) (chars text.now) result }
{
    let (word, rest) = bare_word(text)?;
    if is_uptime(word) { Some(rest) } else { None }
}

fn word_uptime(text: &str) -> Option<&str>
    ensures { Recognises (Row spec.run_word_row) (chars text.now) result }
{
    uptime_word(text).and_then(colon).and_then(gap)
}

fn clock_uptime(text: &str) -> Option<&str>
    ensures { Recognises (Row spec.run_clock_row) (chars text.now) result }
{
    digits(text)
        .and_then(colon)
        .and_then(digits)
        .and_then(colon)
        .and_then(digits)
        .and_then(colon)
        .and_then(gap)
}

fn uptime(text: &str) -> Option<&str>
    ensures { Recognises spec.uptime (chars text.now) result }
{
    if let Some(rest) = clock_uptime(text) {
        return Some(rest);
    }
    word_uptime(text)
}

// Whether the word says how long the device has run, and is no address of IPv6.
fn is_no_name(word: &str) -> bool
    ensures { result ≡ spec.is_no_name (chars word.now) }
{
    is_uptime(word) && !has_pair(word)
}

// Returns the name of the device before a colon and blanks, and the text after these.
fn name_label(text: &str) -> Option<(&str, &str)>
    ensures { Reads spec.name_label (λ word. shown word) (chars text.now) result }
{
    let (name, rest) = label(text)?;
    if is_no_name(name) {
        return None;
    }
    Some((name, rest))
}

fn optional_name(text: &str) -> (Option<&str>, &str)
    ensures { Front (optional spec.name_label) (chars text.now) (shown result.1) (seen result.0) }
{
    match name_label(text) {
        Some((name, rest)) => (Some(name), rest),
        None => (None, text),
    }
}

/// Returns what a line says that shows no date.
pub(crate) fn read_undated(text: &str) -> Option<Sent<'_>>
    ensures { Sends spec.undated_form (chars text.now) result }
{
    let after_gap = blanks(text);
    let after_colon = past_colon(after_gap);
    let begun = blanks(after_colon);
    let after_counter = past_any(begun, counter);
    let after_number = past_any(after_counter, counter);
    let (hostname, after_host) = optional_name(after_number);
    let rest = past_any(after_host, uptime);
    let (tag, msg) = message(rest)?;
    Some(Sent {
        version: None,
        date: None,
        hostname,
        appname: Some(tag),
        process: None,
        msgid: None,
        msg,
    })
}

/// Returns what such a line says that a collector files, with its own date, after which `rest` is left.
pub(crate) fn read_timed(date: SentDate, rest: &str) -> Option<Sent<'_>>
    ensures { (text at : Text) → Front (run is_blank) text at tt → Front any_date at (chars rest.now) date
        → Sends spec.timed_form text result }
{
    let front = past_front(date, rest)?;
    let after_counter = past_any(front.line, counter);
    let after_number = past_any(after_counter, counter);
    let rest = past_any(after_number, uptime);
    let (tag, msg) = message(rest)?;
    Some(Sent {
        version: None,
        date: Some(front.date),
        hostname: Some(front.device),
        appname: Some(tag),
        process: None,
        msgid: None,
        msg,
    })
}
