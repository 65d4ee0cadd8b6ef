//! The forms that are recognised by what follows the date, in the order in which they are tried.
ghost use Rattle.std.specs.Prelude.{◌≡◌, ◌∷◌, ◌++◌, [], None, chars};
ghost use Rattle.syslog_text.specs.Pieces.Class.{Front, Row, Text};
ghost use Rattle.syslog_text.specs.Pieces.View.{seen};
ghost use Rattle.syslog_sent.specs.Forms.{Finds};
ghost use Rattle.syslog_sent.specs.Led.{IsLed};
ghost use Rattle.syslog_named_forms.specs.NamedFinds.{FindsAfter, FindsNamed};
ghost use Rattle.syslog_named_forms.specs.Monotonic.{monotonic_form};
ghost use Rattle.syslog_named_forms.specs.NamedForms as spec;
ghost use Rattle.syslog_named_forms.specs.NearHeader.{head_row};
ghost use Rattle.syslog_named_forms.specs.NearHeaderViews.{head_values};
ghost use Rattle.syslog_sent.specs.Sent.{loose, sent_value};
ghost use Rattle.syslog_named_forms.specs.Untagged.{AreMarks};
ghost use Rattle.syslog_named_forms.specs.Hosts.{ReadsHost};
ghost use Rattle.syslog_sent.specs.Views.{named_value};

use crate::devices::{addressed, titled};
use crate::graded::{counted, event, graded, leveled, numbered, opened, padded, sourced, threaded};
use crate::hosts::{AfterHost, past_host};
use crate::marks::{MessageMarks, mark_end, message};
use crate::monotonic::read_monotonic;
use crate::near_header::{
    Start, head, read_bare, read_heroku, read_nil, read_paired, read_tag, read_vendor,
};
use crate::pairs::read_pairs;
use crate::programs::{
    after_serial, forwarded, hostless, of_access_point, severity_first, spread, untagged_message,
    worded,
};
use crate::unified::{compact, unified};
use crate::untagged::{MARKS, Mark};
use syslog_sent::dialect::Dialect;
use syslog_sent::led::Led;
use syslog_sent::named::Named;
use syslog_sent::sent::{Sent, SentDate};
use syslog_text::text::{blanks, some_blanks};

// Returns what a line says that has this date, and these names and this message after it.
#[inline(always)]
fn sent<'a>(date: SentDate, named: Named<'a>) -> Sent<'a>
    ensures { sent_value result ≡ spec.says date (named_value named.entry) }
{
    Sent {
        version: None,
        date: Some(date),
        hostname: named.hostname,
        appname: named.appname,
        process: named.process,
        msgid: None,
        msg: named.msg,
    }
}

// Returns what a line says that is a message alone.
#[inline(always)]
fn bare(msg: &str) -> Sent<'_>
    ensures { sent_value result ≡ loose None None None None (chars msg.now) }
{
    Sent {
        version: None,
        date: None,
        hostname: None,
        appname: None,
        process: None,
        msgid: None,
        msg,
    }
}

// Reads a line with the seconds since the start.
#[inline(always)]
fn of_seconds(text: &str) -> Option<(Dialect, Sent<'_>)>
    ensures { Finds (monotonic_form ∷ []) (chars text.now) result }
{
    let sent = read_monotonic(text)?;
    Some((Dialect::Monotonic, sent))
}

// Reads a header that begins with a version, a date and a host.
fn of_start<'a>(start: Start<'a>, rest: &'a str, text: &'a str) -> Option<(Dialect, Sent<'a>)>
    ensures { Front (Row head_row) (chars text.entry.now) (chars rest.entry.now) (head_values start.entry)
        → Finds spec.header_forms (chars text.entry.now) result }
{
    if let Some(sent) = read_vendor(start, rest, Mark::Cef) {
        return Some((Dialect::Cef, sent));
    }
    if let Some(sent) = read_vendor(start, rest, Mark::Leef) {
        return Some((Dialect::Leef, sent));
    }
    if let Some(sent) = read_paired(start, rest) {
        return Some((Dialect::CheckPoint, sent));
    }
    if let Some(sent) = read_nil(start, rest) {
        return Some((Dialect::NearlyRfc5424, sent));
    }
    if let Some(sent) = read_tag(start, rest) {
        return Some((Dialect::NearlyRfc5424, sent));
    }
    if let Some(sent) = read_heroku(start, rest) {
        return Some((Dialect::Heroku, sent));
    }
    if let Some(sent) = read_bare(start, rest) {
        return Some((Dialect::NearlyRfc5424, sent));
    }
    of_seconds(text)
}

// Reads a header, or a line with the seconds since the start.
fn of_header(text: &str) -> Option<(Dialect, Sent<'_>)>
    ensures { Finds spec.header_forms (chars text.now) result }
{
    match head(text) {
        Some((start, rest)) => of_start(start, rest, text),
        None => of_seconds(text),
    }
}

/// Returns the dialect of a text that begins with no date and is in none by its date, and what the text says. It is a
/// call, since a text that begins with a date does not come here, and memory would be cleared for it too.
#[inline(never)]
pub fn read_undated(text: &str) -> Option<(Dialect, Sent<'_>)>
    ensures { Finds spec.undated_forms (chars text.now) result }
{
    let msg = blanks(text);
    if let Some(_) = mark_end(msg, Mark::Cef) {
        return Some((Dialect::Cef, bare(msg)));
    }
    if let Some(_) = mark_end(msg, Mark::Leef) {
        return Some((Dialect::Leef, bare(msg)));
    }
    if let Some(sent) = read_pairs(text) {
        return Some((Dialect::KeyValue, sent));
    }
    of_header(text)
}

// Reads a program's line after its date. `after_host` is what `past_host` returned for what follows the date.
#[inline(always)]
fn of_program<'a>(rest: &'a str, after_host: Option<AfterHost<'a>>) -> Option<(Dialect, Named<'a>)>
    ensures { ReadsHost (chars rest.entry.now) after_host.entry
        → FindsNamed (spec.tail_forms spec.program_tails) (chars rest.entry.now) result }
{
    if let Some(named) = forwarded(rest, after_host) {
        return Some((Dialect::Forwarded, named));
    }
    if let Some(named) = severity_first(after_host) {
        return Some((Dialect::SeverityFirst, named));
    }
    if let Some(named) = worded(after_host) {
        return Some((Dialect::SpacedName, named));
    }
    if let Some(named) = of_access_point(rest, after_host) {
        return Some((Dialect::UniFi, named));
    }
    if let Some(named) = hostless(rest, after_host) {
        return Some((Dialect::NoHost, named));
    }
    if let Some(named) = after_serial(after_host) {
        return Some((Dialect::WatchGuard, named));
    }
    if let Some(named) = unified(rest) {
        return Some((Dialect::UnifiedLog, named));
    }
    if let Some(named) = untagged_message(after_host) {
        return Some((Dialect::Untagged, named));
    }
    None
}

// Reads a line of a device after its date. `after_host` is what `past_host` returned for what follows the date.
#[inline(always)]
fn of_device<'a>(rest: &'a str, after_host: Option<AfterHost<'a>>) -> Option<(Dialect, Named<'a>)>
    ensures { ReadsHost (chars rest.entry.now) after_host.entry
        → FindsNamed (spec.tail_forms spec.device_tails) (chars rest.entry.now) result }
{
    if let Some(named) = addressed(after_host) {
        return Some((Dialect::UniFi, named));
    }
    if let Some(named) = titled(after_host) {
        return Some((Dialect::SpacedName, named));
    }
    if let Some(named) = compact(rest) {
        return Some((Dialect::UnifiedLog, named));
    }
    None
}

// Reads a line of a program or a device after its date. `after_host` is what `past_host` returned for what follows it.
#[inline(always)]
fn of_program_or_device<'a>(
    rest: &'a str,
    after_host: Option<AfterHost<'a>>,
) -> Option<(Dialect, Named<'a>)>
    ensures { ReadsHost (chars rest.entry.now) after_host.entry
        → FindsNamed spec.dated_program_forms (chars rest.entry.now) result }
{
    if let Some(found) = of_program(rest, after_host) {
        return Some(found);
    }
    of_device(rest, after_host)
}

// Reads what follows a date, if one of these marks begins a message there. `after_host` and `begun` are what
// `past_host` and `MessageMarks::of` returned for it.
fn of_marks<'a>(
    marks: &[Mark],
    begun: MessageMarks,
    rest: &'a str,
    after_host: Option<AfterHost<'a>>,
) -> Option<(Dialect, Named<'a>)>
    ensures { ReadsHost (chars rest.entry.now) after_host.entry
        → AreMarks begun (chars rest.entry.now) after_host.entry
        → FindsNamed (spec.tail_forms (spec.marked_tails marks.now)) (chars rest.entry.now) result }
{
    if begun.is_empty() {
        return None;
    }
    for mark in marks {
        if begun.has(*mark) {
            if let Some(named) = message(rest, after_host, begun, *mark) {
                return Some((mark.dialect(), named));
            }
        }
    }
    None
}

// Reads what follows a date: a message that a mark begins, or a line of a program or a device. `after_host` is what
// `past_host` returned for it.
#[inline(always)]
fn of_message<'a>(rest: &'a str, after_host: Option<AfterHost<'a>>) -> Option<(Dialect, Named<'a>)>
    ensures { ReadsHost (chars rest.entry.now) after_host.entry
        → FindsNamed spec.dated_marked_forms (chars rest.entry.now) result }
{
    let begun = MessageMarks::of(rest, after_host);
    if let Some(found) = of_marks(&MARKS, begun, rest, after_host) {
        return Some(found);
    }
    of_program_or_device(rest, after_host)
}

// Reads what follows a date and blanks.
#[inline(always)]
fn of_dated(rest: &str) -> Option<(Dialect, Named<'_>)>
    ensures { FindsNamed spec.dated_forms (chars rest.now) result }
{
    let after_host = past_host(rest);
    if let Some(named) = graded(rest) {
        return Some((Dialect::SeverityFirst, named));
    }
    if let Some(named) = leveled(after_host) {
        return Some((Dialect::SeverityFirst, named));
    }
    if let Some(named) = event(rest) {
        return Some((Dialect::Bracketed, named));
    }
    if let Some(named) = sourced(after_host) {
        return Some((Dialect::BsdDate, named));
    }
    if let Some(named) = threaded(rest, after_host) {
        return Some((Dialect::NoHost, named));
    }
    if let Some(named) = padded(rest, after_host) {
        return Some((Dialect::NoHost, named));
    }
    if let Some(named) = numbered(rest) {
        return Some((Dialect::Bracketed, named));
    }
    if let Some(named) = counted(rest) {
        return Some((Dialect::Bracketed, named));
    }
    if let Some(named) = opened(rest) {
        return Some((Dialect::Bracketed, named));
    }
    of_message(rest, after_host)
}

/// Returns the dialect that a text which begins with this date is in by what follows the date, and what the text says.
pub fn read_led<'a>(led: &Led<'a>) -> Option<(Dialect, Sent<'a>)>
    ensures { (text : Text) → IsLed text led.now → Finds spec.dated_forms text result }
{
    let rest = some_blanks(led.rest)?;
    let (dialect, named) = of_dated(rest)?;
    Some((dialect, sent(led.sent, named)))
}

// Reads what follows a date and blanks where nothing but the blanks is unusual.
fn of_spread(date: SentDate, rest: &str) -> Option<(Dialect, Sent<'_>)>
    ensures { (text : Text) → FindsAfter spec.spread_forms date (chars rest.now) text result }
{
    let named = spread(past_host(rest))?;
    Some((Dialect::SpacedName, sent(date, named)))
}

/// Returns the dialect of a line that has a program's name after this date, which begins it, and any number of blanks,
/// and what the line says. It is tried last.
pub fn read_spread<'a>(led: &Led<'a>) -> Option<(Dialect, Sent<'a>)>
    ensures { (text : Text) → IsLed text led.now → Finds spec.spread_forms text result }
{
    let rest = some_blanks(led.rest)?;
    of_spread(led.sent, rest)
}
