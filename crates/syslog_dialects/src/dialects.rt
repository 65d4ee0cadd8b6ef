//! The dialects in the order in which they are tried. A text is of the first one that divides it.
//!
//! Few lines come here. No reader scans the text more than a few times, and each of them stops at the first piece that
//! is missing.
ghost use Rattle.std.specs.Prelude.{chars};
ghost use Rattle.syslog_sent.specs.Forms.{Finds};
ghost use Rattle.syslog_text.specs.Pieces.Class.{Text};
ghost use Rattle.syslog_sent.specs.Led.{IsLed, IsUnled};
ghost use Rattle.syslog_dialects.specs.Dialects.{early_forms, forms_of, last_forms, late_forms};
ghost use Rattle.syslog_dialects.specs.Dialects.{plain_forms};

use crate::priority_alone::{read_alone, read_point_alone, read_program_alone};
use syslog_dated_forms::dated_forms;
use syslog_named_forms::named_forms;
use syslog_sent::dialect::Dialect;
use syslog_sent::led::{Led, read_front};
use syslog_sent::sent::Sent;

// Returns the dialect of a text that has a priority and that the port does not parse, and what the text says.
fn read_last(text: &str) -> Option<(Dialect, Sent<'_>)>
    ensures { Finds last_forms (chars text.now) result }
{
    if let Some(sent) = read_program_alone(text) {
        return Some((Dialect::NoHost, sent));
    }
    if let Some(sent) = read_point_alone(text) {
        return Some((Dialect::UniFi, sent));
    }
    let sent = read_alone(text)?;
    Some((Dialect::PriorityAlone, sent))
}

// Returns the dialect of a text that has nothing of its own after this date, which begins it, and what the text says.
fn read_plain<'a>(led: &Led<'a>) -> Option<(Dialect, Sent<'a>)>
    ensures { (text : Text) → IsLed text led.now → Finds plain_forms text result }
{
    match dated_forms::read_plain(led) {
        Some(found) => Some(found),
        None => named_forms::read_spread(led),
    }
}

// Returns the dialect of a text that begins with this date, and what the text says. No form of a text without a date
// divides it.
fn read_led<'a>(text: &'a str, led: &Led<'a>) -> Option<(Dialect, Sent<'a>)>
    ensures { IsLed (chars text.entry.now) led.now → Finds early_forms (chars text.entry.now) result }
{
    if let Some(found) = dated_forms::read_led(text, led) {
        return Some(found);
    }
    if let Some(found) = named_forms::read_led(led) {
        return Some(found);
    }
    read_plain(led)
}

// Returns the dialect of a text that begins with no date, and what the text says.
fn read_unled(text: &str) -> Option<(Dialect, Sent<'_>)>
    ensures { IsUnled (chars text.now) → Finds early_forms (chars text.now) result }
{
    match dated_forms::read_unled(text) {
        Some(found) => Some(found),
        None => named_forms::read_undated(text),
    }
}

// Returns the dialect of the text after a priority, by its date or by what follows that, and what the text says.
fn read_early(text: &str) -> Option<(Dialect, Sent<'_>)>
    ensures { Finds early_forms (chars text.now) result }
{
    match read_front(text) {
        Some(led) => read_led(text, &led),
        None => read_unled(text),
    }
}

// Returns the dialect of the text after this priority by the forms that are tried last, and what the text says.
// `is_read` says whether the port parses it.
fn read_late(is_read: bool, priority: Option<u8>, text: &str) -> Option<(Dialect, Sent<'_>)>
    ensures { Finds (late_forms is_read priority) (chars text.now) result }
{
    if is_read {
        return None;
    }
    match priority {
        Some(_) => read_last(text),
        None => None,
    }
}

/// Returns the dialect of the text after this priority, and what the text says. `is_read` says whether the port parses
/// it.
pub(crate) fn read_dialect(
    is_read: bool,
    priority: Option<u8>,
    text: &str,
) -> Option<(Dialect, Sent<'_>)>
    ensures { Finds (forms_of is_read priority) (chars text.now) result }
{
    match read_early(text) {
        Some(found) => Some(found),
        None => read_late(is_read, priority, text),
    }
}
