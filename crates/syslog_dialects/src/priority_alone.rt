//! A priority, and a text of no other form.
//!
//! **Rule.** It is a program's line without a date (Python's SysLogHandler with an ident, older OpenWrt, access points
//! of UniFi). Or it is a message alone, as MikroTik's routers write (RouterOS, Log: `remote` without `bsd-syslog`). A
//! text that begins with a month date or with a version fails to be of another form, so it does not parse.
ghost use Rattle.std.specs.Prelude.{◌∷◌, MatchBool, chars};
ghost use Rattle.syslog_text.specs.Pieces.Class.{Row};
ghost use Rattle.syslog_text.specs.Pieces.View.{Recognises};
ghost use Rattle.syslog_dialects.specs.PriorityAlone as spec;
ghost use Rattle.syslog_sent.specs.Sent.{Sends};

use syslog_named_forms::devices::point_word;
use syslog_pieces::timestamp::month_date::month_date;
use syslog_sent::named::{name, number as number_text, read_program};
use syslog_sent::sent::Sent;
use syslog_text::text::{blanks, host, literal, number, some_blanks};

// Returns the text after a number and blanks.
fn past_version(text: &str) -> Option<&str>
    ensures { Recognises (Row spec.version_row) (chars text.now) result }
{
    let (_, rest) = number(text, u32::MAX)?;
    some_blanks(rest)
}

fn is_alone(text: &str) -> bool
    ensures { MatchBool result (spec.IsAlone (chars text.now)) (spec.IsAlone (chars text.now) → ⊥) }
{
    if let Some(_) = month_date(text) {
        return false;
    }
    if let Some(_) = past_version(text) {
        return false;
    }
    !text.is_empty()
}

/// Returns what a program's line without a date says.
pub(crate) fn read_program_alone(text: &str) -> Option<Sent<'_>>
    ensures { Sends spec.program_form (chars text.now) result }
{
    let begun = blanks(text);
    let (app, after_name) = name(begun)?;
    let after_open = literal(after_name, '[')?;
    let (id, after_id) = number_text(after_open)?;
    let after_close = literal(after_id, ']')?;
    let after_tag = literal(after_close, ':')?;
    Some(Sent {
        version: None,
        date: None,
        hostname: None,
        appname: Some(app),
        process: Some(id),
        msgid: None,
        msg: blanks(after_tag),
    })
}

/// Returns what a line of an access point without a date says.
pub(crate) fn read_point_alone(text: &str) -> Option<Sent<'_>>
    ensures { Sends spec.point_form (chars text.now) result }
{
    let begun = blanks(text);
    let (hostname, after_host) = host(begun)?;
    let at_point = some_blanks(after_host)?;
    let after_point = point_word(at_point)?;
    let after_colon = literal(after_point, ':')?;
    let before_program = some_blanks(after_colon)?;
    let (program, rest) = read_program(before_program)?;
    Some(Sent {
        version: None,
        date: None,
        hostname,
        appname: Some(program.name),
        process: program.process,
        msgid: None,
        msg: blanks(rest),
    })
}

/// Returns what a text of no other form says.
pub(crate) fn read_alone(text: &str) -> Option<Sent<'_>>
    ensures { Sends spec.alone_form (chars text.now) result }
{
    let msg = blanks(text);
    if !is_alone(msg) {
        return None;
    }
    Some(Sent {
        version: None,
        date: None,
        hostname: None,
        appname: None,
        process: None,
        msgid: None,
        msg,
    })
}
