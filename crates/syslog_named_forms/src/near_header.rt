//! Headers that are nearly of RFC 5424: a version, and a date that RFC 5424 does not have, or no structured data.
//!
//! **Rule.** Programs write `1` and a date by `strftime`, whose offset has no colon, or no offset at all; others write
//! the tag of RFC 3164 after such a header, or a message of CEF or LEEF. Elements stay in the message.
ghost use Rattle.std.specs.Prelude.{◌≡◌, chars};
ghost use Rattle.syslog_text.specs.Pieces.Class.{Front, Row, Text};
ghost use Rattle.syslog_text.specs.Pieces.View.{Reads, Recognises, seen};
ghost use Rattle.syslog_named_forms.specs.NearHeader as spec;
ghost use Rattle.syslog_named_forms.specs.NearHeaderViews.{head_values, ids_values, source_values};
ghost use Rattle.syslog_sent.specs.Sent.{Sends, sent_value};

use crate::marks::mark_end;
use crate::untagged::Mark;
use syslog_elements::structured_data::paired_list;
use syslog_sent::date::any_date;
use syslog_sent::named::read_program;
use syslog_sent::sent::{Sent, SentDate};
use syslog_sent::zone::ends_word;
use syslog_text::text::{blanks, host, literal, number, some_blanks, word};

/// The front of such a header.
#[derive(Clone, Copy)]
pub(crate) struct Start<'a> {
    version: u32,
    date: SentDate,
    hostname: Option<&'a str>,
}

/// Returns the front of a header, up to the host and the blanks after it, and the text after that.
pub(crate) fn head(text: &str) -> Option<(Start<'_>, &str)>
    ensures { Reads (Row spec.head_row) head_values (chars text.now) result }
{
    let (version, after_version) = number(text, 999)?;
    let at_date = some_blanks(after_version)?;
    let (date, after_date) = any_date(at_date)?;
    let at_host = some_blanks(after_date)?;
    let (hostname, after_host) = host(at_host)?;
    let rest = some_blanks(after_host)?;
    let head = Start {
        version,
        date,
        hostname,
    };
    Some((head, rest))
}

// Returns the text after a dash that ends there.
fn nil(text: &str) -> Option<&str>
    ensures { Recognises spec.nil (chars text.now) result }
{
    let rest = literal(text, '-')?;
    if !ends_word(rest) {
        return None;
    }
    Some(rest)
}

/// The names that may follow the front.
#[derive(Clone, Copy)]
struct Names<'a> {
    appname: Option<&'a str>,
    process: Option<&'a str>,
    msgid: Option<&'a str>,
}

// Returns the program and the process, and the text after them and blanks.
#[inline(always)]
fn source(text: &str) -> Option<(Names<'_>, &str)>
    ensures { Reads (Row spec.source_row) source_values (chars text.now) result }
{
    let (appname, after_app) = word(text)?;
    let at_process = some_blanks(after_app)?;
    let (process, after_process) = word(at_process)?;
    let rest = some_blanks(after_process)?;
    let names = Names {
        appname,
        process,
        msgid: None,
    };
    Some((names, rest))
}

// Returns these and the message id, and the text after them and blanks.
#[inline(always)]
fn ids(text: &str) -> Option<(Names<'_>, &str)>
    ensures { Reads (Row spec.ids_row) ids_values (chars text.now) result }
{
    let (source, at_id) = source(text)?;
    let (msgid, after_id) = word(at_id)?;
    let rest = some_blanks(after_id)?;
    let names = Names {
        appname: source.appname,
        process: source.process,
        msgid,
    };
    Some((names, rest))
}

// Returns what a line says that has these names and this message.
#[inline(always)]
fn sent<'a>(head: Start<'a>, names: Names<'a>, msg: &'a str) -> Sent<'a>
    ensures { sent_value result ≡ spec.said head.entry.version head.entry.date (seen head.entry.hostname)
        (seen names.entry.appname) (seen names.entry.process) (seen names.entry.msgid) (chars msg.entry.now) }
{
    Sent {
        version: Some(head.version),
        date: Some(head.date),
        hostname: head.hostname,
        appname: names.appname,
        process: names.process,
        msgid: names.msgid,
        msg,
    }
}

/// Returns what a line says that has a message of CEF or LEEF after the front of its header.
pub(crate) fn read_vendor<'a>(head: Start<'a>, rest: &'a str, mark: Mark) -> Option<Sent<'a>>
    ensures { (text : Text) → Front (Row spec.head_row) text (chars rest.entry.now) (head_values head.entry)
        → Sends (spec.vendor_form mark) text result }
{
    let _ = mark_end(rest, mark)?;
    let names = Names {
        appname: None,
        process: None,
        msgid: None,
    };
    Some(sent(head, names, rest))
}

/// Returns what a line says that has Check Point's element after the message id. It begins the message.
pub(crate) fn read_paired<'a>(head: Start<'a>, rest: &'a str) -> Option<Sent<'a>>
    ensures { (text : Text) → Front (Row spec.head_row) text (chars rest.entry.now) (head_values head.entry)
        → Sends spec.paired_form text result }
{
    let (names, msg) = ids(rest)?;
    let _ = paired_list(msg)?;
    Some(sent(head, names, msg))
}

/// Returns what a line says whose header has `-` for the structured data.
pub(crate) fn read_nil<'a>(head: Start<'a>, rest: &'a str) -> Option<Sent<'a>>
    ensures { (text : Text) → Front (Row spec.head_row) text (chars rest.entry.now) (head_values head.entry)
        → Sends spec.nil_form text result }
{
    let (names, at_nil) = ids(rest)?;
    let after_nil = nil(at_nil)?;
    Some(sent(head, names, blanks(after_nil)))
}

/// Returns what a line says that has a tag of RFC 3164 after the host.
pub(crate) fn read_tag<'a>(head: Start<'a>, rest: &'a str) -> Option<Sent<'a>>
    ensures { (text : Text) → Front (Row spec.head_row) text (chars rest.entry.now) (head_values head.entry)
        → Sends spec.tag_form text result }
{
    let (program, after_program) = read_program(rest)?;
    let names = Names {
        appname: Some(program.name),
        process: program.process,
        msgid: None,
    };
    Some(sent(head, names, blanks(after_program)))
}

/// Returns what a line says whose message follows `-` for the message id.
pub(crate) fn read_heroku<'a>(head: Start<'a>, rest: &'a str) -> Option<Sent<'a>>
    ensures { (text : Text) → Front (Row spec.head_row) text (chars rest.entry.now) (head_values head.entry)
        → Sends spec.heroku_form text result }
{
    let (source, at_id) = source(rest)?;
    let after_id = literal(at_id, '-')?;
    let msg = some_blanks(after_id)?;
    let names = Names {
        appname: source.appname,
        process: source.process,
        msgid: None,
    };
    Some(sent(head, names, msg))
}

/// Returns what a line says whose message follows the message id.
pub(crate) fn read_bare<'a>(head: Start<'a>, rest: &'a str) -> Option<Sent<'a>>
    ensures { (text : Text) → Front (Row spec.head_row) text (chars rest.entry.now) (head_values head.entry)
        → Sends spec.bare_form text result }
{
    let (names, msg) = ids(rest)?;
    Some(sent(head, names, msg))
}
