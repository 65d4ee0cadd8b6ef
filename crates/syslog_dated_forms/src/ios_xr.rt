//! Lines of Cisco's IOS-XR: `2831: RP/0/RSP0/CPU0:Mar  2 06:33:04.123 UTC: config[65710]: %MGBL-SYS-5-CONFIG_I : text`.
//!
//! **Rule.** The process is the program, and the message begins with its code. The node is no host; a name before it
//! is. (Cisco, "System Monitoring": the format of system log messages.)
ghost use Rattle.std.specs.Prelude.{[], chars, MatchBool, MatchOption};
ghost use Rattle.syslog_text.specs.Pieces.Class.{Front, NoFront, optional, some_run, texted};
ghost use Rattle.syslog_text.specs.Pieces.View.{Reads, Recognises, seen, shown};
ghost use Rattle.syslog_text.specs.Text.CharClass.{is_label_char};
ghost use Rattle.syslog_sent.specs.Named.{BeginsWith};
ghost use Rattle.syslog_sent.specs.Sent.{Sends};
ghost use Rattle.syslog_dated_forms.specs.IosXr as spec;

use crate::cisco::{counter, dated_in, optional_front_year, origin, starts};
use crate::readers::{past_any, past_word_if};
use syslog_sent::date::any_date;
use syslog_sent::named::number;
use syslog_sent::sent::Sent;
use syslog_sent::skips::{colon, gap};
use syslog_text::text::{CharClass, blanks, first, literal, past_colon, split_run};

fn is_node(word: &str) -> bool
    ensures { MatchBool result (spec.IsNode (chars word.now)) (spec.IsNode (chars word.now) → ⊥) }
{
    starts(word, "RP/") || (starts(word, "LC/") || starts(word, "0/"))
}

// Whether a node may begin as the text does.
fn may_be_node(text: &str) -> bool
    ensures { MatchBool result (BeginsWith spec.begins_node (chars text.now))
        (BeginsWith spec.begins_node (chars text.now) → ⊥) }
{
    match first(text) {
        Some((c, _)) => c == 'R' || (c == 'L' || c == '0'),
        None => false,
    }
}

// Returns the text after a node.
fn node(text: &str) -> Option<&str>
    ensures { Recognises spec.node (chars text.now) result }
{
    if !may_be_node(text) {
        return None;
    }
    past_word_if(text, is_node)
}

// Returns a host's name before blanks, and the text after these.
fn host(text: &str) -> Option<(&str, &str)>
    ensures { Reads spec.host (λ host. shown host) (chars text.now) result }
{
    let (name, rest) = origin(text)?;
    let rest = gap(rest)?;
    Some((name, rest))
}

fn optional_host(text: &str) -> (Option<&str>, &str)
    ensures { Front (optional spec.host) (chars text.now) (shown result.1) (seen result.0) }
{
    match host(text) {
        Some((name, rest)) => (Some(name), rest),
        None => (None, text),
    }
}

// Reads what comes before the date: returns the host, if it comes there, and the text from the date on.
fn card(text: &str) -> Option<(Option<&str>, &str)>
    ensures { Reads spec.card seen (chars text.now) result }
{
    let after_gap = blanks(text);
    let after_counter = past_any(after_gap, counter);
    let (name, after_host) = optional_host(after_counter);
    let after_node = node(after_host)?;
    let rest = colon(after_node)?;
    Some((name, rest))
}

/// Returns a program's name, which has no white space, colon or `[`, and the text after it.
pub(crate) fn name(text: &str) -> Option<(&str, &str)>
    ensures { Reads (texted (some_run is_label_char)) (λ run. shown run) (chars text.now) result }
{
    let (run, rest) = split_run(text, CharClass::Label);
    if run.is_empty() {
        return None;
    }
    Some((run, rest))
}

// The program, the process and the message that follow the date.
#[derive(Clone, Copy)]
struct Process<'a> {
    app: &'a str,
    id: &'a str,
    msg: &'a str,
}

fn read_process(text: &str) -> Option<Process<'_>>
    ensures { MatchOption result (NoFront spec.process (chars text.now))
        (λ x. Front spec.process (chars text.now) [] (shown x.app, (shown x.id, shown x.msg))) }
{
    let after_gap = blanks(text);
    let after_colon = past_colon(after_gap);
    let begun = blanks(after_colon);
    let (app, after_name) = name(begun)?;
    let after_open = literal(after_name, '[')?;
    let (id, after_id) = number(after_open)?;
    let after_close = literal(after_id, ']')?;
    let after_tag = colon(after_close)?;
    Some(Process {
        app,
        id,
        msg: blanks(after_tag),
    })
}

/// Returns what a line of IOS-XR says.
pub(crate) fn read_ios_xr(text: &str) -> Option<Sent<'_>>
    ensures { Sends spec.xr_form (chars text.now) result }
{
    let (host, after_card) = card(text)?;
    let (year, after_year) = optional_front_year(after_card);
    let (date, after_date) = any_date(after_year)?;
    let shown = read_process(after_date)?;
    Some(Sent {
        version: None,
        date: Some(dated_in(year, date)),
        hostname: host,
        appname: Some(shown.app),
        process: Some(shown.id),
        msgid: None,
        msg: shown.msg,
    })
}
