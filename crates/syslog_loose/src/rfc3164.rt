//! The header of RFC 3164 (section 4), read loosely: eleven pieces, of which only the priority, the blanks and the
//! timestamp at the front can fail.
//!
//! `read_3164` returns the line of the one division of a text, after the pieces that can fail have been read. It reads
//! the pieces from the left, by the readers of the crates below. `resolve` says what the host field and the tag field
//! mean together.
ghost use Rattle.std.specs.Prelude.{◌≡◌};
ghost use Rattle.syslog_loose.specs.Words.{chars, Text, seen, list_elements, Visits, trimmed, Dating, field_seen};
ghost use Rattle.syslog_loose.specs.Rfc3164 as spec;
ghost use Rattle.syslog_loose.specs.Clauses.{KnowsForm, FieldsAreRead, IsAfterStamp, IsIdOf, IsLine3164, names_value};
ghost use Rattle.syslog_loose.specs.Clauses.{NamesHost, NamesProgram};

use crate::line::Line;
use crate::rfc5424::{are_all, is_bare};
use crate::tag_form::tag_form;
use syslog_elements::structured_data::rfc3164_list::DASH_RULE;
use syslog_elements::structured_data::{ElementVisitor, visit_rfc3164_list};
use syslog_pieces::timestamp::ClockStamp;
use syslog_text::text::verbatim::before;
use syslog_text::text::{Field, blanks, host_field, past_colon, tag_field};

/// The names that the header of a line shows.
#[derive(Clone, Copy)]
pub struct HeaderNames<'a> {
    /// The host.
    pub hostname: Option<&'a str>,
    /// The name of the program.
    pub appname: Option<&'a str>,
    /// The text that names the process.
    pub process: Option<&'a str>,
}

impl HeaderNames<'_> {
    // All of them absent.
    const NONE: HeaderNames<'static> = HeaderNames {
        hostname: None,
        appname: None,
        process: None,
    };
}

// Returns the names of a line that has this host and a program's name.
#[inline(always)]
#[tactic(auto, using(syslog_pieces::proofs::ProcIdLemmas::named_names))]
fn program<'a>(hostname: Option<&'a str>, name: &'a str) -> HeaderNames<'a>
    ensures names { NamesProgram (seen hostname.entry) (chars name.entry.now) (names_value result) }
    ensures process { IsIdOf (chars name.entry.now) (seen result.process) }
{
    match tag_form(name) {
        Some((tag, id)) => HeaderNames {
            hostname,
            appname: Some(tag),
            process: Some(id),
        },
        None => HeaderNames {
            hostname,
            appname: Some(name),
            process: None,
        },
    }
}

// Returns the names of a line that has one word: a program's if it is of the form `tag[id]`, otherwise a host. It is a
// call of its own, since such lines are few.
#[inline(never)]
#[tactic(auto, using(syslog_pieces::proofs::ProcIdLemmas::named_names))]
fn lone<'a>(name: &'a str) -> HeaderNames<'a>
    ensures names { NamesHost (chars name.entry.now) (names_value result) }
    ensures process { IsIdOf (chars name.entry.now) (seen result.process) }
{
    match tag_form(name) {
        Some((tag, id)) => HeaderNames {
            hostname: None,
            appname: Some(tag),
            process: Some(id),
        },
        None => HeaderNames {
            hostname: Some(name),
            appname: None,
            process: None,
        },
    }
}

/// Returns what the host field and the tag field mean together. A caller that gives a type of its own for `C` has a copy
/// of its own, which is compiled into it.
#[inline(always)]
pub fn resolve<'a, C>(host: Field<'a>, tag: Field<'a>) -> HeaderNames<'a>
    ensures names { spec.Resolves (field_seen host.entry) (field_seen tag.entry) (names_value result) }
    ensures process { spec.HasProcess (field_seen host.entry) (field_seen tag.entry) (seen result.process) }
{
    match tag {
        Field::Missing => match host {
            Field::Name(name) => lone(name),
            _ => HeaderNames::NONE,
        },
        Field::Dash => HeaderNames::NONE,
        Field::Name(name) => program(host.name(), name),
    }
}

/// The fields of names after the timestamp.
#[derive(Clone, Copy)]
pub(crate) struct NameFields<'a> {
    names: HeaderNames<'a>,
    // whether they and what ends them are already in printed form, a host field among them
    are_printed: bool,
    /// The rest, where a list may begin.
    pub(crate) rest: &'a str,
}

/// Reads the names after the timestamp, up to the blanks after their colon. Each visitor `C` has its own copy, as of
/// `resolve`, and both are compiled in.
#[inline(always)]
pub(crate) fn read_fields<'a, C>(text: &'a str) -> NameFields<'a>
    ensures { FieldsAreRead (chars text.now) result }
{
    let (host, after_host) = host_field(text);
    let (tag, after_tag) = tag_field(after_host);
    let rest = blanks(past_colon(blanks(after_tag)));
    let names = resolve::<C>(host, tag);
    let are_printed = are_all([
        host.is_there(),
        tag.name().is_some(),
        is_bare(names.process),
        before(after_tag, rest) == ": ",
        true,
    ]);
    NameFields {
        names,
        are_printed,
        rest,
    }
}

/// Returns the line of a text, from after its timestamp on, where nothing can fail.
#[inline(always)]
pub(crate) fn read_3164<'a, C, E: ElementVisitor<'a>>(
    priority: Option<u8>,
    timestamp: Option<ClockStamp>,
    text: &'a str,
    elements: &mut E,
) -> Line<'a>
    ensures reads { (dating : Dating) (whole : Text)
        → IsAfterStamp dating (trimmed whole) priority timestamp (chars text.entry.now)
        → IsLine3164 dating whole result }
    ensures form { KnowsForm result }
    ensures visited { Visits E.was_given elements.old (list_elements result.list) elements.new }
{
    let fields = read_fields::<C>(text);
    let HeaderNames {
        hostname,
        appname,
        process,
    } = fields.names;
    let (list, after_list) = visit_rfc3164_list(fields.rest, DASH_RULE, elements);
    let is_printed = fields.are_printed & list.text().is_empty();
    Line {
        version: None,
        priority,
        timestamp,
        hostname,
        appname,
        process,
        msgid: None,
        list,
        msg: blanks(after_list),
        rest: text,
        is_printed,
    }
}
