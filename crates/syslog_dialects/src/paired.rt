//! Lines with Check Point's element, which is no strict one: which they are, and what becomes of the element.
//!
//! **Rule.** The form is that of `syslog_named_forms`, whose message begins with the element. Here the element is taken
//! out of the message.
ghost use Rattle.std.specs.Prelude.{◌≡◌, [], MatchBool, chars};
ghost use Rattle.syslog_text.specs.Pieces.Class.{Row};
ghost use Rattle.syslog_text.specs.Pieces.View.{Recognises};
ghost use Rattle.syslog_text.specs.Text.{host as host_class, word as word_class};
ghost use Rattle.syslog_elements.specs.StructuredData.Visited.{list_text};
ghost use Rattle.syslog_loose.specs.Line.{KnowsForm, line_value};
ghost use Rattle.syslog_sent.specs.declared.dialect.Dialect.TheVariants.{CheckPoint};
ghost use Rattle.syslog_dialects.specs.Paired as spec;

use syslog_elements::structured_data::paired_list;
use syslog_loose::Line;
use syslog_sent::dialect::Dialect;
use syslog_sent::skips::gap;
use syslog_text::text::{blanks, host, word};

fn past_host(text: &str) -> Option<&str>
    ensures { Recognises host_class (chars text.now) result }
{
    let (_, rest) = host(text)?;
    Some(rest)
}

fn past_word(text: &str) -> Option<&str>
    ensures { Recognises word_class (chars text.now) result }
{
    let (_, rest) = word(text)?;
    Some(rest)
}

// Returns the text after the names of a header of RFC 5424, from after its timestamp on.
fn past_names(text: &str) -> Option<&str>
    ensures { Recognises (Row spec.names_row) (chars text.now) result }
{
    gap(text)
        .and_then(past_host)
        .and_then(gap)
        .and_then(past_word)
        .and_then(gap)
        .and_then(past_word)
        .and_then(gap)
        .and_then(past_word)
        .and_then(gap)
}

// Whether the text has names and then Check Point's element. It is a call of its own, since few lines come here, and of
// the text alone: a reference to the line would keep each line in memory (300 instructions more).
#[cold]
#[inline(never)]
fn names_pairs(text: &str) -> bool
    ensures { MatchBool result (spec.NamesPairs (chars text.now)) (spec.NamesPairs (chars text.now) → ⊥) }
{
    match past_names(text) {
        Some(data) => paired_list(data).is_some(),
        None => false,
    }
}

/// Returns whether the line of RFC 5424, of which something was left unparsed, has Check Point's element.
#[inline(always)]
pub(crate) fn is_paired(line: &Line<'_>) -> bool
    ensures { MatchBool result (spec.HasPairs line.now) (spec.HasPairs line.now → ⊥) }
{
    line.list.is_empty() && names_pairs(line.rest)
}

// Whether the dialect is Check Point's.
fn has_pairs(dialect: Dialect) -> bool
    ensures { MatchBool result (dialect ≡ CheckPoint) (dialect ≡ CheckPoint → ⊥) }
{
    matches!(dialect, Dialect::CheckPoint)
}

/// Returns the line of this dialect, with Check Point's element as its structured data if it begins the message.
pub(crate) fn opened<'a>(dialect: Dialect, line: &Line<'a>) -> Line<'a>
    requires { KnowsForm line.now }
    ensures opened { spec.IsOpened dialect (line_value line.now) (line_value result) }
    ensures text { list_text line.now.list ≡ [] → list_text result.list ≡ [] }
    ensures form { KnowsForm result }
{
    let whole = Line {
        rest: line.rest,
        ..*line
    };
    if !has_pairs(dialect) {
        return whole;
    }
    let Some((list, rest)) = paired_list(line.msg) else {
        return whole;
    };
    let mut line = whole;
    line.list = list;
    line.msg = blanks(rest);
    line.is_printed = false;
    line
}
