//! Writes a line as strict RFC 5424.
ghost use Rattle.std.specs.Prelude.{◌≡◌, ◌∷◌, MatchResult, OnOk, ℕ};
ghost use Rattle.std.specs.Str.{chars};
ghost use Rattle.syslog_text.specs.Pieces.Class.{Text};
ghost use Rattle.syslog_text.specs.Pieces.View.{seen};
ghost use Rattle.syslog_elements.specs.StructuredData.Unparsed.{if_any};
ghost use Rattle.syslog_loose.specs.Line.{line_value};
ghost use Rattle.syslog_loose.specs.declared.fault.ParseFault.TheVariants.{Memory};
ghost use Rattle.syslog_strict.specs.Call.{IsLineText};
ghost use Rattle.syslog_strict.specs.Conversion.{converted, gap_between, spaced_before};
ghost use Rattle.syslog_strict.specs.Pushing.{Appends, data_text, text_in};

use crate::joined::push_list;
use crate::names::{push_host, push_process, push_word};
use crate::stamp::push_front;
use crate::text::{push_char, push_text};
use std::alloc::{AllocError, Global};
use syslog_loose::{Line, ParseFault};
use syslog_text::text::first;

// How many bytes a converted line may have beyond the rest of the line.
const MORE: usize = 96;

// Appends a space if neither text is empty.
fn push_gap(out: &mut String, before: &str, after: &str) -> Result<(), AllocError>
    ensures { OnOk result (Appends out.old (gap_between (chars before.now) (chars after.now)) out.new) }
{
    match first(before) {
        Some(_) => push_space_before(out, after),
        None => Ok(()),
    }
}

// Appends a space if the text is not empty.
fn push_space_before(out: &mut String, after: &str) -> Result<(), AllocError>
    ensures { (c : ℕ) (t : Text) → OnOk result (Appends out.old (gap_between (c ∷ t) (chars after.now)) out.new) }
{
    match first(after) {
        Some(_) => push_char(out, ' '),
        None => Ok(()),
    }
}

// Appends what was left unparsed of structured data, and then the message part.
#[cold]
#[inline(never)]
fn push_unparsed(out: &mut String, unparsed: &str, msg: &str) -> Result<(), AllocError>
    ensures { OnOk result (Appends out.old (spaced_before (chars unparsed.now) (chars msg.now)) out.new) }
{
    push_text(out, unparsed)?;
    push_gap(out, unparsed, msg)?;
    push_text(out, msg)
}

// Appends what was left unparsed of structured data, if anything was, and then the message part.
#[inline(always)]
fn push_msg(out: &mut String, unparsed: Option<&str>, msg: &str) -> Result<(), AllocError>
    ensures { (left : Text) → seen unparsed.entry ≡ if_any left
        → OnOk result (Appends out.old (spaced_before left (chars msg.now)) out.new) }
{
    match unparsed {
        Some(unparsed) => push_unparsed(out, unparsed, msg),
        None => push_text(out, msg),
    }
}

// Appends the message id and the structured data, with a space before each and after them. Most lines have neither.
#[inline(always)]
fn push_data(alloc: Global, out: &mut String, line: &Line<'_>) -> Result<(), AllocError>
    ensures { OnOk result (Appends out.old (data_text (converted (line_value line.now))) out.new) }
{
    if line.msgid.is_none() && line.list.is_empty() {
        return push_text(out, " - - ");
    }
    push_char(out, ' ')?;
    push_word(out, line.msgid, 32)?;
    push_char(out, ' ')?;
    push_list(alloc, out, line.list)?;
    push_char(out, ' ')
}

// Replaces `text` by the converted message of the line.
fn write_line<const IS_APART: bool>(
    alloc: Global,
    text: &mut String,
    line: &Line<'_>,
) -> Result<(), AllocError>
    ensures { OnOk result (IsLineText line.now (text_in text.new)) }
{
    text.clear();
    text.reserve(line.rest.len().saturating_add(MORE))?;
    push_front(text, line)?;
    push_char(text, ' ')?;
    push_host(text, line.hostname)?;
    push_char(text, ' ')?;
    push_word(text, line.appname, 48)?;
    push_char(text, ' ')?;
    push_process(alloc, text, line.process)?;
    let unparsed = line.list.unparsed();
    push_data(alloc, text, line)?;
    push_msg(text, unparsed, line.msg)
}

/// Replaces `text` by the converted message of the line, with what was left unparsed of its structured data before the
/// message part. It fails only if an allocation does, and `text` may then hold anything.
///
/// What it calls is compiled once for each value of `IS_APART`: a caller that has a rare second call passes `true`
/// there, since with two callers it would be compiled into neither.
#[inline(always)]
pub fn convert_line<const IS_APART: bool>(
    alloc: Global,
    text: &mut String,
    line: &Line<'_>,
) -> Result<(), ParseFault>
    ensures { MatchResult result (λ _. IsLineText line.now (text_in text.new)) (λ fault. fault ≡ Memory) }
{
    match write_line::<IS_APART>(alloc, text, line) {
        Ok(()) => Ok(()),
        Err(_) => Err(ParseFault::Memory),
    }
}
