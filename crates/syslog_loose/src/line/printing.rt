//! Prints a line: the priority, version and timestamp from one array of ASCII, and the rest copied from the input if it
//! is already in printed form.
//!
//! Otherwise the rest is printed field by field. No message is built for a line that is printed.
ghost use Rattle.std.specs.Prelude.{◌≡◌, ◌++◌};
ghost use Rattle.syslog_loose.specs.Words.{OnOk, Some, string_bytes, WritesOnOk, encode_utf8_all, list_elements};
ghost use Rattle.syslog_pieces.specs.Front.{ascii_bytes, front_text};
ghost use Rattle.syslog_loose.specs.Clauses.{printed_number, line_value, KnowsForm, printed, rest_3164};
ghost use Rattle.syslog_loose.specs.Clauses.{rest_5424, rest_text, spaced_elements};

use super::Line;
use crate::message::{printed_priority, write_name, write_program, write_spaced, write_tag};
use std::alloc::AllocError;
use std::fmt;
use std::fmt::{Display, Write};
use syslog_elements::structured_data::ElementList;
use syslog_pieces::front::Ascii;
use syslog_text::as_str::AsStr;

// How many bytes a printed line may have beyond its rest: a priority, a version and a timestamp, and the dashes of
// absent fields.
const MORE_PRINTED: usize = 80;

impl fmt::Display for Line<'_> {
    ghost output = { λ line. Some (encode_utf8_all (printed (line_value line))) };

    #[tactic(auto, using(crate::proofs::Names::put_two, crate::proofs::PrintedLemmas::printed_line))]
    fn fmt<W: fmt::Write>(&self, f: &mut fmt::Formatter<W>) -> fmt::Result {
        let front = front_of(self);
        f.write_str(front.as_str())?;
        write_rest(f, self)
    }
}

impl Line<'_> {
    /// Returns the printed text up to the timestamp: the priority, the version of RFC 5424 and the timestamp.
    #[tactic(auto, using(crate::proofs::PrintedLemmas::printed_line))]
    pub fn front(&self) -> Ascii
        ensures { ascii_bytes result ++ encode_utf8_all (rest_text (line_value self.now))
            ≡ encode_utf8_all (printed (line_value self.now)) }
    {
        front_of(self)
    }
}

// Returns everything up to the timestamp, in printed form.
#[inline(always)]
fn front_of(line: &Line<'_>) -> Ascii
    ensures { ascii_bytes result ≡ front_text (printed_number line.now.priority) line.now.version line.now.timestamp }
{
    Ascii::front(
        printed_priority(line.priority),
        line.version,
        line.timestamp,
    )
}

// Writes all after the timestamp, field by field.
fn write_rest<W: fmt::Write>(f: &mut fmt::Formatter<W>, line: &Line<'_>) -> fmt::Result
    ensures { WritesOnOk W.write_str_gives f.old result (encode_utf8_all (rest_text (line_value line.now))) f.new }
{
    match line.version {
        Some(_) => write_rest_5424(f, line),
        None => write_rest_3164(f, line),
    }
}

// Writes the rest of a line of RFC 5424.
#[tactic(auto, using(crate::proofs::PrintedLemmas::put_encoded), unfolding(crate::proofs::Names::encode_utf8))]
fn write_rest_5424<W: fmt::Write>(f: &mut fmt::Formatter<W>, line: &Line<'_>) -> fmt::Result
    ensures { WritesOnOk W.write_str_gives f.old result (encode_utf8_all (rest_5424 (line_value line.now))) f.new }
{
    let process = line.process();
    let msg = line.msg.as_str();
    write_name(f, &line.hostname)?;
    write_program(f, &line.appname, &process, &line.msgid)?;
    f.write_str(" ")?;
    line.list.fmt(f)?;
    write_spaced(f, msg)
}

// Writes the rest of a line of RFC 3164.
#[tactic(auto, using(crate::proofs::PrintedLemmas::put_encoded), unfolding(crate::proofs::Names::encode_utf8))]
fn write_rest_3164<W: fmt::Write>(f: &mut fmt::Formatter<W>, line: &Line<'_>) -> fmt::Result
    ensures { WritesOnOk W.write_str_gives f.old result (encode_utf8_all (rest_3164 (line_value line.now))) f.new }
{
    let process = line.process();
    let msg = line.msg.as_str();
    write_name(f, &line.hostname)?;
    write_tag(f, &line.appname, &process)?;
    write_list_before(f, &line.list)?;
    f.write_str(msg)
}

// Writes the elements and a space, or nothing where there are none.
#[tactic(auto, using(crate::proofs::Names::put_two, crate::proofs::PrintedLemmas::encodes_spaced_list))]
fn write_list_before<W: fmt::Write>(
    f: &mut fmt::Formatter<W>,
    list: &ElementList<'_>,
) -> fmt::Result
    ensures { WritesOnOk W.write_str_gives f.old result
        (encode_utf8_all (spaced_elements (list_elements list.now))) f.new }
{
    if list.is_empty() {
        return Ok(());
    }
    list.fmt(f)?;
    f.write_str(" ")
}

/// Prints the line into `text`, instead of what it held. It allocates only if the text has too little capacity.
#[inline(always)]
pub(crate) fn print_line(text: &mut String, line: &Line<'_>) -> Result<(), AllocError>
    requires { KnowsForm line.now }
    ensures { OnOk result (string_bytes text.new ≡ encode_utf8_all (printed (line_value line.now))) }
{
    text.clear();
    text.reserve(line.rest.len().saturating_add(MORE_PRINTED))?;
    if !line.is_printed {
        return push_line(text, line);
    }
    let front = front_of(line);
    text.push_str(front.as_str())?;
    text.push_str(line.rest)
}

// Appends the line, field by field.
#[inline(never)]
fn push_line(text: &mut String, line: &Line<'_>) -> Result<(), AllocError>
    ensures { OnOk result
        (string_bytes text.new ≡ string_bytes text.old ++ encode_utf8_all (printed (line_value line.now))) }
{
    write!(text, "{line}")?;
    Ok(())
}
