//! The filter that writes the object of each line, as JSON or as a row of CSV.
ghost use Rattle.std.specs.Prelude.{◌≡◌, ◌++◌, ◌∷◌, [], List, ℕ, false, IfErr, IfOk, OnErr, OnOk};
ghost use Rattle.std.specs.Str.{chars};
ghost use Rattle.syslog_lines.specs.Pump.{FailedAs};
ghost use Rattle.syslog_object.specs.Writer.{HasWritten};
ghost use Rattle.syslog_json.specs.Marked.{mark_text, marked_output};
ghost use Rattle.syslog_json.specs.Objects.{IsLineRead, IsOutputOf, IsValueText, StopsEarly, WritesObjects};
ghost use Rattle.syslog_json.specs.Objects.{answer_of, objects};

use crate::objects::Objects;
use crate::rows::write_refused_row;
use std::alloc::{AllocError, Global};
use std::io::{Read, Write};
use syslog_dialects::{SentLine, sent_line, unread_line};
use syslog_lines::pump::pump;
use syslog_lines::{Frames, LineCounts, LineFilter, RunFault, Watched};
use syslog_loose::{Itself, Variant, visit_line};
use syslog_object::ObjectWriter;
use syslog_utf8::decode;

/// Reads lines to the end of the input, and writes each as one JSON object on one line: that of its message, or one
/// that has the line and `"refused":true`. A line is read in the dialect that it is in, and its dates are completed by
/// `dates`. A line that is longer than `frames` allows is only counted. No object has a byte below 32. If messages are
/// chosen, no other line is written, but each is counted.
///
/// If the filter writes CSV, the header of the table comes first, also if there is no line. Then each object is written
/// as a row, which ends in CR and a line feed. A cell has the text that the object has at the key of its column, the
/// JSON of another value, and nothing if the key is absent.
///
/// The output of each block of input is written before more is read, and the writer is flushed at the end. A call that
/// failed is not repeated. It allocates a block of input, its output, and the longest line and its object.
///
/// - After `RunFault::Read` the output of each complete line that was read was written.
/// - After `RunFault::Memory` it was too, if the allocation that failed was for a block: before anything was read, or
///   for a line that takes a whole block. If it was for a line, the output of each line before it was written.
/// - After `RunFault::Write` a prefix of the output was written.
pub fn write_objects<R: Read, W: Write>(
    alloc: Global,
    frames: Frames,
    reader: &mut Watched<R>,
    writer: &mut Watched<W>,
    filter: &Objects<'_>,
) -> Result<LineCounts, RunFault>
    requires reader { reader.old.failed ≡ false }
    requires writer { writer.old.failed ≡ false }
    ensures ok { IfOk result (λ counts. WritesObjects frames filter.entry.now (R.remaining reader.old.inner)
        (R.remaining reader.new.inner)
        (W.contents writer.old.inner) (W.contents writer.new.inner) counts) }
    ensures err { IfErr result (λ fault. StopsEarly frames filter.entry.now (R.remaining reader.old.inner)
        (R.remaining reader.new.inner)
        (W.contents writer.old.inner) (W.contents writer.new.inner) fault) }
    ensures failed { FailedAs result reader.new.failed writer.new.failed }
{
    writer.write_whole(filter.head())?;
    let tally = pump(alloc, frames, filter, reader, writer)?;
    Ok(tally.counts(filter.latin1))
}

impl Objects<'_> {
    // Reads the line, gives the writer its elements, and returns the line, if it is a message.
    #[inline(always)]
    fn read<'a>(&self, line: &'a str, writer: &mut ObjectWriter<'a>) -> Option<SentLine<'a>>
        requires { HasWritten writer.old [] }
        ensures { IsLineRead self.now (chars line.now) result writer.new }
    {
        let dates = &self.dates;
        match visit_line(
            line,
            |date| dates.year_of(date),
            None,
            Variant::Either,
            &dates.zone,
            writer,
            &mut Itself,
        ) {
            Some(found) => {
                let Some(sent) = sent_line(&found, line, dates, Variant::Either, self.dialects)
                else {
                    return None;
                };
                sent.visit_own(writer);
                Some(sent)
            }
            None => {
                let Some(sent) = unread_line(line, dates, Variant::Either, self.dialects) else {
                    return None;
                };
                sent.visit_own(writer);
                Some(sent)
            }
        }
    }

    // Adds the output of the line without its line feed, or nothing if an allocation fails. Returns whether the line is a
    // message.
    #[inline(always)]
    fn write_line(
        &self,
        alloc: Global,
        line: &str,
        output: &mut Vec<u8>,
    ) -> Result<bool, AllocError>
        ensures ok { IfOk result (λ message. (bytes : List ℕ)
            × IsValueText (IsOutputOf self.now.csv) self.now false line.now (answer_of message bytes)
            × (output.new.items ≡ output.old.items ++ bytes)) }
        ensures err { OnErr result (output.new.items ≡ output.old.items) }
    {
        let mut writer = ObjectWriter::new(alloc, self.memory.replace(Vec::new(alloc)));
        let raw = self.raw.then_some(line);
        match self.read(line, &mut writer) {
            Some(found) => {
                if self.csv {
                    self.write_row(alloc, line, &found, &mut writer, output)?;
                    self.memory.set(writer.into_memory());
                    return Ok(true);
                }
                let dialect = found.dialect_name();
                writer.write(&found.line, dialect, raw, output)?;
                self.memory.set(writer.into_memory());
                Ok(true)
            }
            None => {
                if self.csv {
                    write_refused_row(alloc, line, output)?;
                    self.memory.set(writer.into_memory());
                    return Ok(false);
                }
                writer.write_refused(line, output)?;
                self.memory.set(writer.into_memory());
                Ok(false)
            }
        }
    }
}

impl LineFilter for Objects<'_> {
    ghost answers = { λ filter. objects filter };

    fn filter_line(
        &self,
        alloc: Global,
        line: &str,
        text: &mut String,
        output: &mut Vec<u8>,
    ) -> Result<bool, AllocError> {
        if let Some(is_message) = self.left_out(line) {
            return Ok(is_message);
        }
        // (the objects have memory of their own)
        let _ = text;
        let before = output.len();
        let is_message = self.write_line(alloc, line, output)?;
        if output.push(b'\n').is_err() {
            output.truncate(before);
            return Err(AllocError);
        }
        Ok(is_message)
    }

    fn filter_bytes(
        &self,
        alloc: Global,
        line: &[u8],
        output: &mut Vec<u8>,
    ) -> Result<bool, AllocError> {
        let text = decode(alloc, line, self.latin1)?;
        let mut spare = String::new(alloc);
        let mut object = Vec::new(alloc);
        // (by a second call of `write_line` each line of UTF-8 would take a tenth more instructions)
        let is_message = self.filter_line(alloc, text.as_str(), &mut spare, &mut object)?;
        if !self.latin1 {
            mark(self.csv, &mut object)?;
        }
        output.extend_from_slice(object.as_slice())?;
        Ok(is_message)
    }
}

// Says at the end of an object's line, or in the last cell of its row, that its line is not UTF-8, if it was written.
fn mark(csv: bool, object: &mut Vec<u8>) -> Result<(), AllocError>
    ensures { OnOk result (object.new.items ≡ marked_output csv object.old.items) }
{
    if object.is_empty() {
        return Ok(());
    }
    object.truncate(object.len().saturating_sub(2));
    object.extend_from_slice(mark_line(csv))
}

// Returns what replaces the last byte and the line feed of an object or a row that is marked.
fn mark_line(csv: bool) -> &'static [u8]
    ensures { result.now ≡ mark_text csv ++ (10 ∷ []) }
{
    if csv {
        b"true\r\n"
    } else {
        b",\"invalid_utf8\":true}\n"
    }
}
