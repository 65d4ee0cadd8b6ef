//! The filter that writes each line as RFC 5424.
ghost use Rattle.std.specs.Prelude.{◌≡◌, ◌↔◌, false, IfErr, IfOk, IsTrue, MatchResult, Some};
ghost use Rattle.std.specs.Str.{chars};
ghost use Rattle.syslog_loose.specs.declared.fault.ParseFault.TheVariants.{Invalid};
ghost use Rattle.syslog_lines.specs.Pump.{EndsEarly, FailedAs};
ghost use Rattle.syslog_strict.specs.Grammar.{IsSyslogMsg};
ghost use Rattle.syslog_strict.specs.Pushing.{text_in};
ghost use Rattle.syslog_5424.specs.Conversions.{ConvertsAll, IsAskedFor, IsRefused, IsWritten};
ghost use Rattle.syslog_5424.specs.Conversions.{conversions};

use std::alloc::{AllocError, Global};
use std::io::{Read, Write};
use syslog_choice::{Choice, sent_apart};
use syslog_lines::pump::pump;
use syslog_lines::{Frames, Framing, LineCounts, LineFilter, RunFault, Watched, push_frame};
use syslog_loose::{Dates, ParseFault, Variant};
use syslog_strict_sent::to_rfc5424_sent;
use syslog_utf8::decode;

/// Reads lines to the end of the input, and writes each as RFC 5424: a line that is in the grammar as it came, and
/// otherwise its message, converted, with its dates completed by `dates`. If dialects are asked for, a line is read in
/// the one that it is in. A line that is neither in the grammar nor a message is left out and counted as refused. A
/// line that is not UTF-8 is first decoded: as ISO 8859-1, or with U+FFFD for each part that is not UTF-8. If messages
/// are chosen, no others are written, and all are counted.
///
/// Each line written is in the grammar of RFC 5424, and a converted one is parsed as the converted message. The output
/// of each block of input is written before more is read, and the writer is flushed at the end. A call that failed is
/// not repeated. It allocates a block of input, its output, and the longest line.
///
/// - After `RunFault::Read` the output of each complete line that was read was written.
/// - After `RunFault::Memory` it was too, if the allocation that failed was for a block: before anything was read, or
///   for a line that takes a whole block. If it was for a line, the output of each line before it was written.
/// - After `RunFault::Write` a prefix of the output was written.
pub fn write_converted<R: Read, W: Write>(
    alloc: Global,
    frames: Frames,
    reader: &mut Watched<R>,
    writer: &mut Watched<W>,
    filter: &Conversions<'_>,
) -> Result<LineCounts, RunFault>
    requires reader { reader.old.failed ≡ false }
    requires writer { writer.old.failed ≡ false }
    ensures ok { IfOk result (λ counts. ConvertsAll frames filter.entry.now (R.remaining reader.old.inner)
        (R.remaining reader.new.inner)
        (W.contents writer.old.inner) (W.contents writer.new.inner) counts) }
    ensures err { IfErr result (λ fault. EndsEarly frames (conversions filter.entry.now) (R.remaining reader.old.inner)
        (R.remaining reader.new.inner)
        (W.contents writer.old.inner) (W.contents writer.new.inner) fault) }
    ensures failed { FailedAs result reader.new.failed writer.new.failed }
{
    let tally = pump(alloc, frames, filter, reader, writer)?;
    Ok(tally.counts(filter.latin1))
}

/// The filter that writes each line as RFC 5424.
#[derive(Drop)]
pub struct Conversions<'a> {
    /// How the frames that are written follow each other.
    pub framing: Framing,
    /// Whether a line is read in a dialect that it is in.
    pub dialects: bool,
    /// Whether a line that is not UTF-8 is decoded as ISO 8859-1.
    pub latin1: bool,
    /// How dates that show no year or no zone are completed.
    pub dates: Dates,
    /// Which messages are written. If it is absent, all are.
    pub choice: Option<Choice<'a>>,
}

impl Conversions<'_> {
    // Returns whether the line is one of the messages that are chosen, if some are.
    #[inline(always)]
    fn asks_for(&self, line: &str) -> bool
        ensures { IsTrue result ↔ IsAskedFor self.now (chars line.now) }
    {
        match &self.choice {
            Some(choice) => self.is_asked_for(choice, line),
            None => true,
        }
    }

    // Returns whether the line is a message of this choice. It is a call, so that each line pays one test alone if
    // nothing is chosen.
    #[cold]
    #[inline(never)]
    fn is_asked_for(&self, choice: &Choice<'_>, line: &str) -> bool
        requires { self.now.choice ≡ Some choice.now }
        ensures { IsTrue result ↔ IsAskedFor self.now (chars line.now) }
    {
        match sent_apart(line, &self.dates, self.dialects) {
            Some(found) => choice.is_chosen(&found.line),
            None => false,
        }
    }

    // Writes the conversion of a line into `text`.
    #[inline(always)]
    fn convert_line(&self, alloc: Global, line: &str, text: &mut String) -> Result<(), ParseFault>
        ensures { MatchResult result
            (λ _. IsSyslogMsg (text_in text.new) × IsWritten self.now (chars line.now) (text_in text.new))
            (λ fault. (fault ≡ Invalid) ↔ IsRefused self.now (chars line.now)) }
    {
        to_rfc5424_sent(
            alloc,
            text,
            line,
            &self.dates,
            Variant::Either,
            self.dialects,
        )
    }
}

impl LineFilter for Conversions<'_> {
    ghost answers = { λ filter. conversions filter };

    #[inline(always)]
    fn filter_line(
        &self,
        alloc: Global,
        line: &str,
        text: &mut String,
        output: &mut Vec<u8>,
    ) -> Result<bool, AllocError> {
        match self.convert_line(alloc, line, text) {
            Ok(()) => {
                if !self.asks_for(line) {
                    return Ok(true);
                }
                push_frame(output, self.framing, text.as_bytes())?;
                Ok(true)
            }
            Err(ParseFault::Invalid) => Ok(false),
            Err(ParseFault::Memory) => Err(AllocError),
        }
    }

    #[inline(never)]
    fn filter_bytes(
        &self,
        alloc: Global,
        line: &[u8],
        output: &mut Vec<u8>,
    ) -> Result<bool, AllocError> {
        let text = decode(alloc, line, self.latin1)?;
        let mut converted = String::new(alloc);
        self.filter_line(alloc, text.as_str(), &mut converted, output)
    }
}
