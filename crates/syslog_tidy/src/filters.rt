//! The filters. `run` writes each message in its stable form, `refused` the other lines, and `changed` those that the
//! Rust crate's rule of the dash reads differently.
ghost use Rattle.std.specs.Prelude.{◌≡◌, ◌↔◌, Some, None, false, Err, IsTrue, IfOk, IfErr, MatchResult, string_bytes};
ghost use Rattle.std.specs.Result.{IsOkAnd};
ghost use Rattle.std.specs.Str.{chars};
ghost use Rattle.syslog_loose.specs.DashChange.{ReadsDifferently};
ghost use Rattle.syslog_loose.specs.Reading.{IsUnreadable, in_utc};
ghost use Rattle.syslog_loose.specs.declared.fault.ParseFault.TheVariants.{Invalid};
ghost use Rattle.syslog_loose.specs.declared.variant.Variant.TheVariants.{Either};
ghost use Rattle.syslog_tidy.specs.Filters.{FindsChanged, IsTidied, RefusesAll, TidiesAll, WritesAgain};
ghost use Rattle.syslog_tidy.specs.Filters.{finding_changed, refusing, tidying};
ghost use Rattle.syslog_lines.specs.Frames.{plain_lines};
ghost use Rattle.syslog_lines.specs.Pump.{EndsEarly, FailedAs};

use crate::counts::Changed;
use std::alloc::{AllocError, Global};
use std::io::{Read, Write};
use syslog_lines::pump::pump;
use syslog_lines::{Frames, LineFilter, RunFault, Summary, Watched, push_line};
use syslog_loose::{ParseFault, TimeZone, Variant, reads_differently, settle_into};

/// Reads lines to the end of the input, and writes the stable printed form of each message, with dates completed in the
/// given year. The stable form is the first round that is printed again as it is.
///
/// A line that has none, or is not UTF-8, gives no output and is counted as refused. The output, filtered again in that
/// year, is written as it is. The output of each block is written before more is read, and the writer is flushed at the
/// end. A call that failed is not repeated. It allocates a block of input, its output, and the longest line.
///
/// - After `RunFault::Read` the output of each complete line that was read was written.
/// - After `RunFault::Memory` it was too, if the allocation that failed was for a block: the first one, or one for a
///   line that fills a block. Otherwise an allocation failed for a line that parses, and the output of each line before
///   it was written.
/// - After `RunFault::Write` a prefix of the output was written.
pub fn run<R: Read, W: Write>(
    alloc: Global,
    reader: &mut Watched<R>,
    writer: &mut Watched<W>,
    year: i32,
) -> Result<Summary, RunFault>
    requires reader { reader.old.failed ≡ false }
    requires writer { writer.old.failed ≡ false }
    ensures ok { IfOk result (λ summary. TidiesAll year (R.remaining reader.old.inner) (R.remaining reader.new.inner)
        (W.contents writer.old.inner) (W.contents writer.new.inner) summary) }
    ensures again { IfOk result (λ summary. WritesAgain year (R.remaining reader.old.inner)
        (W.contents writer.old.inner) (W.contents writer.new.inner) summary) }
    ensures err { IfErr result (λ fault. EndsEarly plain_lines (tidying year) (R.remaining reader.old.inner)
        (R.remaining reader.new.inner)
        (W.contents writer.old.inner) (W.contents writer.new.inner) fault) }
    ensures failed { FailedAs result reader.new.failed writer.new.failed }
{
    let tally = pump(alloc, Frames::plain(), &Tidy { year }, reader, writer)?;
    Ok(Summary {
        lines: tally.lines(),
        refused: tally.skipped,
    })
}

/// The filter of `run`, in this year.
#[derive(Drop)]
pub struct Tidy {
    pub year: i32,
}

impl Tidy {
    /// Writes the first stable round of a line into `text`.
    #[inline(always)]
    pub fn settle_line(
        &self,
        alloc: Global,
        line: &str,
        text: &mut String,
    ) -> Result<(), ParseFault>
        ensures settles { MatchResult result
            (λ _. IsTidied self.now.year (chars line.now) (Some (chars (string_bytes text.new))))
            (λ fault. fault ≡ Invalid → IsTidied self.now.year (chars line.now) None) }
        ensures refusal { IsUnreadable Either (in_utc self.now.year) (chars line.now) → result ≡ Err Invalid }
    {
        let year = self.year;
        settle_into(
            alloc,
            text,
            line,
            |_| year,
            None,
            Variant::Either,
            &TimeZone::UTC,
        )
    }
}

impl LineFilter for Tidy {
    ghost answers = { λ tidy. tidying tidy.year };

    #[inline(always)]
    fn filter_line(
        &self,
        alloc: Global,
        line: &str,
        text: &mut String,
        output: &mut Vec<u8>,
    ) -> Result<bool, AllocError> {
        match self.settle_line(alloc, line, text) {
            Ok(()) => {
                push_line(output, text.as_bytes())?;
                Ok(true)
            }
            Err(ParseFault::Invalid) => Ok(false),
            Err(ParseFault::Memory) => Err(AllocError),
        }
    }

    fn filter_bytes(&self, _: Global, _: &[u8], _: &mut Vec<u8>) -> Result<bool, AllocError> {
        Ok(false)
    }
}

/// Reads lines to the end of the input, and writes, as it came, each for which `run` writes nothing in the given year.
/// Each line is in the output of exactly one of the two.
///
/// Blocks, faults, the flush, allocations and what was written after a fault are as for `run`, but a line that is
/// written may need an allocation too.
pub fn refused<R: Read, W: Write>(
    alloc: Global,
    reader: &mut Watched<R>,
    writer: &mut Watched<W>,
    year: i32,
) -> Result<Summary, RunFault>
    requires reader { reader.old.failed ≡ false }
    requires writer { writer.old.failed ≡ false }
    ensures ok { IfOk result (λ summary. RefusesAll year (R.remaining reader.old.inner) (R.remaining reader.new.inner)
        (W.contents writer.old.inner) (W.contents writer.new.inner) summary) }
    ensures err { IfErr result (λ fault. EndsEarly plain_lines (refusing year) (R.remaining reader.old.inner)
        (R.remaining reader.new.inner)
        (W.contents writer.old.inner) (W.contents writer.new.inner) fault) }
    ensures failed { FailedAs result reader.new.failed writer.new.failed }
{
    let refusals = Refusals {
        tidy: Tidy { year },
    };
    let tally = pump(alloc, Frames::plain(), &refusals, reader, writer)?;
    Ok(Summary {
        lines: tally.lines(),
        refused: tally.answered,
    })
}

/// The filter that writes each line for which `Tidy` writes nothing, as it came.
#[derive(Drop)]
struct Refusals {
    tidy: Tidy,
}

impl LineFilter for Refusals {
    ghost answers = { λ refusals. refusing refusals.tidy.year };

    fn filter_line(
        &self,
        alloc: Global,
        line: &str,
        text: &mut String,
        output: &mut Vec<u8>,
    ) -> Result<bool, AllocError> {
        match self.tidy.settle_line(alloc, line, text) {
            Ok(()) => Ok(false),
            Err(ParseFault::Invalid) => {
                push_line(output, line.as_bytes())?;
                Ok(true)
            }
            Err(ParseFault::Memory) => Err(AllocError),
        }
    }

    fn filter_bytes(
        &self,
        _: Global,
        line: &[u8],
        output: &mut Vec<u8>,
    ) -> Result<bool, AllocError> {
        push_line(output, line)?;
        Ok(true)
    }
}

/// Reads lines to the end of the input, and writes, as it came, each that the Rust crate's rule of the dash reads
/// differently, in the given year.
///
/// Other lines, and those that are not UTF-8, give no output. Blocks, faults, the flush, allocations and what was
/// written after a fault are as for `run`.
pub fn changed<R: Read, W: Write>(
    alloc: Global,
    reader: &mut Watched<R>,
    writer: &mut Watched<W>,
    year: i32,
) -> Result<Changed, RunFault>
    requires reader { reader.old.failed ≡ false }
    requires writer { writer.old.failed ≡ false }
    ensures ok { IfOk result (λ counts. FindsChanged year (R.remaining reader.old.inner)
        (R.remaining reader.new.inner)
        (W.contents writer.old.inner) (W.contents writer.new.inner) counts) }
    ensures err { IfErr result (λ fault. EndsEarly plain_lines (finding_changed year) (R.remaining reader.old.inner)
        (R.remaining reader.new.inner)
        (W.contents writer.old.inner) (W.contents writer.new.inner) fault) }
    ensures failed { FailedAs result reader.new.failed writer.new.failed }
{
    let tally = pump(
        alloc,
        Frames::plain(),
        &ChangedLines { year },
        reader,
        writer,
    )?;
    Ok(Changed {
        lines: tally.lines(),
        changed: tally.answered,
    })
}

/// The filter of `changed`, in this year.
#[derive(Drop)]
struct ChangedLines {
    year: i32,
}

impl ChangedLines {
    // Returns whether the line reads differently under the two rules of the dash. This never fails.
    fn is_changed(&self, alloc: Global, line: &str) -> Result<bool, AllocError>
        ensures { IsOkAnd result (λ differs. IsTrue differs
            ↔ ReadsDifferently Either (in_utc self.now.year) (chars line.now)) }
    {
        let year = self.year;
        reads_differently(alloc, line, |_| year, None, Variant::Either, &TimeZone::UTC)
    }
}

impl LineFilter for ChangedLines {
    ghost answers = { λ filter. finding_changed filter.year };

    fn filter_line(
        &self,
        alloc: Global,
        line: &str,
        _: &mut String,
        output: &mut Vec<u8>,
    ) -> Result<bool, AllocError> {
        let is_changed = self.is_changed(alloc, line)?;
        if is_changed {
            push_line(output, line.as_bytes())?;
        }
        Ok(is_changed)
    }

    fn filter_bytes(&self, _: Global, _: &[u8], _: &mut Vec<u8>) -> Result<bool, AllocError> {
        Ok(false)
    }
}
