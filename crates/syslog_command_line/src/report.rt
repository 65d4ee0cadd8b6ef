//! What the programs report: at their end on standard error, and the texts that were asked for. Each message is handed
//! to the first write as a whole, so that those of programs that run side by side don't mix.
//!
//! **Rule.** The texts and the exit statuses are this project's own choice, stated in `specs/Report.antt` and
//! `specs/Counts.antt`.
ghost use Rattle.std.specs.Prelude.{◌≡◌, ◌==◌, ◌≤◌, if◌then◌else◌, false, [], codes, length, map};
ghost use Rattle.std.specs.Fmt.InlineText.{inline_text};
ghost use Rattle.std.specs.List.{concat};
ghost use Rattle.syslog_command_line.specs.Counts.{counts_status, counts_text, lines_said, lines_status, reasons};
ghost use Rattle.syslog_command_line.specs.Counts.{refused_line, replaced_line};
ghost use Rattle.syslog_command_line.specs.Report.{WritesUnlessFailed, count_line, fault_line, said_of, status_of};
ghost use Rattle.syslog_command_line.specs.Report.{version_line};
ghost use Rattle.syslog_lines.specs.declared.summary.RunFault.TheVariants.{Write};

use itoa::Buffer;
use std::fmt::InlineText;
use std::io::Write;
use syslog_lines::{LineCounts, RunFault, Summary, Watched};

/// How many bytes a message is given, which is put together without allocating: more than one line has.
const LINE: usize = 512;

/// How many bytes a message of two lines is given.
const LINES: usize = 1024;

/// How many bytes the reasons why lines are no messages have at most.
const REASONS: usize = 128;

/// How many bytes of the name of a program or of a version are always written, and of the word for what became of
/// lines.
const NAME: usize = 64;

/// Writes how many lines were refused, or the text of the fault. Returns the exit status: 0 if no line was refused, 1
/// if some were, 2 after a fault. If none was refused, nothing is written. If a write fails, `errors.failed` is set.
pub fn report<W: Write>(outcome: &Result<Summary, RunFault>, errors: &mut Watched<W>) -> u8
    requires { errors.old.failed ≡ false }
    ensures status { result ≡ status_of (λ summary. summary.refused) outcome.now }
    ensures said { WritesUnlessFailed (W.contents errors.old.inner) (W.contents errors.new.inner) errors.new.failed
        (said_of (codes "refused") (λ summary. summary.refused) (λ summary. summary.lines) outcome.now) }
{
    match outcome {
        Ok(summary) => report_count("refused", summary.refused, summary.lines, errors),
        Err(fault) => report_fault(*fault, errors),
    }
}

/// Writes how many lines are no messages and how many are not UTF-8, or the text of the fault. Returns the exit status:
/// 0 if each line is a message and UTF-8, 1 if not, 2 after a fault. If a write fails, `errors.failed` is set.
///
/// It writes a line of the form `syslog_json: 3 of 12 lines are no messages (2 not UTF-8, 1 too long)`, and one that
/// says how many messages have U+FFFD for what is not UTF-8. A line that would count nothing is not written, nor is a
/// kind of lines in brackets. The name has at most 64 bytes.
pub fn report_lines<W: Write>(
    program: &str,
    outcome: &Result<LineCounts, RunFault>,
    errors: &mut Watched<W>,
) -> u8
    requires { errors.old.failed ≡ false }
    ensures status { result ≡ lines_status outcome.now }
    ensures said { length program.now ≤ NAME → WritesUnlessFailed (W.contents errors.old.inner)
        (W.contents errors.new.inner) errors.new.failed (lines_said program.now outcome.now) }
{
    match outcome {
        Ok(counts) => report_counts(program, counts, errors),
        Err(fault) => report_fault(*fault, errors),
    }
}

// Writes what `report_lines` writes for these counts, and returns the exit status.
fn report_counts<W: Write>(program: &str, counts: &LineCounts, errors: &mut Watched<W>) -> u8
    requires { errors.old.failed ≡ false }
    ensures status { result ≡ counts_status counts.now }
    ensures said { length program.now ≤ NAME → WritesUnlessFailed (W.contents errors.old.inner)
        (W.contents errors.new.inner) errors.new.failed (counts_text program.now counts.now) }
{
    let refused = say_refused(program, counts);
    let replaced = say_replaced(program, counts);
    let text = InlineText::<LINES>::new()
        .and_str(refused.as_str(), LINES)
        .and_str(replaced.as_str(), LINES);
    write_text(text.as_str(), errors);
    status_of(counts)
}

// Returns the exit status after these counts.
fn status_of(counts: &LineCounts) -> u8
    ensures { result ≡ counts_status counts.now }
{
    if counts.refused == 0 && counts.replaced == 0 {
        0
    } else {
        1
    }
}

// Returns the line that says how many lines are no messages, and why.
fn say_refused(program: &str, counts: &LineCounts) -> InlineText<LINE>
    ensures { length program.now ≤ NAME → inline_text result ≡ refused_line program.now counts.now }
{
    if counts.refused == 0 {
        return InlineText::new();
    }
    let (mut first, mut second) = (Buffer::new(), Buffer::new());
    let refused = first.format(counts.refused);
    let lines = second.format(counts.lines);
    let reasons = say_reasons(counts.refused_invalid, counts.too_long);
    joined(&[
        program,
        ": ",
        refused,
        " of ",
        lines,
        " lines are no messages",
        reasons.as_str(),
        "\n",
    ])
}

// Returns how many lines are not UTF-8 and how many are too long, in brackets; or nothing, if none are.
fn say_reasons(invalid: u64, long: u64) -> InlineText<LINE>
    ensures text { inline_text result ≡ reasons invalid long }
    ensures short { length (inline_text result) ≤ REASONS }
{
    let (mut first, mut second) = (Buffer::new(), Buffer::new());
    let invalid_text = first.format(invalid);
    let long_text = second.format(long);
    match (invalid == 0, long == 0) {
        (true, true) => InlineText::new(),
        (true, false) => joined(&[" (", long_text, " too long)"]),
        (false, true) => joined(&[" (", invalid_text, " not UTF-8)"]),
        (false, false) => joined(&[" (", invalid_text, " not UTF-8, ", long_text, " too long)"]),
    }
}

// Returns the line that says how many messages have U+FFFD for what is not UTF-8.
fn say_replaced(program: &str, counts: &LineCounts) -> InlineText<LINE>
    ensures { length program.now ≤ NAME → inline_text result ≡ replaced_line program.now counts.now }
{
    if counts.replaced == 0 {
        return InlineText::new();
    }
    let (mut first, mut second) = (Buffer::new(), Buffer::new());
    let replaced = first.format(counts.replaced);
    let lines = second.format(counts.lines);
    joined(&[
        program,
        ": ",
        replaced,
        " of ",
        lines,
        " lines have U+FFFD for what is not UTF-8\n",
    ])
}

/// Writes a text that was asked for to `out`, and returns the exit status 0. If that fails, writes the text of the
/// fault to `errors`, and returns 2.
pub fn say<W: Write, E: Write>(text: &str, out: &mut Watched<W>, errors: &mut Watched<E>) -> u8
    requires out { out.old.failed ≡ false }
    requires errors { errors.old.failed ≡ false }
    ensures status { result ≡ (if out.new.failed then 2 else 0) }
    ensures said { WritesUnlessFailed (W.contents out.old.inner) (W.contents out.new.inner) out.new.failed text.now }
    ensures fault { WritesUnlessFailed (E.contents errors.old.inner) (E.contents errors.new.inner) errors.new.failed
        (if out.new.failed then fault_line Write else []) }
{
    match out.write_whole(text.as_bytes()) {
        Ok(()) => 0,
        Err(fault) => report_fault(fault, errors),
    }
}

/// Writes a program's name and its version, each of up to 64 bytes, as one line to `out`, and returns the exit status
/// as `say` does.
pub fn say_version<W: Write, E: Write>(
    program: &str,
    version: &str,
    out: &mut Watched<W>,
    errors: &mut Watched<E>,
) -> u8
    requires out { out.old.failed ≡ false }
    requires errors { errors.old.failed ≡ false }
    ensures status { result ≡ (if out.new.failed then 2 else 0) }
    ensures said { length program.now ≤ NAME → length version.now ≤ NAME
        → WritesUnlessFailed (W.contents out.old.inner) (W.contents out.new.inner) out.new.failed
        (version_line program.now version.now) }
    ensures fault { WritesUnlessFailed (E.contents errors.old.inner) (E.contents errors.new.inner) errors.new.failed
        (if out.new.failed then fault_line Write else []) }
{
    say(joined(&[program, " ", version, "\n"]).as_str(), out, errors)
}

/// Writes the usage line after wrong arguments, and returns the exit status 2. If the write fails, `errors.failed` is
/// set.
pub fn refuse<W: Write>(usage: &str, errors: &mut Watched<W>) -> u8
    requires { errors.old.failed ≡ false }
    ensures status { result ≡ 2 }
    ensures said { WritesUnlessFailed (W.contents errors.old.inner) (W.contents errors.new.inner) errors.new.failed
        usage.now }
{
    write_text(usage, errors);
    2
}

/// Writes what happened to `count` of the lines, as `refused 2 of 9 lines` if `what` is `refused`, and returns the exit
/// status 1. If `count` is 0, writes nothing and returns 0. If a write fails, `errors.failed` is set. The word `what`
/// has at most 64 bytes.
pub fn report_count<W: Write>(what: &str, count: u64, lines: u64, errors: &mut Watched<W>) -> u8
    requires { errors.old.failed ≡ false }
    ensures status { result ≡ (if count == 0 then 0 else 1) }
    ensures said { length what.now ≤ NAME → WritesUnlessFailed (W.contents errors.old.inner)
        (W.contents errors.new.inner) errors.new.failed
        (if count == 0 then [] else count_line what.now count lines) }
{
    if count == 0 {
        return 0;
    }
    let (mut first, mut second) = (Buffer::new(), Buffer::new());
    let count_text = first.format(count);
    let lines_text = second.format(lines);
    let line = joined(&[what, " ", count_text, " of ", lines_text, " lines\n"]);
    write_text(line.as_str(), errors);
    1
}

/// Writes why a filter ended early, as `read failed`, and returns the exit status 2. If the write fails,
/// `errors.failed` is set.
pub fn report_fault<W: Write>(fault: RunFault, errors: &mut Watched<W>) -> u8
    requires { errors.old.failed ≡ false }
    ensures status { result ≡ 2 }
    ensures said { WritesUnlessFailed (W.contents errors.old.inner) (W.contents errors.new.inner) errors.new.failed
        (fault_line fault) }
{
    write_text(fault_text(fault), errors);
    2
}

// Returns why a filter ended early, as a line.
fn fault_text(fault: RunFault) -> &'static str
    ensures { result.now ≡ fault_line fault }
{
    match fault {
        RunFault::Read => "read failed\n",
        RunFault::Write => "write failed\n",
        RunFault::Memory => "out of memory\n",
    }
}

// Returns the parts, one after the other. If they don't fit, the text is cut.
fn joined(parts: &[&str]) -> InlineText<LINE>
    ensures { let text = concat (map (λ part. part.now) parts.now) in
        length text ≤ LINE → inline_text result ≡ text }
{
    let mut text = InlineText::<LINE>::new();
    for part in parts {
        text = text.and_str(part, LINE);
    }
    text
}

// Writes a text to the standard error. If that fails, there is no stream left to report it, but the exit status does.
fn write_text<W: Write>(text: &str, errors: &mut Watched<W>)
    requires { errors.old.failed ≡ false }
    ensures { WritesUnlessFailed (W.contents errors.old.inner) (W.contents errors.new.inner)
        errors.new.failed text.now }
{
    match errors.write_whole(text.as_bytes()) {
        Ok(()) => {}
        Err(_) => {}
    }
}
