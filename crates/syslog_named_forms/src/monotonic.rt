//! A line of the journal with the seconds since the start in the place of a date: `[12345.678901] pi4 sshd[811]: text`.
//!
//! **Rule.** `journalctl -o short-monotonic` writes so. A line of the kernel's own log (`dmesg`) has no host there: it
//! is told by its program, which is neither the kernel nor has the id of a process. The line says no date.
ghost use Rattle.std.specs.Prelude.{◌≡◌, chars};
ghost use Rattle.syslog_text.specs.Pieces.Class.{Row};
ghost use Rattle.syslog_text.specs.Pieces.View.{Reads, Recognises};
ghost use Rattle.syslog_named_forms.specs.Monotonic as spec;
ghost use Rattle.syslog_sent.specs.Sent.{Sends};
ghost use Rattle.syslog_sent.specs.Views.{program_seen};

use syslog_sent::named::{Program, is_word, read_program};
use syslog_sent::sent::Sent;
use syslog_sent::skips::{bracket, close_bracket, digits, dot, past_blanks};
use syslog_text::text::{blanks, host, some_blanks};

// Returns the text after the seconds in brackets.
fn seconds(text: &str) -> Option<&str>
    ensures { Recognises (Row spec.seconds_row) (chars text.now) result }
{
    bracket(text)
        .map(past_blanks)
        .and_then(digits)
        .and_then(dot)
        .and_then(digits)
        .and_then(close_bracket)
}

// Whether the program is the kernel, or has a process id.
fn is_service(program: Program<'_>) -> bool
    ensures { result ≡ spec.is_service (program_seen program.entry) }
{
    is_word(program.name, "kernel") || program.process.is_some()
}

// Returns such a program at the front, and the text after it.
fn service(text: &str) -> Option<(Program<'_>, &str)>
    ensures { Reads spec.service program_seen (chars text.now) result }
{
    let (program, rest) = read_program(text)?;
    if is_service(program) {
        Some((program, rest))
    } else {
        None
    }
}

/// Returns what such a line says.
pub(crate) fn read_monotonic(text: &str) -> Option<Sent<'_>>
    ensures { Sends spec.monotonic_form (chars text.now) result }
{
    let after_seconds = seconds(text)?;
    let at_host = some_blanks(after_seconds)?;
    let (hostname, after_host) = host(at_host)?;
    let at_program = some_blanks(after_host)?;
    let (program, after_program) = service(at_program)?;
    Some(Sent {
        version: None,
        date: None,
        hostname,
        appname: Some(program.name),
        process: program.process,
        msgid: None,
        msg: blanks(after_program),
    })
}
