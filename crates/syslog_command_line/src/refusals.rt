//! What the programs report of wrong words.
ghost use Rattle.std.specs.Prelude.{◌≡◌, false, IfOk, List, ℕ, string_bytes};
ghost use Rattle.syslog_command_line.specs.Report.{IsReason, IsRefusal, WritesUnlessFailed};

use crate::report::refuse;
use crate::words::Wrong;
use std::alloc::AllocError;
use std::fs;
use std::io::Write;
use syslog_lines::Watched;

/// Writes the usage line and a line that says what is wrong with the words, and returns the exit status 2. If the wrong
/// word names a file, that line has a hint, since a filter reads its standard input alone. If an allocation fails, only
/// the usage line is written. If a write fails, `errors.failed` is set.
pub fn refuse_words<W: Write>(
    rt: &HostRuntime,
    usage: &str,
    wrong: Wrong<'_>,
    errors: &mut Watched<W>,
) -> u8
    requires { errors.old.failed ≡ false }
    ensures status { result ≡ 2 }
    ensures said { (text : List ℕ) × IsRefusal usage.now wrong.entry text × WritesUnlessFailed
        (W.contents errors.old.inner) (W.contents errors.new.inner) errors.new.failed text }
{
    match refusal(rt, usage, wrong) {
        Ok(text) => refuse(text.as_str(), errors),
        Err(_) => refuse(usage, errors),
    }
}

// Returns the usage line, and the line that says what is wrong with the words.
fn refusal(rt: &HostRuntime, usage: &str, wrong: Wrong<'_>) -> Result<String, AllocError>
    ensures { IfOk result (λ text. IsRefusal usage.now wrong.entry (string_bytes text)) }
{
    let reason = describe(rt, wrong)?;
    format!(in rt.alloc(); "{usage}{reason}")
}

// Returns the line that says what is wrong with the words.
fn describe(rt: &HostRuntime, wrong: Wrong<'_>) -> Result<String, AllocError>
    ensures { IfOk result (λ line. IsReason wrong.entry (string_bytes line)) }
{
    let alloc = rt.alloc();
    match wrong {
        Wrong::Word(word) if is_file(rt, word) => {
            format!(in alloc; "wrong word: {word:?}; to read this file: < {word:?}\n")
        }
        Wrong::Word(word) => format!(in alloc; "wrong word: {word:?}\n"),
        Wrong::Missing => format!(in alloc; "YEAR is missing\n"),
        Wrong::Unreadable => format!(in alloc; "a word is not UTF-8, or out of memory\n"),
    }
}

// Whether the word names something that exists and is no folder.
fn is_file(rt: &HostRuntime, word: &str) -> bool {
    match fs::metadata(rt, word) {
        Ok(about) => !about.is_dir(),
        Err(_) => false,
    }
}
