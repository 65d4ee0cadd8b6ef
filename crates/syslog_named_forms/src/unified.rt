//! Lines of macOS's unified log after the date: `0x74d Default 0x0 123 0 app: text`, `Df app[123:74d] text`.
//!
//! **Rule.** `log show` writes these columns in its default style (log(1)): thread, type, activity, process id, and how
//! long the entry is kept, which macOS 10.12 leaves out. In its style `compact` these are the type, the program, the
//! process id and the thread. They name no host. A program's name may have spaces, as `Google Chrome`.
ghost use Rattle.std.specs.Prelude.{◌≡◌, chars, codes};
ghost use Rattle.syslog_text.specs.Pieces.Class.{Front, Row, exactly, optional};
ghost use Rattle.syslog_text.specs.Pieces.View.{Reads, Recognises, shown};
ghost use Rattle.syslog_named_forms.specs.Unified as spec;
ghost use Rattle.syslog_sent.specs.Views.{Names, named_value};
ghost use Rattle.syslog_sent.specs.Zone.{is_capital as is_capital_char};

use crate::programs::words;
use syslog_sent::named::{Named, Program, name, number, past, tagged};
use syslog_sent::runs::{Run, split};
use syslog_sent::skips::{close_bracket, colon, digits, gap, plain_word};
use syslog_text::text::{blanks, first, literal, some_blanks};

fn hex_mark(text: &str) -> Option<&str>
    ensures { Recognises (exactly (codes "0x")) (chars text.now) result }
{
    past(text, "0x")
}

// Returns the text after the thread, the type and the activity.
fn thread_end(text: &str) -> Option<&str>
    ensures { Recognises (Row spec.thread_row) (chars text.now) result }
{
    hex_mark(text)
        .and_then(plain_word)
        .and_then(gap)
        .and_then(plain_word)
        .and_then(gap)
        .and_then(hex_mark)
        .and_then(plain_word)
        .and_then(gap)
}

// Returns the text after the number of days that an entry is kept, and blanks.
fn kept(text: &str) -> Option<&str>
    ensures { Recognises (Row spec.kept_row) (chars text.now) result }
{
    digits(text).and_then(gap)
}

fn past_kept(text: &str) -> &str
    ensures { (v : (optional (Row spec.kept_row)).Value)
        × Front (optional (Row spec.kept_row)) (chars text.now) (shown result) v }
{
    match kept(text) {
        Some(rest) => rest,
        None => text,
    }
}

// Returns a program's name, of several words or of one, and the text after it.
fn entry_name(text: &str) -> Option<(&str, &str)>
    ensures { Reads spec.entry_name (λ t. shown t) (chars text.now) result }
{
    match words(text) {
        Some(read) => Some(read),
        None => name(text),
    }
}

/// Reads a line of the unified log, from the thread on.
#[inline(always)]
pub(crate) fn unified(text: &str) -> Option<Named<'_>>
    ensures { Names spec.unified named_value (chars text.now) result }
{
    let at_id = thread_end(text)?;
    let (process, after_id) = number(at_id)?;
    let at_kept = some_blanks(after_id)?;
    let (name, after_name) = entry_name(past_kept(at_kept))?;
    let rest = literal(after_name, ':')?;
    let program = Program {
        name,
        process: Some(process),
    };
    Some(tagged(None, program, blanks(rest)))
}

fn is_capital(c: char) -> bool
    ensures { result ≡ is_capital_char c }
{
    'A' <= c && c <= 'Z'
}

// Whether the word is a capital letter, or it and one letter more.
fn is_kind(word: &str) -> bool
    ensures { result ≡ spec.is_kind (chars word.now) }
{
    let Some((c, after_c)) = first(word) else {
        return false;
    };
    let Some((d, after_d)) = first(after_c) else {
        return is_capital(c);
    };
    match first(after_d) {
        Some(_) => false,
        None => is_capital(c) && d.is_ascii_alphabetic(),
    }
}

// Returns the text after the type of an entry.
fn kind(text: &str) -> Option<&str>
    ensures { Recognises spec.kind (chars text.now) result }
{
    let (word, rest) = split(text, Run::Plain);
    is_kind(word).then_some(rest)
}

// Returns the text after a thread and the bracket that follows it.
fn thread_close(text: &str) -> Option<&str>
    ensures { Recognises (Row spec.close_row) (chars text.now) result }
{
    colon(text).and_then(plain_word).and_then(close_bracket)
}

/// Reads a line of the unified log in the style `compact`, from its type on.
#[inline(always)]
pub(crate) fn compact(text: &str) -> Option<Named<'_>>
    ensures { Names spec.compact named_value (chars text.now) result }
{
    let after_kind = kind(text)?;
    let at_name = some_blanks(after_kind)?;
    let (name, after_name) = entry_name(at_name)?;
    let at_id = literal(after_name, '[')?;
    let (process, after_id) = number(at_id)?;
    let after_thread = thread_close(after_id)?;
    let msg = some_blanks(after_thread)?;
    let program = Program {
        name,
        process: Some(process),
    };
    Some(tagged(None, program, msg))
}
