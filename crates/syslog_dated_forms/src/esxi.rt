//! Lines of VMware ESXi from 8.0 on: `2026-03-02T06:33:04.123Z In(182) vmkernel: cpu3:2097)text`.
//!
//! **Rule.** The level and the priority in brackets name no host; the program follows them. (VMware, "ESXi Log Files":
//! from 8.0 on a line has the level and the priority after its timestamp.)
ghost use Rattle.std.specs.Prelude.{◌≡◌, ◌∷◌, [], chars};
ghost use Rattle.syslog_text.specs.Pieces.Class.{Row, Text, exactly};
ghost use Rattle.syslog_text.specs.Pieces.View.{Recognises};
ghost use Rattle.syslog_sent.specs.Led.{IsLed};
ghost use Rattle.syslog_sent.specs.Sent.{Sends};
ghost use Rattle.syslog_dated_forms.specs.Esxi as spec;

use crate::readers::iso;
use syslog_sent::led::Led;
use syslog_sent::named::{is_word, read_program};
use syslog_sent::runs::{Run, split};
use syslog_sent::sent::Sent;
use syslog_sent::skips::{digits, gap};
use syslog_text::text::{blanks, literal};

fn is_grave(word: &str) -> bool
    ensures { result ≡ spec.is_grave (chars word.now) }
{
    is_word(word, "Em") || (is_word(word, "Al") || (is_word(word, "Cr") || is_word(word, "Er")))
}

fn is_mild(word: &str) -> bool
    ensures { result ≡ spec.is_mild (chars word.now) }
{
    is_word(word, "Wa") || (is_word(word, "No") || (is_word(word, "In") || is_word(word, "Db")))
}

fn is_level(word: &str) -> bool
    ensures { result ≡ spec.is_level (chars word.now) }
{
    is_grave(word) || is_mild(word)
}

// Returns the text after a level.
fn level(text: &str) -> Option<&str>
    ensures { Recognises spec.level (chars text.now) result }
{
    let (word, rest) = split(text, Run::Plain);
    is_level(word).then_some(rest)
}

fn opening(text: &str) -> Option<&str>
    ensures { Recognises (exactly (40 ∷ [])) (chars text.now) result }
{
    literal(text, '(')
}

fn closing(text: &str) -> Option<&str>
    ensures { Recognises (exactly (41 ∷ [])) (chars text.now) result }
{
    literal(text, ')')
}

// Returns the text after the level and the priority.
fn mark(text: &str) -> Option<&str>
    ensures { Recognises (Row spec.mark_row) (chars text.now) result }
{
    level(text)
        .and_then(opening)
        .and_then(digits)
        .and_then(closing)
}

/// Returns what a line of ESXi says, which begins with this date.
pub(crate) fn read_esxi<'a>(led: &Led<'a>) -> Option<Sent<'a>>
    ensures { (text : Text) → IsLed text led.now → Sends spec.esxi_form text result }
{
    let (date, rest) = iso(led)?;
    let (program, after_program) = gap(rest)
        .and_then(mark)
        .and_then(gap)
        .and_then(read_program)?;
    Some(Sent {
        version: None,
        date: Some(date),
        hostname: None,
        appname: Some(program.name),
        process: program.process,
        msgid: None,
        msg: blanks(after_program),
    })
}
