//! Container log files in the format of Kubernetes (CRI): `2026-03-02T06:33:04.123456789Z stdout F text`.
//!
//! **Rule.** The stream and the mark of a full or a partial line name no host and no program, so they stay before the
//! message. (Kubernetes, "CRI logging": a timestamp of RFC 3339, `stdout` or `stderr`, `F` or `P`, each before a
//! space.)
ghost use Rattle.std.specs.Prelude.{chars, MatchBool};
ghost use Rattle.syslog_text.specs.Pieces.Class.{Row, Text};
ghost use Rattle.syslog_text.specs.Pieces.Rules.{such_that};
ghost use Rattle.syslog_text.specs.Pieces.View.{Recognises};
ghost use Rattle.syslog_sent.specs.Led.{IsLed};
ghost use Rattle.syslog_sent.specs.Sent.{Sends};
ghost use Rattle.syslog_sent.specs.Zone.{bare_word as any_word};
ghost use Rattle.syslog_dated_forms.specs.Container as spec;

use crate::readers::{iso, past_word_if};
use syslog_sent::led::Led;
use syslog_sent::sent::Sent;
use syslog_sent::skips::space;
use syslog_sent::zone::is_one_of;
use syslog_text::text::literal;

const STREAMS: [&str; 2] = ["stdout", "stderr"];

const MARKS: [&str; 2] = ["F", "P"];

fn is_stream(word: &str) -> bool
    ensures { MatchBool result (spec.IsStream (chars word.now)) (spec.IsStream (chars word.now) → ⊥) }
{
    is_one_of(&STREAMS, word)
}

fn is_mark(word: &str) -> bool
    ensures { MatchBool result (spec.IsMark (chars word.now)) (spec.IsMark (chars word.now) → ⊥) }
{
    is_one_of(&MARKS, word)
}

#[tactic(auto, using(crate::proofs::ReaderLemmas::past_such))]
fn stream(text: &str) -> Option<&str>
    ensures { Recognises (such_that any_word spec.IsStream) (chars text.now) result }
{
    past_word_if(text, is_stream)
}

#[tactic(auto, using(crate::proofs::ReaderLemmas::past_such))]
fn mark(text: &str) -> Option<&str>
    ensures { Recognises (such_that any_word spec.IsMark) (chars text.now) result }
{
    past_word_if(text, is_mark)
}

// Returns the text after the stream, a space and the mark.
fn past_stream(text: &str) -> Option<&str>
    ensures { Recognises (Row spec.stream_row) (chars text.now) result }
{
    stream(text).and_then(space).and_then(mark)
}

/// Returns what a line of a container's log file says, which begins with this date.
pub(crate) fn read_container<'a>(led: &Led<'a>) -> Option<Sent<'a>>
    ensures { (text : Text) → IsLed text led.now → Sends spec.container_form text result }
{
    let (date, rest) = iso(led)?;
    let msg = space(rest)?;
    let _ = past_stream(msg)?;
    Some(Sent {
        version: None,
        date: Some(date),
        hostname: None,
        appname: None,
        process: None,
        msgid: None,
        msg,
    })
}
