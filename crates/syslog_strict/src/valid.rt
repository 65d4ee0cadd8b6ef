//! Whether a text is in the grammar of RFC 5424 (section 6).
//!
//! Each reader is named after its rule of the ABNF. It returns the text after a piece of the rule's class in
//! `specs/Grammar.antt`, or none if the text does not begin with one.
ghost use Rattle.std.specs.Prelude.{◌↔◌, ◌∷◌, ◌++◌, [], IsTrue, Option};
ghost use Rattle.std.specs.Str.{chars};
ghost use Rattle.syslog_text.specs.Pieces.Class.{Front, Row, Text, exactly, optional, rest as rest_class, spaced};
ghost use Rattle.syslog_text.specs.Pieces.View.{Recognises, shown};
ghost use Rattle.syslog_strict.specs.Grammar as grammar;

mod structured_data;
mod timestamp;

use crate::text::is_no_text;
use std::alloc::Global;
pub(crate) use structured_data::are_elements;
use structured_data::structured_data;
use syslog_text::text::bounded::{numeral, short_run};
use syslog_text::text::{CharClass, literal};
use timestamp::timestamp;

#[inline(always)]
fn sp(text: &str) -> Option<&str>
    ensures { Recognises grammar.sp (chars text.now) result }
{
    literal(text, ' ')
}

#[inline(always)]
fn less_than(text: &str) -> Option<&str>
    ensures { Recognises (exactly (60 ∷ [])) (chars text.now) result }
{
    literal(text, '<')
}

#[inline(always)]
fn greater_than(text: &str) -> Option<&str>
    ensures { Recognises (exactly (62 ∷ [])) (chars text.now) result }
{
    literal(text, '>')
}

#[inline(always)]
fn prival(text: &str) -> Option<&str>
    ensures { Recognises grammar.prival (chars text.now) result }
{
    let (_, rest) = numeral(text, 0, 191)?;
    Some(rest)
}

#[inline(always)]
fn pri(text: &str) -> Option<&str>
    ensures { Recognises (Row grammar.pri) (chars text.now) result }
{
    less_than(text).and_then(prival).and_then(greater_than)
}

#[inline(always)]
fn version(text: &str) -> Option<&str>
    ensures { Recognises grammar.version (chars text.now) result }
{
    let (_, rest) = numeral(text, 1, 999)?;
    Some(rest)
}

#[inline(always)]
fn hostname(text: &str) -> Option<&str>
    ensures { Recognises grammar.hostname (chars text.now) result }
{
    let (_, rest) = short_run(text, CharClass::Printable, 255)?;
    Some(rest)
}

#[inline(always)]
fn app_name(text: &str) -> Option<&str>
    ensures { Recognises grammar.app_name (chars text.now) result }
{
    let (_, rest) = short_run(text, CharClass::Printable, 48)?;
    Some(rest)
}

#[inline(always)]
fn procid(text: &str) -> Option<&str>
    ensures { Recognises grammar.procid (chars text.now) result }
{
    let (_, rest) = short_run(text, CharClass::Printable, 128)?;
    Some(rest)
}

#[inline(always)]
fn msgid(text: &str) -> Option<&str>
    ensures { Recognises grammar.msgid (chars text.now) result }
{
    let (_, rest) = short_run(text, CharClass::Printable, 32)?;
    Some(rest)
}

// Returns the text after `SP MSG`, which is all of it, or the text itself if no space begins it.
#[inline(always)]
fn spaced_msg(text: &str) -> &str
    ensures { (msg : Option Text) × Front (optional (spaced rest_class)) (chars text.now) (shown result) msg }
{
    match literal(text, ' ') {
        Some(_) => "",
        None => text,
    }
}

#[inline(always)]
fn syslog_msg(alloc: Global, text: &str) -> Option<&str>
    ensures { Recognises (Row (grammar.header ++ grammar.body)) (chars text.now) result }
{
    pri(text)
        .and_then(version)
        .and_then(sp)
        .and_then(timestamp)
        .and_then(sp)
        .and_then(hostname)
        .and_then(sp)
        .and_then(app_name)
        .and_then(sp)
        .and_then(procid)
        .and_then(sp)
        .and_then(msgid)
        .and_then(sp)
        .and_then(|data| structured_data(alloc, data))
        .map(spaced_msg)
}

/// Returns whether the text is in the grammar of RFC 5424, whatever its version.
#[inline(always)]
pub fn is_syslog_msg(alloc: Global, text: &str) -> bool
    ensures { IsTrue result ↔ grammar.IsSyslogMsg (chars text.now) }
{
    match syslog_msg(alloc, text) {
        Some(rest) => is_no_text(rest),
        None => false,
    }
}
