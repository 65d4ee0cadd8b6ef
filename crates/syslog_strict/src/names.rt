//! Writes host, app name, process id and message id as strict RFC 5424 (section 6.2) has them.
ghost use Rattle.std.specs.Prelude.{◌≡◌, ◌≢◌, ◌<◌, [], length, MatchBool, OnOk};
ghost use Rattle.std.specs.Option.{option_and_then, option_map};
ghost use Rattle.std.specs.Fmt.{signed_decimal};
ghost use Rattle.std.specs.Str.{chars};
ghost use Rattle.syslog_text.specs.Pieces.View.{seen, shown};
ghost use Rattle.syslog_pieces.specs.ProcId.{named_process, process_text, procid_text, procid_value};
ghost use Rattle.syslog_text.specs.Text.{colon, name_text};
ghost use Rattle.syslog_strict.specs.Conversion.{converted_host, converted_process, converted_word, kept_char};
ghost use Rattle.syslog_strict.specs.Conversion.{no_colon};
ghost use Rattle.syslog_strict.specs.Pushing.{Appends};

use crate::text::{is_kept, is_no_text, kept, push_char, push_each, push_text};
use std::alloc::{AllocError, Global};
use syslog_pieces::procid::{ProcId, is_bare_word};
use syslog_text::as_str::is_same_text;
use syslog_text::text::{CharClass, ends_in_colon, first};

// How many characters a host has at most, and a process id too.
const HOST: usize = 255;

const PROCESS: usize = 128;

/// Appends the host, or `-` for an absent one.
#[inline(always)]
pub(crate) fn push_host(out: &mut String, host: Option<&str>) -> Result<(), AllocError>
    ensures { OnOk result (Appends out.old (name_text (option_and_then converted_host (seen host.entry))) out.new) }
{
    match host {
        Some(host) => push_host_text(out, host),
        None => push_char(out, '-'),
    }
}

// Appends the text of a host.
#[inline(always)]
fn push_host_text(out: &mut String, host: &str) -> Result<(), AllocError>
    ensures { OnOk result (Appends out.old (name_text (converted_host (chars host.now))) out.new) }
{
    if is_kept(host, CharClass::Printable, HOST) && !ends_in_colon(host.as_bytes()) {
        return push_text(out, host);
    }
    push_other_host(out, host)
}

// Appends the text of a host character by character, each once it is known whether it is the last.
#[cold]
#[inline(never)]
fn push_other_host(out: &mut String, host: &str) -> Result<(), AllocError>
    ensures { OnOk result (Appends out.old (name_text (converted_host (chars host.now))) out.new) }
{
    let Some((c, more)) = first(host) else {
        return push_char(out, '-');
    };
    let mut last = kept(c, CharClass::Printable);
    let mut rest = more;
    let mut left = HOST - 1;
    'chars: while left > 0 {
        let Some((c, more)) = first(rest) else {
            break 'chars;
        };
        push_char(out, last)?;
        last = kept(c, CharClass::Printable);
        rest = more;
        left -= 1;
    }
    push_char(out, without_colon(last))
}

#[tactic(auto, using(crate::proofs::NameLemmas::colon_told))]
#[inline(always)]
fn is_colon(text: &str) -> bool
    ensures { MatchBool result (chars text.now ≡ colon) (chars text.now ≢ colon) }
{
    is_same_text(&text, &":")
}

// Returns the last character of a host as it is written: a colon becomes `?`.
#[inline(always)]
fn without_colon(c: char) -> char
    ensures { result ≡ kept_char no_colon c }
{
    if c == ':' { '?' } else { c }
}

/// Appends an app name or a message id, or `-` for an absent one.
#[inline(always)]
pub(crate) fn push_word(out: &mut String, word: Option<&str>, most: usize) -> Result<(), AllocError>
    requires { 1 < most }
    ensures { OnOk result
        (Appends out.old (name_text (option_and_then (converted_word most) (seen word.entry))) out.new) }
{
    match word {
        Some(word) => push_word_text(out, word, most),
        None => push_char(out, '-'),
    }
}

// Appends the text of a word.
#[inline(always)]
fn push_word_text(out: &mut String, word: &str, most: usize) -> Result<(), AllocError>
    requires { 1 < most }
    ensures { OnOk result (Appends out.old (name_text (converted_word most (chars word.now))) out.new) }
{
    if is_kept(word, CharClass::Printable, most) && !is_colon(word) {
        return push_text(out, word);
    }
    push_other_word(out, word, most)
}

// Appends the text of a word that may have to be changed.
#[cold]
#[inline(never)]
fn push_other_word(out: &mut String, word: &str, most: usize) -> Result<(), AllocError>
    requires { 1 < most }
    ensures { OnOk result (Appends out.old (name_text (converted_word most (chars word.now))) out.new) }
{
    if is_no_text(word) {
        return push_char(out, '-');
    }
    if is_colon(word) {
        return push_char(out, '?');
    }
    push_each(out, word, CharClass::Printable, most)
}

/// Appends the process id that the text names, or `-` for an absent one.
#[inline(always)]
pub(crate) fn push_process(
    alloc: Global,
    out: &mut String,
    word: Option<&str>,
) -> Result<(), AllocError>
    ensures { OnOk result (Appends out.old (process_text
        (option_and_then converted_process (option_map named_process (seen word.entry)))) out.new) }
{
    match word {
        Some(word) => push_process_text(alloc, out, word),
        None => push_char(out, '-'),
    }
}

// Appends the process id that this text names: the text itself, if that is in the grammar and printed as it is.
#[inline(always)]
fn push_process_text(alloc: Global, out: &mut String, word: &str) -> Result<(), AllocError>
    ensures { OnOk result
        (Appends out.old (process_text (converted_process (named_process (chars word.now)))) out.new) }
{
    if word.len() > 1 && is_bare_word(word) && is_kept(word, CharClass::Printable, PROCESS) {
        return push_text(out, word);
    }
    match process_of(word) {
        ProcId::PID(number) => push_number(out, number),
        ProcId::Name(name) => push_process_name(alloc, out, name),
    }
}

// Returns the process id that the text names.
#[tactic(auto, using(crate::proofs::NameLemmas::process_named))]
#[inline(always)]
fn process_of(word: &str) -> ProcId<&str>
    ensures { procid_value (λ s. shown s) result ≡ named_process (chars word.now) }
{
    ProcId::from(word)
}

// Appends a process id as it is.
fn push_id(out: &mut String, id: ProcId<&str>) -> Result<(), AllocError>
    ensures { OnOk result (Appends out.old (procid_text (procid_value (λ s. shown s) id.entry)) out.new) }
{
    match id {
        ProcId::PID(number) => push_number(out, number),
        ProcId::Name(name) => push_text(out, name),
    }
}

// Appends a number.
fn push_number(out: &mut String, number: i32) -> Result<(), AllocError>
    ensures { OnOk result (Appends out.old (signed_decimal number) out.new) }
{
    write!(out, "{number}")?;
    Ok(())
}

// Appends the name of a process. A name that is cut may be a number.
fn push_process_name(alloc: Global, out: &mut String, name: &str) -> Result<(), AllocError>
    ensures { OnOk result (Appends out.old
        (process_text (option_map named_process (converted_word 128 (chars name.now)))) out.new) }
{
    let mut word = String::new(alloc);
    push_word_text(&mut word, name, PROCESS)?;
    push_id(out, process_of(word.as_str()))
}
