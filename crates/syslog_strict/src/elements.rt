//! Writes structured data as strict RFC 5424 (section 6.3) has it.
ghost use Rattle.std.specs.Prelude.{◌≡◌, ◌≤◌, [], ◌∷◌, ◌++◌, false, length, IfOk, OnOk, map};
ghost use Rattle.std.specs.List.{flat_map};
ghost use Rattle.std.specs.Str.{chars, IsUtf8};
ghost use Rattle.syslog_text.specs.Pieces.Class.{Ends};
ghost use Rattle.syslog_text.specs.Text.CharClass.{is_inert_char};
ghost use Rattle.syslog_elements.specs.StructuredData.Element.{param_text};
ghost use Rattle.syslog_elements.specs.StructuredData.Visited.{element_seen};
ghost use Rattle.syslog_strict.specs.Conversion.{converted_name, converted_param};
ghost use Rattle.syslog_strict.specs.Conversion.{converted_value, or_mark};
ghost use Rattle.syslog_strict.specs.Pushing.{Appends, text_in};

use crate::text::{is_kept, push_char, push_each, push_text};
use std::alloc::AllocError;
use syslog_loose::Element;
use syslog_text::text::{CharClass, first, split_run};

// How many characters an id or a name has at most.
const NAME: usize = 32;

// Returns the text, or `?` if it is empty.
#[tactic(auto, using(syslog_text::proofs::TextLemmas::Runs::char_alone))]
#[inline(always)]
fn or_mark(text: &str) -> &str
    ensures { chars result.now ≡ or_mark (chars text.now) }
{
    match first(text) {
        Some(_) => text,
        None => "?",
    }
}

/// Appends an id or a name.
#[inline(always)]
pub(crate) fn push_name(out: &mut String, name: &str) -> Result<(), AllocError>
    ensures { OnOk result (Appends out.old (converted_name (chars name.now)) out.new) }
{
    if is_kept(name, CharClass::SdName, NAME) {
        return push_text(out, name);
    }
    push_each(out, or_mark(name), CharClass::SdName, NAME)
}

// Appends the plain characters at the front of a value, and returns the text after them.
#[inline(always)]
fn push_plain<'a>(out: &mut String, value: &'a str) -> Result<&'a str, AllocError>
    ensures { IfOk result (λ rest. (text_in out.new ++ converted_value (chars rest.now)
        ≡ text_in out.old ++ converted_value (chars value.now)) × (length (chars rest.now) ≤ length (chars value.now))
        × Ends is_inert_char (chars rest.now) × IsUtf8 rest.now) }
{
    let (run, rest) = split_run(value, CharClass::Inert);
    push_text(out, run)?;
    Ok(rest)
}

// Appends a quote or a bracket, or a backslash and the character after it, and returns the text after that.
#[inline(always)]
fn push_special<'a>(out: &mut String, c: char, more: &'a str) -> Result<&'a str, AllocError>
    requires { is_inert_char c ≡ false }
    ensures { IfOk result (λ rest. (text_in out.new ++ converted_value (chars rest.now)
        ≡ text_in out.old ++ converted_value (c ∷ chars more.now)) × (length (chars rest.now) ≤ length (chars more.now))
        × IsUtf8 rest.now) }
{
    push_char(out, '\\')?;
    if c != '\\' {
        push_char(out, c)?;
        return Ok(more);
    }
    let Some((escaped, rest)) = first(more) else {
        push_char(out, '\\')?;
        return Ok(more);
    };
    if !(escaped == '\\' || (escaped == '"' || escaped == ']')) {
        push_char(out, '\\')?;
    }
    push_char(out, escaped)?;
    Ok(rest)
}

// Appends a value, escaped.
fn push_value(out: &mut String, value: &str) -> Result<(), AllocError>
    ensures { OnOk result (Appends out.old (converted_value (chars value.now)) out.new) }
{
    let mut rest = push_plain(out, value)?;
    'stretches: while let Some((c, more)) = first(rest) {
        let after = push_special(out, c, more)?;
        rest = push_plain(out, after)?;
    }
    Ok(())
}

// Appends a space, a name, and a value between quotes.
fn push_param(out: &mut String, name: &str, value: &str) -> Result<(), AllocError>
    ensures { OnOk result (Appends out.old (param_text (converted_param (chars name.now, chars value.now))) out.new) }
{
    push_char(out, ' ')?;
    push_name(out, name)?;
    push_char(out, '=')?;
    push_char(out, '"')?;
    push_value(out, value)?;
    push_char(out, '"')
}

/// Appends the parameters of an element.
pub(crate) fn push_params(out: &mut String, element: &Element<'_>) -> Result<(), AllocError>
    ensures { OnOk result (Appends out.old
        (flat_map param_text (map converted_param (element_seen element.now).params)) out.new) }
{
    for (name, value) in element.params() {
        push_param(out, name, value)?;
    }
    Ok(())
}
