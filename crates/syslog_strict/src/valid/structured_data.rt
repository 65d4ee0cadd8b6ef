//! STRUCTURED-DATA of RFC 5424 (section 6.3). The functions are named after its rules.
ghost use Rattle.std.specs.Prelude.{◌≡◌, ◌∷◌, [], ◌<◌, IfOk, IfSome, IsTrue, List, MatchOption, map, length, true};
ghost use Rattle.std.specs.Str.{chars, IsUtf8};
ghost use Rattle.syslog_text.specs.Pieces.Class.{Front, NoFront, Text, exactly, spaced, texted};
ghost use Rattle.syslog_text.specs.Pieces.Lists.{many};
ghost use Rattle.syslog_text.specs.Pieces.View.{Recognises, shown};
ghost use Rattle.syslog_elements.specs.StructuredData.Element.{ElementValue};
ghost use Rattle.syslog_elements.specs.StructuredData.Escapes.{TextUnit};
ghost use Rattle.syslog_strict.specs.Conversion.{is_among};
ghost use Rattle.syslog_strict.specs.Grammar as grammar;

use crate::ids::Ids;
use std::alloc::{AllocError, Global};
use syslog_text::as_str::is_same_text;
use syslog_text::text::bounded::short_run;
use syslog_text::text::{CharClass, first, literal, split_run};

// Returns the text after this character. It is no `literal`, so that its clauses say that the text is UTF-8.
#[inline(always)]
fn past(text: &str, c: char) -> Option<&str>
    ensures reads { Recognises (exactly (c ∷ [])) (chars text.now) result }
    ensures utf8 { IfSome result (λ rest. IsUtf8 rest.now) }
{
    let (d, rest) = first(text)?;
    if d == c { Some(rest) } else { None }
}

// Returns the text after a backslash and a character that has to be escaped.
#[inline(always)]
fn escape(text: &str) -> Option<&str>
    ensures reads { Recognises grammar.escape (chars text.now) result }
    ensures utf8 { IfSome result (λ rest. IsUtf8 rest.now) }
{
    let after_backslash = literal(text, '\\')?;
    let (c, rest) = first(after_backslash)?;
    if c == '\\' || (c == '"' || c == ']') {
        Some(rest)
    } else {
        None
    }
}

// Returns the text after PARAM-VALUE, which may be empty.
#[inline(always)]
fn param_value(text: &str) -> &str
    ensures { (units : List TextUnit) × Front grammar.param_value (chars text.now) (shown result) units }
{
    let mut rest = text;
    'units: loop {
        let (_, after) = split_run(rest, CharClass::Inert);
        let Some(more) = escape(after) else {
            return after;
        };
        rest = more;
    }
}

#[inline(always)]
fn param_name(text: &str) -> Option<&str>
    ensures { Recognises (texted grammar.sd_name) (chars text.now) result }
{
    let (_, rest) = short_run(text, CharClass::SdName, 32)?;
    Some(rest)
}

#[inline(always)]
fn equals(text: &str) -> Option<&str>
    ensures { Recognises (exactly (61 ∷ [])) (chars text.now) result }
{
    literal(text, '=')
}

#[inline(always)]
fn quote(text: &str) -> Option<&str>
    ensures reads { Recognises (exactly (34 ∷ [])) (chars text.now) result }
    ensures utf8 { IfSome result (λ rest. IsUtf8 rest.now) }
{
    past(text, '"')
}

#[inline(always)]
fn sd_param(text: &str) -> Option<&str>
    ensures reads { Recognises grammar.sd_param (chars text.now) result }
    ensures utf8 { IfSome result (λ rest. IsUtf8 rest.now) }
{
    param_name(text)
        .and_then(equals)
        .and_then(quote)
        .map(param_value)
        .and_then(quote)
}

#[inline(always)]
fn spaced_param(text: &str) -> Option<&str>
    ensures reads { Recognises (spaced grammar.sd_param) (chars text.now) result }
    ensures utf8 { IfSome result (λ rest. IsUtf8 rest.now) }
{
    let param = literal(text, ' ')?;
    sd_param(param)
}

// Returns the text after any number of SD-PARAMs, each after a space.
#[inline(always)]
fn params(text: &str) -> &str
    ensures { (params : List (Text × Text))
        × Front (many (spaced grammar.sd_param)) (chars text.now) (shown result) params }
{
    let mut rest = text;
    'params: while let Some(more) = spaced_param(rest) {
        rest = more;
    }
    rest
}

// Returns the SD-ID of an SD-ELEMENT at the front, and the text after the element.
#[inline(always)]
fn sd_element(text: &str) -> Option<(&str, &str)>
    ensures reads { MatchOption result (NoFront grammar.sd_element (chars text.now)) (λ x. (e : ElementValue)
        × (e.id ≡ shown x.0) × Front grammar.sd_element (chars text.now) (shown x.1) e) }
    ensures utf8 { IfSome result (λ x. IsUtf8 x.1.now) }
{
    let after_bracket = literal(text, '[')?;
    let (id, after_id) = short_run(after_bracket, CharClass::SdName, 32)?;
    let rest = past(params(after_id), ']')?;
    Some((id, rest))
}

// Whether one of the elements at the front has this id.
fn has_id(text: &str, id: &str) -> bool
    ensures { (q : Text) (es : List ElementValue) → Front (many grammar.sd_element) (chars text.now) q es
        → result ≡ is_among (chars id.now) (grammar.ids_of es) }
{
    let mut rest = text;
    'elements: while let Some((other, after)) = sd_element(rest) {
        if is_same_text(&other, &id) {
            return true;
        }
        rest = after;
    }
    false
}

// Returns the text after the elements at the front; none if two have the same id. It does not allocate: ids are
// compared by pairs.
#[cold]
#[inline(never)]
fn elements_by_pairs(text: &str) -> Option<&str>
    ensures { Recognises grammar.sd_elements (chars text.now) result }
{
    let mut rest = text;
    let mut has_one = false;
    'elements: while let Some((id, after)) = sd_element(rest) {
        if has_id(after, id) {
            return None;
        }
        rest = after;
        has_one = true;
    }
    has_one.then_some(rest)
}

// Returns the text after the elements at the front; none if two have the same id.
#[inline(always)]
fn sd_elements(alloc: Global, text: &str) -> Result<Option<&str>, AllocError>
    ensures { IfOk result (λ rest. Recognises grammar.sd_elements (chars text.now) rest) }
{
    let Some((first_id, after_first)) = sd_element(text) else {
        return Ok(None);
    };
    let mut ids = Ids::new(alloc);
    ids.insert(first_id)?;
    let mut rest = after_first;
    'elements: while let Some((id, after)) = sd_element(rest) {
        if !ids.insert(id)? {
            return Ok(None);
        }
        rest = after;
    }
    Ok(Some(rest))
}

/// Whether the text is elements no two of which have the same id. If an allocation fails, it may return false for such
/// a text too.
pub(crate) fn are_elements(alloc: Global, text: &str) -> bool
    ensures { IsTrue result → grammar.IsAll grammar.sd_elements (chars text.now) }
{
    match sd_elements(alloc, text) {
        Ok(Some(rest)) => rest.is_empty(),
        _ => false,
    }
}

// Returns the text after the elements at the front; none if two have the same id. If there is no memory for ids, they
// are compared by pairs.
#[inline(always)]
fn some_elements(alloc: Global, text: &str) -> Option<&str>
    ensures { Recognises grammar.sd_elements (chars text.now) result }
{
    match sd_elements(alloc, text) {
        Ok(read) => read,
        Err(_) => elements_by_pairs(text),
    }
}

/// Returns the text after STRUCTURED-DATA.
#[tactic(auto, using(crate::proofs::GrammarLemmas::either_reads))]
#[inline(always)]
pub(super) fn structured_data(alloc: Global, text: &str) -> Option<&str>
    ensures { Recognises grammar.structured_data (chars text.now) result }
{
    literal(text, '-').or_else(|| some_elements(alloc, text))
}
