//! Recognises strict and broken elements, without allocating and in time linear in the text.
//!
//! A strict element that fails may have been scanned far: its first value may hold every `]` up to the end of the text.
//! Then each of the items after it would be scanned as far again. But any scan that passes a `]` is inside a value, so
//! all of them go on alike. The number `dead` remembers how: no element closes from after a `]` that leaves `dead`
//! bytes or more. A scan that passes such a `]` stops there.
ghost use Rattle.std.specs.Prelude.{◌≡◌, ◌↔◌, ◌++◌, [], ◌∷◌, IsTrue, MatchOption, MatchResult, chars, IsUtf8};
ghost use Rattle.syslog_elements.specs.Words.{has, Front, NoFront, exactly, some_run, texted, shown, Reads, Recognises};
ghost use Rattle.syslog_elements.specs.Words.{IsValueUnit, param_value};
ghost use Rattle.syslog_elements.specs.Bodies.Closing.{opening as opening_class, quoted as quoted_class, name_alone};
ghost use Rattle.syslog_elements.specs.Bodies.Closing.{closing, IsDead, last_char};
ghost use Rattle.syslog_elements.specs.StructuredData.Escapes.{TextUnit, unit_text};
ghost use Rattle.syslog_elements.specs.StructuredData.{bracketed as bracketed_class, param as param_class};

use syslog_text::text::{CharClass, blanks, first, literal, split_run};

// Returns the run of the class at the front, which must not be empty, and the text after it.
#[tactic(auto, using(syslog_text::proofs::TextLemmas::Runs::chars_nonempty, syslog_text::proofs::TextLemmas::Runs::nonempty_is))]
#[inline(always)]
pub(super) fn nonempty_run(text: &str, class: CharClass) -> Option<(&str, &str)>
    ensures { Reads (texted (some_run (has class))) (λ run. shown run) (chars text.now) result }
{
    let (run, rest) = split_run(text, class);
    if run.is_empty() {
        None
    } else {
        Some((run, rest))
    }
}

// Reads the name of the parameter at the front. Returns it, the text after the quote that opens its value, and whether
// no blank is after its `=`.
#[inline(always)]
pub(super) fn open_param(text: &str) -> Option<(&str, &str, bool)>
    ensures { MatchOption result (NoFront opening_class (chars text.now)) (λ x.
        Front opening_class (chars text.now) (shown x.1) (name_alone (shown x.0))
        × (IsTrue x.2 ↔ (chars text.now ≡ shown x.0 ++ (61 ∷ 34 ∷ shown x.1)))) }
{
    let (name, after_name) = nonempty_run(text, CharClass::Name)?;
    let after_equals = literal(after_name, '=')?;
    if let Some(value) = literal(after_equals, '"') {
        return Some((name, value, true));
    }
    let value = literal(blanks(after_equals), '"')?;
    Some((name, value, false))
}

// Returns the last character of the unit at the front, and the text after the unit.
#[inline(always)]
fn unit(text: &str) -> Option<(char, &str)>
    requires { NoFront (exactly (34 ∷ [])) (chars text.now) }
    ensures { MatchOption result (NoFront quoted_class (chars text.now)) (λ x. IsUtf8 x.1.now
        × ((u : TextUnit) × IsValueUnit u × (chars text.now ≡ unit_text u ++ shown x.1) × (last_char u ≡ x.0))) }
{
    let (c, more) = first(text)?;
    if c == '\\' {
        first(more)
    } else {
        Some((c, more))
    }
}

// Returns the text after the value at the front and its closing quote.
#[inline(always)]
pub(super) fn after_value(text: &str) -> Option<&str>
    ensures { Recognises quoted_class (chars text.now) result }
{
    let mut rest = text;
    'units: loop {
        let (_, after) = split_run(rest, CharClass::Unescaped);
        if let Some(past_quote) = literal(after, '"') {
            return Some(past_quote);
        }
        let (_, more) = unit(after)?;
        rest = more;
    }
}

// Returns the value whose closing quote is before the rest.
pub(super) fn value_before<'a>(text: &'a str, rest: &str) -> &'a str
    requires { (v : quoted_class.Value) × Front quoted_class (chars text.now) (chars rest.now) v }
    ensures { Front quoted_class (chars text.now) (chars rest.now) (shown result, (tt, tt)) }
{
    text.split_at(text.len() - rest.len() - 1).0
}

// Returns the value at the front, and the text after the quote that closes it.
#[inline(always)]
pub(super) fn quoted(text: &str) -> Option<(&str, &str)>
    ensures { Reads quoted_class (λ v. (shown v, (tt, tt))) (chars text.now) result }
{
    let rest = after_value(text)?;
    Some((value_before(text, rest), rest))
}

// Returns the name and the value of the parameter at the front, and the text after it.
#[inline(always)]
pub(super) fn param(text: &str) -> Option<((&str, &str), &str)>
    ensures { Reads param_class (param_value (λ s. shown s)) (chars text.now) result }
{
    let (name, rest, _) = open_param(text)?;
    let (value, rest) = quoted(rest)?;
    Some(((name, value), rest))
}

// Returns the text after the value at the front and its closing quote. An error says that no element closes from here
// on, and is the new `dead` for the text.
#[inline(always)]
pub(super) fn live_value(text: &str, dead: usize) -> Result<&str, usize>
    requires { IsDead (chars text.now) dead }
    ensures { MatchResult result
        (λ rest. (v : quoted_class.Value) × Front quoted_class (chars text.now) (shown rest) v)
        (λ d. NoFront closing (chars text.now) × IsDead (chars text.now) d) }
{
    // (Only a list with a broken element is looked at for brackets.)
    if text.len() > dead {
        return other_value(text, dead);
    }
    match after_value(text) {
        Some(past_quote) => Ok(past_quote),
        None => Err(0),
    }
}

// Returns what `value_before_dead` does. Its answer is taken apart here, since the space for it is cleared where this
// begins, and not for each value.
#[inline(always)]
fn other_value(text: &str, dead: usize) -> Result<&str, usize>
    requires { IsDead (chars text.now) dead }
    ensures { MatchResult result
        (λ rest. (v : quoted_class.Value) × Front quoted_class (chars text.now) (shown rest) v)
        (λ d. NoFront closing (chars text.now) × IsDead (chars text.now) d) }
{
    match value_before_dead(text, dead) {
        Ok(rest) => Ok(rest),
        Err(dead) => Err(dead),
    }
}

// Returns what `live_value` does for a text with brackets that may leave so many bytes. It is a call of its own, since
// few lists have broken elements.
#[cold]
#[inline(never)]
fn value_before_dead(text: &str, dead: usize) -> Result<&str, usize>
    requires { IsDead (chars text.now) dead }
    ensures { MatchResult result
        (λ rest. (v : quoted_class.Value) × Front quoted_class (chars text.now) (shown rest) v)
        (λ d. NoFront closing (chars text.now) × IsDead (chars text.now) d) }
{
    let mut rest = text;
    'units: while rest.len() > dead {
        let (_, after) = split_run(rest, CharClass::Inert);
        if let Some(past_quote) = literal(after, '"') {
            return Ok(past_quote);
        }
        let Some((last, more)) = unit(after) else {
            return Err(0);
        };
        if last == ']' && more.len() >= dead {
            return Err(dead);
        }
        rest = more;
    }
    // (From here on no `]` leaves that many bytes.)
    match after_value(rest) {
        Some(past_quote) => Ok(past_quote),
        None => Err(0),
    }
}

// Returns the text after the bracketed text at the front.
pub(super) fn after_bracketed(text: &str) -> Option<&str>
    ensures { Recognises bracketed_class (chars text.now) result }
{
    let rest = literal(text, '[')?;
    let (_, rest) = split_run(rest, CharClass::Open);
    literal(rest, ']')
}
