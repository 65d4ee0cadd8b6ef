//! The walk over an element: recognises the strict element at the front, in time linear over a whole list, and says
//! whether it is already in printed form.
ghost use Rattle.std.specs.Prelude.{◌≡◌, ◌↔◌, ◌++◌, ◌<◌, ◌∷◌, IfOk, IfSome, IsTrue, MatchOption, MatchResult, chars};
ghost use Rattle.std.specs.Prelude.{length};
ghost use Rattle.syslog_elements.specs.{Bodies.Closing.IsDead, StructuredData.element as element_class};
ghost use Rattle.syslog_elements.specs.Words.{Front, NoFront, run, shown, full_element, IsWalked, element_seen};
ghost use Rattle.syslog_text.specs.Text as spec;

use super::recognise::{live_value, nonempty_run, open_param, value_before};
use super::recognised::Element;
use super::visit::ParamNotes;
use syslog_text::text::verbatim::is_one_space;
use syslog_text::text::{CharClass, blanks, literal, past_space};

/// A strict element at the front of a text, after the walk over it.
#[derive(Clone, Copy)]
pub(super) struct Walked<'a> {
    pub(super) element: Element<'a>,
    pub(super) rest: &'a str,
    /// Whether its text is already in printed form.
    pub(super) prints: bool,
}

// Returns the text after the blanks at the front, and whether these are one space.
#[inline(always)]
fn gap(text: &str) -> (&str, bool)
    ensures blanks { Front (run spec.is_blank) (chars text.now) (shown result.0) tt }
    ensures space { IsTrue result.1 ↔ (chars text.now ≡ 32 ∷ shown result.0) }
{
    match past_space(text) {
        Some(rest) => (rest, true),
        None => other_gap(text),
    }
}

// Returns what `odd_gap` does. Its answer is taken apart here, since the space for it is cleared where this begins, and
// not for each element.
#[inline(always)]
fn other_gap(text: &str) -> (&str, bool)
    ensures blanks { Front (run spec.is_blank) (chars text.now) (shown result.0) tt }
    ensures space { IsTrue result.1 ↔ (chars text.now ≡ 32 ∷ shown result.0) }
{
    let (rest, is_space) = odd_gap(text);
    (rest, is_space)
}

// Returns what `gap` does for blanks that are no single space before a visible character. It is a call of its own,
// since callers of the walk would otherwise outgrow what the compiler takes into its caller.
#[cold]
#[inline(never)]
fn odd_gap(text: &str) -> (&str, bool)
    ensures blanks { Front (run spec.is_blank) (chars text.now) (shown result.0) tt }
    ensures space { IsTrue result.1 ↔ (chars text.now ≡ 32 ∷ shown result.0) }
{
    let rest = blanks(text);
    (rest, is_one_space(text, rest))
}

/// Walks the strict element at the front, and notes its parameters. An error is a new `dead`, as that of `live_value`.
#[inline(always)]
#[tactic(auto, using(crate::proofs::StructuredDataLemmas::Walk::few_params))]
pub(super) fn walk_element<'a, N: ParamNotes<'a>>(
    text: &'a str,
    dead: usize,
    notes: &mut N,
) -> Result<Walked<'a>, usize>
    requires { IsDead (chars text.now) dead }
    ensures walked { MatchResult result (λ w. IsWalked (chars text.now) w)
        (λ d. NoFront element_class (chars text.now) × IsDead (chars text.now) d) }
    ensures noted { IfOk result (λ w. N.noted notes.new (element_seen w.element).params) }
{
    let Some(opened) = literal(text, '[') else {
        return Err(dead);
    };
    let Some((id, after_id)) = nonempty_run(opened, CharClass::Id) else {
        return Err(dead);
    };
    notes.clear();
    let (inside, stands) = gap(after_id);
    if let Some(rest) = literal(inside, ']') {
        return Ok(Walked {
            element: Element::new(id, inside, 0),
            rest,
            prints: inside.len() == after_id.len(),
        });
    }
    let mut prints = stands;
    let mut count = 0;
    let mut at = inside;
    'params: loop {
        let Some((name, opened, stands)) = open_param(at) else {
            return Err(at.len());
        };
        let after = live_value(opened, dead)?;
        notes.push(name, value_before(opened, after));
        prints &= stands;
        count += 1;
        if let Some(rest) = literal(after, ']') {
            return Ok(Walked {
                element: Element::new(id, inside, count),
                rest,
                prints,
            });
        }
        let Some(next) = literal(after, ' ') else {
            return Err(after.len());
        };
        at = next;
    }
}

/// Walks the strict element at the front if it has a parameter, and notes its parameters.
#[inline(always)]
pub(super) fn walk_full_element<'a, N: ParamNotes<'a>>(
    text: &'a str,
    notes: &mut N,
) -> Option<Walked<'a>>
    ensures walked { MatchOption result (NoFront full_element (chars text.now))
        (λ w. IsWalked (chars text.now) w × (0 < length (element_seen w.element).params)) }
    ensures noted { IfSome result (λ w. N.noted notes.new (element_seen w.element).params) }
{
    let Ok(found) = walk_element(text, text.len(), notes) else {
        return None;
    };
    if found.element.params_len() == 0 {
        return None;
    }
    Some(found)
}
