//! The list of structured data in a line of RFC 3164: `-`, or strict elements that each have a parameter. Anything else
//! belongs to the message.
//!
//! **Rule.** RFC 3164 has no structured data; that a list is read after the tag is the Rust crate's rule. Before which
//! texts `-` is a list is this project's own choice.
ghost use Rattle.std.specs.Prelude.{◌≡◌, ◌∷◌, MatchBool, MatchOption, chars};
ghost use Rattle.syslog_elements.specs.Words.{Text, NoFront, shown, rfc3164_list, IsDashBefore};

use super::visit::NoNotes;
use super::walk::walk_full_element;
use syslog_text::text::{CharClass, first, literal};

/// Before which texts a dash is a list without elements, in a line of RFC 3164.
#[derive(Clone, Copy, Debug, PartialEq, Eq)]
pub enum DashRule {
    /// Before any text, as in the Rust crate.
    BeforeAnything,
    /// Only at the end of the text, and before a blank.
    BeforeBlank,
}

/// The rule of this project: a dash is a list only at the end of the text, and before a blank.
pub const DASH_RULE: DashRule = DashRule::BeforeBlank;

impl DashRule {
    // Whether a dash is a list before this text.
    pub(super) fn allows(self, rest: &str) -> bool
        ensures { MatchBool result (IsDashBefore self (chars rest.now)) (IsDashBefore self (chars rest.now) → ⊥) }
    {
        match self {
            DashRule::BeforeAnything => true,
            DashRule::BeforeBlank => first(rest).is_none_or(|(c, _)| CharClass::Blank.has(c)),
        }
    }
}

// Returns the text after the dash at the front, if that is a list by the rule.
#[inline(always)]
pub(super) fn after_dash(text: &str, rule: DashRule) -> Option<&str>
    ensures { MatchOption result ((q : Text) → chars text.now ≡ 45 ∷ q → IsDashBefore rule q → ⊥)
        (λ rest. (chars text.now ≡ 45 ∷ shown rest) × IsDashBefore rule (shown rest)) }
{
    let rest = literal(text, '-')?;
    if rule.allows(rest) { Some(rest) } else { None }
}

/// Returns whether a list of RFC 3164 begins the text, without allocating.
#[inline(always)]
pub fn begins_list(text: &str, rule: DashRule) -> bool
    ensures { MatchBool result (NoFront (rfc3164_list rule) (chars text.now) → ⊥)
        (NoFront (rfc3164_list rule) (chars text.now)) }
{
    if let Some(_) = after_dash(text, rule) {
        return true;
    }
    match walk_full_element(text, &mut NoNotes) {
        Some(_) => true,
        None => false,
    }
}
