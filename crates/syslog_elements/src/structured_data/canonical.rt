//! Which elements are read back unchanged from their printed text. The scanners that read them decide it, and nothing
//! is allocated.
//!
//! **Rule.** It is a part of the written condition, which is this project's own (`docs/GRAMMAR.md`).
ghost use Rattle.std.specs.Prelude.{◌↔◌, IsTrue, map, chars};
ghost use Rattle.syslog_elements.specs.Words.{AllByRecursion, text_of, IsValue, element_value, param_value};
ghost use Rattle.syslog_elements.specs.StructuredData.Canonical as spec;

use super::StructuredElement;
use syslog_text::as_str::AsStr;
use syslog_text::text::canonical::{begins_unblank, is_some_of};
use syslog_text::text::{CharClass, first, split_run};

// Whether the text is a list of units, as the value of a parameter is.
#[tactic(auto, using(crate::proofs::StructuredDataLemmas::Closing::value_tests))]
fn is_value(text: &str) -> bool
    ensures { IsTrue result ↔ IsValue (chars text.now) }
{
    let mut rest = text;
    'units: loop {
        let (_, after) = split_run(rest, CharClass::Unescaped);
        let Some((c, more)) = first(after) else {
            return true;
        };
        if c == '"' {
            return false;
        }
        let Some((_, past_escape)) = first(more) else {
            return false;
        };
        rest = past_escape;
    }
}

// Whether the name and the value are read back from print.
fn is_canonical_param<S: AsStr>(param: &(S, S)) -> bool
    ensures { IsTrue result ↔ spec.IsCanonicalParam (param_value (text_of S.text) param.now) }
{
    is_some_of(param.0.as_str(), CharClass::Name) && is_value(param.1.as_str())
}

fn are_canonical_params<S: AsStr>(params: &[(S, S)]) -> bool
    ensures { IsTrue result ↔ AllByRecursion spec.IsCanonicalParam (map (param_value (text_of S.text)) params.now) }
{
    for param in params {
        if !is_canonical_param(param) {
            return false;
        }
    }
    true
}

// Whether the first name does not begin with a blank.
fn begins_unblank_params<S: AsStr>(params: &[(S, S)]) -> bool
    ensures { IsTrue result ↔ spec.BeginsUnblank (map (param_value (text_of S.text)) params.now) }
{
    params
        .first()
        .is_none_or(|first| begins_unblank(first.0.as_str()))
}

/// Returns whether the element is read back unchanged from its printed text.
pub fn is_canonical_element<S: AsStr>(element: &StructuredElement<S>) -> bool
    ensures { IsTrue result ↔ spec.IsCanonicalElement (element_value (text_of S.text) element.now) }
{
    if !is_some_of(element.id.as_str(), CharClass::Id) {
        return false;
    }
    if !are_canonical_params(&element.params) {
        return false;
    }
    begins_unblank_params(&element.params)
}

/// Returns whether each of the elements is read back unchanged from its printed text.
pub fn are_canonical_elements<S: AsStr>(elements: &[StructuredElement<S>]) -> bool
    ensures { IsTrue result ↔ AllByRecursion spec.IsCanonicalElement
        (map (element_value (text_of S.text)) elements.now) }
{
    for element in elements {
        if !is_canonical_element(element) {
            return false;
        }
    }
    true
}
