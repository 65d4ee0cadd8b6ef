//! Equality of elements: the same id, and the same parameters in any order. Nothing is allocated. It is one pass if the
//! parameters are in one order, and otherwise takes at worst time in proportion to the product of the two lengths.
ghost use Rattle.std.specs.Cmp.{on_equiv, on_per, partial_equiv_from_equiv};
ghost use Rattle.syslog_elements.specs.Words.{on, text_of, element_value, param_value};
ghost use Rattle.std.specs.Prelude.{◌≡◌, ◌≤◌, count_by, length, map, take};
ghost use Rattle.syslog_elements.specs.StructuredData.Equal.{element_eq, same_params, counts_agree, param_eq};
ghost use Rattle.syslog_elements.specs.StructuredData.EqualLaws.{element_equivalence};

use super::StructuredElement;
use syslog_text::as_str::{AsStr, is_same_text};

impl<S: AsStr> PartialEq for StructuredElement<S> {
    ghost eq = { on (element_value (text_of S.text)) element_eq };

    ghost laws = { on_per (element_value (text_of S.text)) (partial_equiv_from_equiv element_equivalence) };

    fn eq(&self, other: &StructuredElement<S>) -> bool {
        is_same_text(&self.id, &other.id) && have_same_params(&self.params, &other.params)
    }
}

impl<S: AsStr> Eq for StructuredElement<S> {
    ghost laws = { on_equiv (element_value (text_of S.text)) element_equivalence };
}

// Whether both lists have the same parameters, each as often. Nearly always they are in the same order, and the first
// pass decides it; they are counted only after the first difference.
#[tactic(auto, using(crate::proofs::StructuredDataLemmas::Units::comparing))]
fn have_same_params<S: AsStr>(a: &[(S, S)], b: &[(S, S)]) -> bool
    ensures { result ≡ same_params (map (param_value (text_of S.text)) a.now)
        (map (param_value (text_of S.text)) b.now) }
{
    if a.len() != b.len() {
        return false;
    }
    let start = first_difference(a, b);
    are_as_frequent(&a[start..], &b[start..])
}

// Returns how many parameters at the front of two lists of the same length are the same.
#[tactic(auto, using(crate::proofs::StructuredDataLemmas::Units::front_more))]
fn first_difference<S: AsStr>(a: &[(S, S)], b: &[(S, S)]) -> usize
    requires { length a.now ≡ length b.now }
    ensures within { result ≤ length a.now }
    ensures same { map (param_value (text_of S.text)) (take result a.now)
        ≡ map (param_value (text_of S.text)) (take result b.now) }
{
    for at in 0..a.len() {
        if !is_same_param(&a[at], &b[at]) {
            return at;
        }
    }
    a.len()
}

// Whether each parameter of the first list is equally often in both.
fn are_as_frequent<S: AsStr>(a: &[(S, S)], b: &[(S, S)]) -> bool
    ensures { result ≡ counts_agree (map (param_value (text_of S.text)) a.now)
        (map (param_value (text_of S.text)) a.now) (map (param_value (text_of S.text)) b.now) }
{
    for param in a {
        if count_param(param, a) != count_param(param, b) {
            return false;
        }
    }
    true
}

// How often a parameter is in a list.
fn count_param<S: AsStr>(param: &(S, S), params: &[(S, S)]) -> usize
    ensures { result ≡ count_by (λ q. param_eq (param_value (text_of S.text) param.now)
        (param_value (text_of S.text) q)) params.now }
{
    params
        .iter()
        .filter(|other| is_same_param(param, *other))
        .count()
}

fn is_same_param<S: AsStr>(a: &(S, S), b: &(S, S)) -> bool
    ensures { result ≡ param_eq (param_value (text_of S.text) a.now) (param_value (text_of S.text) b.now) }
{
    is_same_text(&a.0, &b.0) && is_same_text(&a.1, &b.1)
}
