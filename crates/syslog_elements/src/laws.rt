//! Laws over the definitions alone: each function does nothing, and its contract is the law.
ghost use Rattle.std.specs.Prelude.{◌≡◌, ◌↔◌, Bool, false, List, Result, String, IsTrue};
ghost use Rattle.std.specs.{Borrow.Bor, Global.Global, declared.alloc.AllocError.AllocError};
ghost use Rattle.syslog_elements.specs.Words.{AllByRecursion, element_value, BeginsNoList, rfc3164_list, elements_text};
ghost use Rattle.syslog_elements.specs.Words.{Drains, NoFront, text_of, IsValue, item, Text, forgiving, ElementValue};
ghost use Rattle.syslog_elements.specs.StructuredData.Escapes.{TextUnit, SplitsUnits, IsUnescaped, IsUnquoted, escaped};
ghost use Rattle.syslog_elements.specs.StructuredData.Params.{NextParam, AreParamItems};
ghost use Rattle.syslog_elements.specs.StructuredData.{Canonical.IsCanonicalElement, Equal.IsSameInSomeOrder};
ghost use Rattle.syslog_elements.specs.declared.structured_data.rfc3164_list.DashRule.{DashRule};
ghost use Rattle.syslog_elements.specs.declared.structured_data.StructuredElement.{StructuredElement};

use crate::structured_data::StructuredElement;
use syslog_text::as_str::AsStr;

/// A text is split into units in one way.
#[tactic(auto, using(crate::proofs::StructuredDataLemmas::Units::split_one, crate::proofs::StructuredDataLemmas::Units::split_there))]
pub fn text_has_one_split()
    ensures there { (text : Text) → (units : List TextUnit) × (lone : Bool) × SplitsUnits text units lone }
    ensures one { (text : Text) (units others : List TextUnit) (lone last : Bool)
        → SplitsUnits text units lone → SplitsUnits text others last → (units ≡ others) × (lone ≡ last) }
{}

/// A text is the value of a parameter exactly if its split into units has no lone backslash and no single quote.
#[tactic(auto, using(crate::proofs::StructuredDataLemmas::Units::value_split))]
pub fn value_is_unquoted_split()
    ensures { (text : Text) → IsValue text
        ↔ ((units : List TextUnit) × SplitsUnits text units false × AllByRecursion IsUnquoted units) }
{}

/// Removing the escapes from a text to which they were added gives that text again, and no other.
#[tactic(auto, using(crate::proofs::StructuredDataLemmas::Units::escaped_there))]
pub fn escapes_are_removed()
    ensures there { (text : Text) → IsUnescaped (escaped text) text }
    ensures one { (text other : Text) → IsUnescaped (escaped text) other → other ≡ text }
{}

/// Removing the escapes from a text gives one text.
pub fn text_is_unescaped_once()
    ensures { (text unescaped other : Text) → IsUnescaped text unescaped → IsUnescaped text other → unescaped ≡ other }
{}

/// An iterator over parameters, called until it returns nothing, has returned one item for each parameter, in order.
#[tactic(auto, using(crate::proofs::StructuredDataLemmas::Units::param_items_drained))]
pub fn params_are_given_in_order<S: AsStr>()
    ensures { (params : List (S × S)) (items : List (Result (Bor S × String Global) AllocError))
        → Drains (NextParam S.text) params items → AreParamItems S.text params items }
{}

/// A text begins with no list of RFC 3164 exactly if it begins neither with a dash that is such a list, nor with an
/// element of one.
pub fn list_begins_with_dash_or_element()
    ensures { (rule : DashRule) (text : Text) → NoFront (rfc3164_list rule) text ↔ BeginsNoList rule text }
{}

/// Two elements are equal exactly when their ids are the same text and the parameters of one are those of the other in
/// some order. So this is an equivalence, and elements with the same value are equal.
pub fn elements_are_equal_in_any_order<S: AsStr>()
    ensures exact { (a b : StructuredElement S) → IsTrue (⟦<StructuredElement<S> as PartialEq>⟧.eq a b)
        ↔ IsSameInSomeOrder (element_value (text_of S.text) a) (element_value (text_of S.text) b) }
    ensures reflexive { (a : StructuredElement S) → IsTrue (⟦<StructuredElement<S> as PartialEq>⟧.eq a a) }
    ensures symmetric { (a b : StructuredElement S) → IsTrue (⟦<StructuredElement<S> as PartialEq>⟧.eq a b)
        → IsTrue (⟦<StructuredElement<S> as PartialEq>⟧.eq b a) }
    ensures transitive { (a b c : StructuredElement S) → IsTrue (⟦<StructuredElement<S> as PartialEq>⟧.eq a b)
        → IsTrue (⟦<StructuredElement<S> as PartialEq>⟧.eq b c)
        → IsTrue (⟦<StructuredElement<S> as PartialEq>⟧.eq a c) }
    ensures same { (a b : StructuredElement S) → element_value (text_of S.text) a ≡ element_value (text_of S.text) b
        → IsTrue (⟦<StructuredElement<S> as PartialEq>⟧.eq a b) }
{}

/// Printed elements that are canonical, or `-` for none, are read back as a list of RFC 5424 if no item follows, and
/// the elements that are read are canonical.
pub fn canonical_elements_are_read_back()
    ensures back { (es : List ElementValue) (q : Text) → AllByRecursion IsCanonicalElement es → NoFront item q
        → forgiving.Is (elements_text es) q es }
    ensures only { (p q : Text) (es : List ElementValue) → forgiving.Is p q es → AllByRecursion IsCanonicalElement es }
{}
