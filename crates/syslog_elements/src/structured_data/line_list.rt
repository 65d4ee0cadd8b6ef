//! The list of a line, recognised and not collected. A visitor is given its strict elements while the list is read.
ghost use Rattle.std.specs.Prelude.{◌≡◌, ◌<◌, ◌≤◌, ◌++◌, [], ◌∷◌, List, Option, IfSome, IsTrue, MatchOption, chars};
ghost use Rattle.syslog_elements.specs.Words.{Front, NoFront, optional, many, shown, forgiving, ElementValue, Text};
ghost use Rattle.syslog_elements.specs.Words.{elements_or, full_element, rfc3164_list, list_elements};
ghost use Rattle.syslog_elements.specs.Words.{list_text, AreItems, IsTallied, Visits};
ghost use Rattle.syslog_elements.specs.StructuredData.{item as item_class, strict as strict_of};
ghost use Rattle.syslog_elements.specs.StructuredData.Visited.{IsBroken, LeavesBroken};

use super::recognise::after_bracketed;
use super::recognised::ElementList;
use super::rfc3164_list::{DashRule, after_dash};
use super::visit::{ElementVisitor, ParamNotes};
use super::walk::{walk_element, walk_full_element};
use syslog_text::text::literal;
use syslog_text::text::verbatim::before;

// What is known of a list after its items were walked.
#[derive(Clone, Copy)]
struct Tally<'a> {
    elements: usize,
    params: usize,
    // whether the text up to the first item that is not strict is the printed text of the strict elements
    prints: bool,
    // the text from that item on
    broken: Option<&'a str>,
}

// Returns the list that is `-`.
#[inline(always)]
fn dash_list<'a>(text: &'a str, rest: &str) -> ElementList<'a>
    requires { chars text.now ≡ 45 ∷ chars rest.now }
    ensures elements { list_elements result ≡ [] }
    ensures text { list_text result ≡ 45 ∷ [] }
{
    let dash = before(text, rest);
    ElementList::new(dash, "", 1, 0, 0)
}

// Returns the part of the list from the first item on that is not strict, which is before the rest.
#[inline(always)]
#[tactic(auto, using(crate::proofs::Names::append_cancel_right))]
fn broken_part<'a>(broken: Option<&'a str>, rest: &str) -> &'a str
    requires { (unparsed : Text) × IsBroken broken unparsed (chars rest.now) }
    ensures { (unparsed : Text) → IsBroken broken.entry unparsed (chars rest.now) → shown result ≡ unparsed }
{
    match broken {
        Some(from) => before(from, rest),
        None => "",
    }
}

// Returns the number if the elements that it counts are printed, otherwise 0.
#[inline(always)]
fn counted_if(prints: bool, elements: usize) -> usize
    ensures printed { 0 < result → IsTrue prints × (0 < elements) }
    ensures unprinted { result ≡ 0 → IsTrue prints → elements ≤ 0 }
{
    if prints { elements } else { 0 }
}

// Returns the list of the items before a rest of the text.
#[inline(always)]
fn item_list<'a>(text: &'a str, rest: &str, tally: Tally<'a>) -> ElementList<'a>
    requires { (vs : List (Option ElementValue)) × AreItems (chars text.now) (chars rest.now) vs
        × IsTallied (chars text.now) (chars rest.now) (strict_of vs) tally
        × LeavesBroken (chars text.now) (chars rest.now) tally.broken }
    ensures elements { (vs : List (Option ElementValue)) → AreItems (chars text.now) (chars rest.now) vs
        → list_elements result ≡ strict_of vs }
    ensures text { chars text.now ≡ list_text result ++ chars rest.now }
{
    let own = before(text, rest);
    let unparsed = broken_part(tally.broken, rest);
    let printed = counted_if(tally.prints, tally.elements);
    ElementList::new(own, unparsed, printed, tally.elements, tally.params)
}

// Visits the strict and broken elements at the front, as many as there are, and returns the text after them.
#[inline(always)]
fn visit_items<'a, V: ElementVisitor<'a>>(
    text: &'a str,
    visitor: &mut V,
) -> (ElementList<'a>, &'a str)
    ensures list { (vs : List (Option ElementValue)) × Front (many item_class) (chars text.now) (shown result.1) vs
        × (list_elements result.0 ≡ strict_of vs) }
    ensures text { chars text.now ≡ list_text result.0 ++ shown result.1 }
    ensures visited { Visits V.was_given visitor.old (list_elements result.0) visitor.new }
{
    let mut notes = V::Notes::new();
    let mut tally = Tally {
        elements: 0,
        params: 0,
        prints: true,
        broken: None,
    };
    let mut rest = text;
    let mut dead = text.len();
    'items: loop {
        match walk_element(rest, dead, &mut notes) {
            Ok(found) => {
                visitor.element(found.element, &notes);
                tally.elements += 1;
                tally.params += found.element.params_len();
                tally.prints = tally.prints & found.prints & tally.broken.is_none();
                rest = found.rest;
            }
            Err(failed) => {
                let Some(after) = after_bracketed(rest) else {
                    return (item_list(text, rest, tally), rest);
                };
                tally.broken = tally.broken.or(Some(rest));
                dead = failed.min(dead);
                rest = after;
            }
        }
    }
}

// Visits the strict elements at the front that have a parameter, as many as there are, and returns the text after them.
#[inline(never)]
fn visit_full_elements<'a, V: ElementVisitor<'a>>(
    text: &'a str,
    visitor: &mut V,
) -> (ElementList<'a>, &'a str)
    ensures list { Front (many full_element) (chars text.now) (shown result.1) (list_elements result.0) }
    ensures text { chars text.now ≡ list_text result.0 ++ shown result.1 }
    ensures visited { Visits V.was_given visitor.old (list_elements result.0) visitor.new }
{
    let mut notes = V::Notes::new();
    let mut tally = Tally {
        elements: 0,
        params: 0,
        prints: true,
        broken: None,
    };
    let mut rest = text;
    'elements: while let Some(found) = walk_full_element(rest, &mut notes) {
        visitor.element(found.element, &notes);
        tally.elements += 1;
        tally.params += found.element.params_len();
        tally.prints &= found.prints;
        rest = found.rest;
    }
    (item_list(text, rest, tally), rest)
}

/// Returns the list of RFC 5424 at the front, and the text after it. The list is `-`, or strict and broken elements, as
/// many as there are; the visitor is given the strict ones.
#[inline(always)]
pub fn visit_forgiving_list<'a, V: ElementVisitor<'a>>(
    text: &'a str,
    visitor: &mut V,
) -> Option<(ElementList<'a>, &'a str)>
    ensures list { MatchOption result (NoFront forgiving (chars text.now))
        (λ x. Front forgiving (chars text.now) (shown x.1) (list_elements x.0)) }
    ensures text { IfSome result (λ x. chars text.now ≡ list_text x.0 ++ shown x.1) }
    ensures visited { MatchOption result (Visits V.was_given visitor.old [] visitor.new)
        (λ x. Visits V.was_given visitor.old (list_elements x.0) visitor.new) }
{
    if let Some(rest) = literal(text, '-') {
        return Some((dash_list(text, rest), rest));
    }
    let (list, rest) = visit_items(text, visitor);
    if list.text().is_empty() {
        None
    } else {
        Some((list, rest))
    }
}

/// Returns the list of RFC 3164 at the front, which may be absent, and the text after it. The list is `-` if the rule
/// allows it, or strict elements that each have a parameter, which the visitor is given.
#[inline(always)]
pub fn visit_rfc3164_list<'a, V: ElementVisitor<'a>>(
    text: &'a str,
    rule: DashRule,
    visitor: &mut V,
) -> (ElementList<'a>, &'a str)
    ensures list { (es : Option (List ElementValue))
        × Front (optional (rfc3164_list rule)) (chars text.now) (shown result.1) es
        × (list_elements result.0 ≡ elements_or es) }
    ensures text { chars text.now ≡ list_text result.0 ++ shown result.1 }
    ensures visited { Visits V.was_given visitor.old (list_elements result.0) visitor.new }
{
    if let Some(rest) = after_dash(text, rule) {
        return (dash_list(text, rest), rest);
    }
    let Some(_) = literal(text, '[') else {
        return (ElementList::none(), text);
    };
    visit_full_elements(text, visitor)
}
