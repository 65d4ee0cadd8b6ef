//! Refused memory in lists, and in the values of their parameters.
use super::Tries;
use crate::tests::checks::check;
use crate::tests::pieces::{
    List, OptionalList, check_read_list, check_read_optional, forgiving_list, is_item, only,
    optional_list,
};
use crate::tests::rows::text_of;
use std::alloc::{AllocError, Global};
use std::process::Abort;
use syslog_elements::structured_data::StructuredElement;
use syslog_elements::structured_data::rfc3164_list::DashRule;

/// An element with its id and parameters, the last of which has an escape.
pub(super) const ELEMENT: &str = "[id a=\"b\" c=\"\" d=\"\\]\"]";

/// The line of that element.
pub(super) const LINE: &str = "id|a|b|c||d|\\]";

/// Its values without escapes, each after its name.
const PLAIN: &str = "a|b|c||d|]";

/// The row of that element.
const ROW: &str = "[id a=\"b\" c=\"\" d=\"\\]\"]¦id|a|b|c||d|\\]¦";

pub(super) fn list_of(alloc: Global, text: &str, tries: Tries) -> Result<List<'_>, AllocError> {
    match forgiving_list(alloc, text) {
        Err(AllocError) if tries == Tries::Twice => forgiving_list(alloc, text),
        other => other,
    }
}

fn rfc3164_list_of(
    alloc: Global,
    text: &str,
    rule: DashRule,
    tries: Tries,
) -> Result<OptionalList<'_>, AllocError> {
    match optional_list(alloc, text, rule) {
        Err(AllocError) if tries == Tries::Twice => optional_list(alloc, text, rule),
        other => other,
    }
}

/// Lists of the same two elements.
const LISTS: [&str; 2] = [
    "[a b=\"x]y\"][c d=\"e\"] f¦a|b|x]y\nc|d|e¦ f",
    "[a b=\"x]y\"][broken =][c d=\"e\"][f¦a|b|x]y\nc|d|e¦[f",
];

// How many values were refused, if each other one is right, with its name, and in its place.
fn refused_values(alloc: Global, element: &StructuredElement<&str>, values: &str) -> Option<usize> {
    let mut wanted = values.split('|');
    let mut refused = 0usize;
    let mut right = true;
    for item in element.params(alloc) {
        let (name, plain) = (wanted.next(), wanted.next());
        match item.is_err() {
            true => refused = refused.saturating_add(1),
            false => right = right && is_item(&item, name, plain),
        }
    }
    if right && wanted.next().is_none() {
        return Some(refused);
    }
    None
}

/// All values are right, at once or at the second time. They are given without escapes, each after its name, with bars
/// between.
pub(super) fn check_values(
    rt: &impl Abort,
    alloc: Global,
    element: &StructuredElement<&str>,
    values: &str,
    tries: Tries,
) {
    let refused = match refused_values(alloc, element, values) {
        Some(1) if tries == Tries::Twice => refused_values(alloc, element, values),
        other => other,
    };
    check(rt, matches!(refused, Some(0)), values);
}

fn check_element(rt: &impl Abort, alloc: Global, tries: Tries) {
    let read = list_of(alloc, ELEMENT, tries);
    match only(&read) {
        Some(element) => check_values(rt, alloc, element, PLAIN, tries),
        None => check(rt, false, "no element"),
    }
    check_read_list(rt, ROW, read);
}

fn check_rfc3164_list(rt: &impl Abort, alloc: Global, rule: DashRule, tries: Tries) {
    let row = "[a b=\"x]y\"][c d=\"e\"][f]¦a|b|x]y\nc|d|e¦[f]";
    check_read_optional(rt, row, rfc3164_list_of(alloc, text_of(row), rule, tries));
}

fn check_lists(rt: &impl Abort, alloc: Global, tries: Tries) {
    for row in &LISTS {
        check_read_list(rt, row, list_of(alloc, text_of(row), tries));
    }
    check_rfc3164_list(rt, alloc, DashRule::BeforeAnything, tries);
    check_rfc3164_list(rt, alloc, DashRule::BeforeBlank, tries);
}

#[test]
fn answers_that_memory_for_an_element_and_its_values_was_refused(rt: HostRuntime) {
    check_element(&rt, rt.alloc(), Tries::Twice);
}

#[test]
fn sees_no_refusal_of_an_element_and_its_values(rt: HostRuntime) {
    check_element(&rt, rt.alloc(), Tries::Once);
}

#[test]
fn answers_that_memory_for_lists_was_refused(rt: HostRuntime) {
    check_lists(&rt, rt.alloc(), Tries::Twice);
}

#[test]
fn sees_no_refusal_of_lists(rt: HostRuntime) {
    check_lists(&rt, rt.alloc(), Tries::Once);
}

#[test]
fn asks_for_no_memory_without_elements(rt: HostRuntime) {
    // lists without elements, and no list
    for row in &[
        "[id",
        "[id a=\"b\" ]¦¦",
        "[id a=\"b",
        "[=]¦¦",
        "- x¦¦ x",
        "[a b=\"c]d¦¦d",
        "[a =][b =]¦¦",
        "",
        "x",
        "[a b=\"c",
    ] {
        check_read_list(&rt, row, forgiving_list(rt.alloc(), text_of(row)));
    }
    // the same of RFC 3164
    for row in &["- x¦¦ x", "-¦¦", "[a] x", "x", ""] {
        for rule in [DashRule::BeforeAnything, DashRule::BeforeBlank] {
            check_read_optional(&rt, row, optional_list(rt.alloc(), text_of(row), rule));
        }
    }
}
