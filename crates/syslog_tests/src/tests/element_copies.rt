//! Copies keep the order of the parameters.
use super::checks::check;
use super::elements::{element_of, prints_as};
use super::pieces::is_element;
use super::rows::{answer_of, text_of};
use std::alloc::Global;
use std::process::Abort;
use syslog_elements::structured_data::StructuredElement;

fn has_equal_copy(alloc: Global, owned: &StructuredElement<String>, printed: &str) -> bool {
    match owned.try_clone(alloc) {
        Ok(again) => again == *owned && prints_as(alloc, &again, printed),
        Err(_) => false,
    }
}

// Two copies of the element, the second made of the first, which own their texts.
fn has_owned_copies(alloc: Global, element: &StructuredElement<&str>, printed: &str) -> bool {
    match element.to_owned_text(alloc) {
        Ok(owned) => {
            owned.params.capacity() == element.params.len()
                && prints_as(alloc, &owned, printed)
                && has_equal_copy(alloc, &owned, printed)
        }
        Err(_) => false,
    }
}

fn has_copy(alloc: Global, element: &StructuredElement<&str>, line: &str) -> bool {
    match element.try_clone(alloc) {
        Ok(copy) => {
            is_element(&copy, line)
                && copy == *element
                && copy.params.capacity() == element.params.len()
        }
        Err(_) => false,
    }
}

fn check_copies(rt: &impl Abort, alloc: Global, line: &str, printed: &str) {
    match element_of(alloc, line) {
        Ok(element) => {
            check(rt, prints_as(alloc, &element, printed), line);
            check(rt, has_copy(alloc, &element, line), line);
            check(rt, has_owned_copies(alloc, &element, printed), line);
        }
        Err(_) => check(rt, false, "no memory"),
    }
}

#[test]
fn copies_parameters_in_order(rt: HostRuntime) {
    for row in &[
        "x|b|2|a|1¦[x b=\"2\" a=\"1\"]",
        "x|a|1|a|1|a|¦[x a=\"1\" a=\"1\" a=\"\"]",
        "x|größe|\\]¦[x größe=\"\\]\"]",
        "x¦[x]",
    ] {
        check_copies(&rt, rt.alloc(), text_of(row), answer_of(row).unwrap_or(""));
    }
}
