//! Refused memory in copies of elements.
use super::Tries;
use super::lists::{ELEMENT, LINE, list_of};
use crate::tests::checks::check;
use crate::tests::pieces::{is_element, only};
use std::alloc::{AllocError, Global};
use std::process::Abort;
use syslog_elements::structured_data::StructuredElement;

fn check_clone(rt: &impl Abort, alloc: Global, element: &StructuredElement<&str>, tries: Tries) {
    let copy = match element.try_clone(alloc) {
        Err(AllocError) if tries == Tries::Twice => element.try_clone(alloc),
        other => other,
    };
    match copy {
        Ok(copy) => check(rt, is_element(&copy, LINE), "copy"),
        Err(_) => check(rt, false, "no copy"),
    }
    check(rt, is_element(element, LINE), "source");
}

fn check_owned(rt: &impl Abort, alloc: Global, element: &StructuredElement<&str>, tries: Tries) {
    let owned = match element.to_owned_text(alloc) {
        Err(AllocError) if tries == Tries::Twice => element.to_owned_text(alloc),
        other => other,
    };
    match owned {
        Ok(owned) => {
            check(rt, is_element(&owned, LINE), "copy with texts of its own");
            check_owned_clone(rt, alloc, &owned, tries);
        }
        Err(_) => check(rt, false, "no copy with texts of its own"),
    }
    check(rt, is_element(element, LINE), "source");
}

fn check_owned_clone(
    rt: &impl Abort,
    alloc: Global,
    owned: &StructuredElement<String>,
    tries: Tries,
) {
    let copy = match owned.try_clone(alloc) {
        Err(AllocError) if tries == Tries::Twice => owned.try_clone(alloc),
        other => other,
    };
    match copy {
        Ok(copy) => check(rt, is_element(&copy, LINE), "copy of the copy"),
        Err(_) => check(rt, false, "no copy of the copy"),
    }
    check(rt, is_element(owned, LINE), "copied copy");
}

fn check_copies(rt: &impl Abort, alloc: Global, tries: Tries) {
    match only(&list_of(alloc, ELEMENT, tries)) {
        Some(element) => {
            check_clone(rt, alloc, element, tries);
            check_owned(rt, alloc, element, tries);
        }
        None => check(rt, false, "no element"),
    }
}

#[test]
fn answers_that_memory_for_a_copy_was_refused(rt: HostRuntime) {
    check_copies(&rt, rt.alloc(), Tries::Twice);
}

#[test]
fn sees_no_refusal_of_copies(rt: HostRuntime) {
    check_copies(&rt, rt.alloc(), Tries::Once);
}
