//! Refused memory in copies of process ids.
use super::Tries;
use crate::tests::checks::check;
use crate::tests::pieces::{has_equal_copy, is_name};
use std::alloc::{AllocError, Global};
use std::process::Abort;
use syslog_pieces::procid::ProcId;

fn check_copies(rt: &impl Abort, alloc: Global, tries: Tries) {
    let source = ProcId::from("x:y");
    let owned = match source.to_owned_text(alloc) {
        Err(AllocError) if tries == Tries::Twice => source.to_owned_text(alloc),
        other => other,
    };
    match owned {
        Ok(owned) => {
            check(rt, is_name(&owned, "x:y"), "copy with a text of its own");
            check_owned_clone(rt, alloc, &owned, tries);
        }
        Err(_) => check(rt, false, "no copy with a text of its own"),
    }
    check(rt, is_name(&source, "x:y"), "source");
}

fn check_owned_clone(rt: &impl Abort, alloc: Global, owned: &ProcId<String>, tries: Tries) {
    let copy = match owned.try_clone(alloc) {
        Err(AllocError) if tries == Tries::Twice => owned.try_clone(alloc),
        other => other,
    };
    match copy {
        Ok(copy) => check(rt, is_name(&copy, "x:y"), "copy of the copy"),
        Err(_) => check(rt, false, "no copy of the copy"),
    }
    check(rt, is_name(owned, "x:y"), "copy");
}

#[test]
fn answers_that_memory_for_a_name_was_refused(rt: HostRuntime) {
    check_copies(&rt, rt.alloc(), Tries::Twice);
}

#[test]
fn sees_no_refusal_of_a_name(rt: HostRuntime) {
    check_copies(&rt, rt.alloc(), Tries::Once);
}

#[test]
fn asks_for_no_memory_for_a_number_and_a_slice(rt: HostRuntime) {
    let owned = ProcId::from("323").to_owned_text(rt.alloc());
    check(&rt, matches!(owned, Ok(ProcId::PID(323))), "323");
    for text in &["323", "x:y"] {
        check(&rt, has_equal_copy(rt.alloc(), &ProcId::from(*text)), text);
    }
}
