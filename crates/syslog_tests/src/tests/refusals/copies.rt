//! Refused memory in copies of messages and of elements, and in the values of parameters.
use super::Tries;
use super::lists::check_values;
use crate::tests::checks::{check, prints};
use crate::tests::reading::read;
use std::alloc::{AllocError, Global};
use std::process::Abort;
use syslog_loose::{Message, ParseFault, StructuredElement, Variant};

/// Texts with two elements, which print as they are written: with the number of a process, and with names; and the
/// elements.
const LISTED: [&str; 2] = [
    "<13>1 2019-02-13T19:48:34+00:00 74794bfb6795 root 8449 - [meta sequenceId=\"1\" sysUpTime=\"37\" \
     language=\"EN\"][origin ip=\"192.168.0.1\" software=\"test\"] i am foobar",
    "<13>1 2019-02-13T19:48:34+00:00 74794bfb6795 root x:y m1 [meta sequenceId=\"1\" sysUpTime=\"37\" \
     language=\"EN\"][origin ip=\"192.168.0.1\" software=\"test\"] i am foobar",
];

const META: &str = "[meta sequenceId=\"1\" sysUpTime=\"37\" language=\"EN\"]";

const ORIGIN: &str = "[origin ip=\"192.168.0.1\" software=\"test\"]";

/// A text with an element of three parameters, and them with bars between.
const VALUED: &str = "1 - - - - - [x a=\"p\" b=\"q\" c=\"r\"] hi";

const PARAMETERS: &str = "a|p|b|q|c|r";

// The message of the text, without which nothing is tried.
fn source(alloc: Global, text: &str, tries: Tries) -> Result<Message<&str>, ParseFault> {
    match read(alloc, text, Variant::Either) {
        Err(ParseFault::Memory) if tries == Tries::Twice => read(alloc, text, Variant::Either),
        other => other,
    }
}

// A copy of the message is the message again.
fn check_clone(rt: &impl Abort, alloc: Global, message: &Message<&str>, want: &str, tries: Tries) {
    let copy = match message.try_clone(alloc) {
        Err(AllocError) if tries == Tries::Twice => message.try_clone(alloc),
        other => other,
    };
    match copy {
        Ok(copy) => check(rt, copy == *message && prints(&copy, want), "a copy"),
        Err(_) => check(rt, false, "no copy"),
    }
    check(rt, prints(message, want), "the message that was copied");
}

// So is one over texts of its own ..
fn check_owned(rt: &impl Abort, alloc: Global, message: &Message<&str>, want: &str, tries: Tries) {
    let owned = match message.to_owned_text(alloc) {
        Err(AllocError) if tries == Tries::Twice => message.to_owned_text(alloc),
        other => other,
    };
    match owned {
        Ok(owned) => {
            check(rt, prints(&owned, want), "a copy with texts of its own");
            check_owned_clone(rt, alloc, &owned, want, tries);
        }
        Err(_) => check(rt, false, "no copy with texts of its own"),
    }
    check(rt, prints(message, want), "the message that was copied");
}

// .. and a copy of that.
fn check_owned_clone(
    rt: &impl Abort,
    alloc: Global,
    owned: &Message<String>,
    want: &str,
    tries: Tries,
) {
    let copy = match owned.try_clone(alloc) {
        Err(AllocError) if tries == Tries::Twice => owned.try_clone(alloc),
        other => other,
    };
    match copy {
        Ok(copy) => {
            check(rt, copy == *owned, "a copy of the copy");
            check(rt, prints(&copy, want), "a copy of the copy");
        }
        Err(_) => check(rt, false, "no copy of the copy"),
    }
    check(rt, prints(owned, want), "the copy that was copied");
}

// Both copies of an element that prints so.
fn check_element(
    rt: &impl Abort,
    alloc: Global,
    element: &StructuredElement<&str>,
    want: &str,
    tries: Tries,
) {
    let copy = match element.try_clone(alloc) {
        Err(AllocError) if tries == Tries::Twice => element.try_clone(alloc),
        other => other,
    };
    match copy {
        Ok(copy) => check(rt, copy == *element && prints(&copy, want), want),
        Err(_) => check(rt, false, want),
    }
    let owned = match element.to_owned_text(alloc) {
        Err(AllocError) if tries == Tries::Twice => element.to_owned_text(alloc),
        other => other,
    };
    match owned {
        Ok(owned) => check(rt, prints(&owned, want), want),
        Err(_) => check(rt, false, want),
    }
    check(rt, prints(element, want), want);
}

fn check_copies(rt: &impl Abort, alloc: Global, text: &str, tries: Tries) {
    let message = source(alloc, text, tries).expect(rt, text);
    check_clone(rt, alloc, &message, text, tries);
    check_owned(rt, alloc, &message, text, tries);
    match message.structured_data.as_slice() {
        [meta, origin] => {
            check_element(rt, alloc, meta, META, tries);
            check_element(rt, alloc, origin, ORIGIN, tries);
        }
        _ => check(rt, false, "not two elements"),
    }
}

fn check_source_values(rt: &impl Abort, alloc: Global, tries: Tries) {
    let message = source(alloc, VALUED, tries).expect(rt, VALUED);
    match message.structured_data.as_slice() {
        [element] => check_values(rt, alloc, element, PARAMETERS, tries),
        _ => check(rt, false, VALUED),
    }
}

#[test]
fn answers_for_copies_and_values_that_memory_was_refused(rt: HostRuntime) {
    for text in &LISTED {
        check_copies(&rt, rt.alloc(), text, Tries::Twice);
    }
    check_source_values(&rt, rt.alloc(), Tries::Twice);
}

#[test]
fn sees_no_refusal_of_copies_and_values(rt: HostRuntime) {
    for text in &LISTED {
        check_copies(&rt, rt.alloc(), text, Tries::Once);
    }
    check_source_values(&rt, rt.alloc(), Tries::Once);
}
