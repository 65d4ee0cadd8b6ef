//! Refused memory for the elements of a message.
use super::Tries;
use super::texts::check_read;
use crate::tests::checks::check;
use crate::tests::pieces::are_elements;
use crate::tests::reading::read;
use crate::tests::rows::{answer_of, left_of, text_of};
use std::alloc::Global;
use std::process::Abort;
use syslog_loose::{ParseFault, Variant};

/// Texts, each with the lines of its elements and the message after them.
const LISTED: [&str; 2] = [
    "<13>1 2019-02-13T19:48:34+00:00 74794bfb6795 root 8449 - [meta sequenceId=\"1\" sysUpTime=\"37\" \
     language=\"EN\"][origin ip=\"192.168.0.1\" software=\"test\"] i am foobar\
     ¦meta|sequenceId|1|sysUpTime|37|language|EN\norigin|ip|192.168.0.1|software|test¦i am foobar",
    "1 - - - - - [a b=\"c\"] x¦a|b|c¦x",
];

// The text has the elements and the message of the row.
fn check_row(rt: &impl Abort, alloc: Global, row: &str, variant: Variant, tries: Tries) {
    let answer = match read(alloc, text_of(row), variant) {
        Err(ParseFault::Memory) if tries == Tries::Twice => read(alloc, text_of(row), variant),
        other => other,
    };
    let same = match answer {
        Ok(message) => {
            are_elements(&message.structured_data, answer_of(row).unwrap_or(""))
                && message.msg == left_of(row)
        }
        Err(_) => false,
    };
    check(rt, same, row);
}

fn check_rows(rt: &impl Abort, alloc: Global, tries: Tries) {
    for row in &LISTED {
        check_row(rt, alloc, row, Variant::Either, tries);
        check_row(rt, alloc, row, Variant::RFC5424, tries);
    }
}

#[test]
fn answers_that_memory_for_elements_was_refused_and_then_as_ever(rt: HostRuntime) {
    check_rows(&rt, rt.alloc(), Tries::Twice);
}

#[test]
fn sees_no_refusal_for_elements(rt: HostRuntime) {
    check_rows(&rt, rt.alloc(), Tries::Once);
}

#[test]
fn asks_for_no_memory_where_no_element_is_kept_or_the_list_is_cut(rt: HostRuntime) {
    for (text, msg) in &[
        ("1 - - - - - [a b=\"x]y\" ]z", Some("y\" ]z")),
        (
            "<13>1 2019-02-13T19:48:34+00:00 74794bfb6795 root 8449 - [incorrect x] qwerty",
            Some("qwerty"),
        ),
        ("1 - - - - - [a b=\"c", None),
    ] {
        check_read(&rt, rt.alloc(), text, *msg);
    }
}
