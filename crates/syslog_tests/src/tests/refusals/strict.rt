//! A text as strict RFC 5424: what the call returns, and refused memory.
use super::Tries;
use crate::tests::checks::{cells, check_answer};
use jiff::tz::TimeZone;
use std::alloc::Global;
use std::process::Abort;
use syslog_loose::{IncompleteDate, ParseFault, Variant};
use syslog_strict::to_rfc5424;

/// Texts and what is written for them. They are an example of section 6.5 of RFC 5424, and its elements after more
/// decimals than the grammar has. Then come the example of section 5.4 of RFC 3164, and elements of which two have one
/// id.
const TEXTS: [&str; 4] = [
    "<165>1 2003-10-11T22:14:15.003Z mymachine.example.com evntslog - ID47 [exampleSDID@32473 iut=\"3\" \
     eventSource=\"Application\" eventID=\"1011\"][examplePriority@32473 class=\"high\"]\
     ¦<165>1 2003-10-11T22:14:15.003Z mymachine.example.com evntslog - ID47 [exampleSDID@32473 iut=\"3\" \
     eventSource=\"Application\" eventID=\"1011\"][examplePriority@32473 class=\"high\"]",
    "<165>1 2003-10-11T22:14:15.0030004Z mymachine.example.com evntslog 17 ID47 [exampleSDID@32473 iut=\"3\" \
     eventSource=\"Application\" eventID=\"1011\"][examplePriority@32473 class=\"high\"] x\
     ¦<165>1 2003-10-11T22:14:15.003+00:00 mymachine.example.com evntslog 17 ID47 [exampleSDID@32473 iut=\"3\" \
     eventSource=\"Application\" eventID=\"1011\"][examplePriority@32473 class=\"high\"] x",
    "<34>Oct 11 22:14:15 mymachine su: 'su root' failed for lonvick on /dev/pts/8\
     ¦<34>1 2019-10-11T22:14:15+00:00 mymachine su - - - 'su root' failed for lonvick on /dev/pts/8",
    "1 - - - - - [a b=\"c\"][d][a b=\"e\"] x¦<13>1 - - - - - [a b=\"c\" b=\"e\"][d] x",
];

fn converted(alloc: Global, text: &str) -> Result<String, ParseFault> {
    let year = |_: IncompleteDate| 2019;
    to_rfc5424(alloc, text, year, None, Variant::Either, &TimeZone::UTC)
}

fn check_row(rt: &impl Abort, alloc: Global, row: &str, tries: Tries) {
    let (text, want) = cells(rt, row);
    let answer = match converted(alloc, text) {
        Err(ParseFault::Memory) if tries == Tries::Twice => converted(alloc, text),
        other => other,
    };
    check_answer(rt, answer, Ok(want), text);
}

#[test]
fn answers_that_memory_was_refused_and_then_the_strict_text(rt: HostRuntime) {
    for row in &TEXTS {
        check_row(&rt, rt.alloc(), row, Tries::Twice);
    }
}

#[test]
fn sees_no_refusal_of_a_strict_text(rt: HostRuntime) {
    for row in &TEXTS {
        check_row(&rt, rt.alloc(), row, Tries::Once);
    }
}

#[test]
fn asks_for_no_memory_where_no_strict_text_is_written(rt: HostRuntime) {
    for text in &["", "gobbledegook", "<34>Feb 30 10:00:00 h a: x"] {
        let answer = converted(rt.alloc(), text);
        check_answer(&rt, answer, Err(ParseFault::Invalid), text);
    }
}
