//! Refused memory where a text is read, normalised and settled.
use super::Tries;
use crate::tests::checks::{cells, check, check_answer, check_same};
use crate::tests::reading::{normalised, read, settled};
use jiff::tz::TimeZone;
use std::alloc::Global;
use std::process::Abort;
use syslog_loose::{IncompleteDate, ParseFault, Variant, settle_into};

/// Texts with what each normalises to: plain and with elements, some of them broken, of both protocols.
const NORMALISED: [&str; 7] = [
    "<200>1 - - - - - -¦<40>1 - - - - - - ",
    "1 - h a +5 m - x¦<47>1 - h a 5 m - x",
    "<34>1 2003-10-11T22:14:15.003Z mymachine.example.com su - ID47 - message\
     ¦<34>1 2003-10-11T22:14:15.003+00:00 mymachine.example.com su - ID47 - message",
    "<13>1 2019-02-13T19:48:34+00:00 74794bfb6795 root 8449 - [meta sequenceId=\"1\" sysUpTime=\"37\" \
         language=\"EN\"][origin ip=\"192.168.0.1\" software=\"test\"] i am foobar\
          ¦<13>1 2019-02-13T19:48:34+00:00 74794bfb6795 root 8449 - [meta sequenceId=\"1\" sysUpTime=\"37\" \
         language=\"EN\"][origin ip=\"192.168.0.1\" software=\"test\"] i am foobar",
    "1 - - - - - [a b=\"x]y\"][c][d e=][f¦<47>1 - - - - - [a b=\"x]y\"][c] [f",
    "Oct 11 22:14:15 h a: m¦<47> 2019-10-11T22:14:15+00:00 h a: m",
    "- h a: [a b=\"c\"][d e=\"f\"][g¦<47> - h a: [a b=\"c\"][d e=\"f\"] [g",
];

/// Texts with what each settles as: in round 1, without a message in between and with one, and in later rounds, with
/// elements in none of them and in each.
const SETTLED: [&str; 5] = [
    "<200>1 - - - - - -¦<40>1 - - - - - - ",
    "<34>Oct 11 22:14:15 mymachine app[323]: a message¦<34> 2019-10-11T22:14:15+00:00 mymachine app[323]: a message",
    "<34>- zork::: hi¦<34> - zork : : : hi",
    "- h a: - - x¦<47> - h a: x",
    "- zork:: [e k=\"v\"] x¦<47> - zork : : [e k=\"v\"] x",
];

fn check_normalised(rt: &impl Abort, alloc: Global, row: &str, tries: Tries) {
    let (text, want) = cells(rt, row);
    let answer = match normalised(alloc, text, 2019, None) {
        Err(ParseFault::Memory) if tries == Tries::Twice => normalised(alloc, text, 2019, None),
        other => other,
    };
    check_answer(rt, answer, Ok(want), text);
}

fn check_settled(rt: &impl Abort, alloc: Global, row: &str, tries: Tries) {
    let (text, want) = cells(rt, row);
    let answer = match settled(alloc, text, 2019, None) {
        Err(ParseFault::Memory) if tries == Tries::Twice => settled(alloc, text, 2019, None),
        other => other,
    };
    check_answer(rt, answer, Ok(want), text);
}

#[test]
fn answers_that_memory_was_refused_and_then_as_ever(rt: HostRuntime) {
    for row in &NORMALISED {
        check_normalised(&rt, rt.alloc(), row, Tries::Twice);
    }
    for row in &SETTLED {
        check_settled(&rt, rt.alloc(), row, Tries::Twice);
    }
}

#[test]
fn sees_no_refusal(rt: HostRuntime) {
    for row in &NORMALISED {
        check_normalised(&rt, rt.alloc(), row, Tries::Once);
    }
    for row in &SETTLED {
        check_settled(&rt, rt.alloc(), row, Tries::Once);
    }
}

// At the second call where the first is refused.
fn settled_into(alloc: Global, text: &mut String, line: &str) -> Result<(), ParseFault> {
    let (utc, variant) = (TimeZone::UTC, Variant::Either);
    let year = |_: IncompleteDate| 2019;
    match settle_into(alloc, text, line, year, None, variant, &utc) {
        Err(ParseFault::Memory) => settle_into(alloc, text, line, year, None, variant, &utc),
        other => other,
    }
}

#[test]
fn answers_line_after_line_in_one_text(rt: HostRuntime) {
    let mut text = String::new(rt.alloc());
    for row in &SETTLED {
        let (line, want) = cells(&rt, row);
        let answer = settled_into(rt.alloc(), &mut text, line);
        check(&rt, answer.is_ok(), line);
        check_same(&rt, text.as_str(), want, line);
    }
}

/// The text parses as a message without elements, or does not parse.
pub(super) fn check_read(rt: &impl Abort, alloc: Global, text: &str, want: Option<&str>) {
    match (read(alloc, text, Variant::Either), want) {
        (Ok(message), Some(msg)) => {
            check(rt, message.structured_data.is_empty(), text);
            check(rt, message.msg == msg, text);
        }
        (Err(fault), None) => check(rt, fault == ParseFault::Invalid, text),
        _ => check(rt, false, text),
    }
}

#[test]
fn asks_for_no_memory_without_elements_or_a_reading(rt: HostRuntime) {
    for (text, msg) in &[
        (
            "<34>1 2003-10-11T22:14:15.003Z mymachine.example.com su - ID47 - message",
            Some("message"),
        ),
        ("<200>1 - - - - - -", Some("")),
        ("1 - h a +5 m - x", Some("x")),
        ("1 - h a 2147483648 m - x", Some("x")),
        ("<256>1 - - - - - -", None),
        ("1 - h: a 1 m - x", None),
    ] {
        check_read(&rt, rt.alloc(), text, *msg);
    }
    // What is not read is not normalised ..
    for text in &[
        "",
        "gobbledegook",
        "<256>1 - - - - - -",
        "1 - h: a 1 m - x",
        "1 - - - - - [a b=\"c",
        "<34>Feb 30 10:00:00 h a: [a b=\"c\"] m",
    ] {
        let answer = normalised(rt.alloc(), text, 2019, None);
        check_answer(&rt, answer, Err(ParseFault::Invalid), text);
    }
    // .. nor settled.
    for text in &["", "<256>1 - - - - - -", "gobbledegook"] {
        let answer = settled(rt.alloc(), text, 2019, None);
        check_answer(&rt, answer, Err(ParseFault::Invalid), text);
    }
}
