//! Refused memory in each of the five reading calls and in `reads_differently`.
use super::Tries;
use crate::tests::checks::{cells, check, check_dash_change, prints};
use crate::tests::reading::summer_rule;
use jiff::Timestamp;
use jiff::tz::TimeZone;
use std::alloc::Global;
use std::process::Abort;
use syslog_loose::{
    IncompleteDate, Message, ParseFault, Variant, parse_message, parse_message_with_year,
    parse_message_with_year_exact, parse_message_with_year_exact_tz, parse_message_with_year_tz,
};

#[derive(Clone, Copy)]
enum Call {
    Moment,
    Year,
    YearAndZone,
    Exact,
    ExactInZone,
}

const CALLS: [Call; 5] = [
    Call::Moment,
    Call::Year,
    Call::YearAndZone,
    Call::Exact,
    Call::ExactInZone,
];

const YEAR: i32 = 2020;

/// The message of the text in 2020 and by the rule, given or local. `Memory` is each call's failed allocation.
fn called<'a>(
    alloc: Global,
    call: Call,
    text: &'a str,
    variant: Variant,
    rule: &TimeZone<'_>,
) -> Result<Message<&'a str>, ParseFault> {
    let utc = TimeZone::UTC;
    let year = |_: IncompleteDate| YEAR;
    match call {
        Call::Moment => {
            // 2020-09-13T12:26:40Z
            let now = Timestamp::from_second(1_600_000_000).unwrap_or(Timestamp::UNIX_EPOCH);
            Ok(parse_message(alloc, text, variant, now, rule)?)
        }
        Call::Year => Ok(parse_message_with_year(alloc, text, year, variant, rule)?),
        Call::YearAndZone => Ok(parse_message_with_year_tz(
            alloc,
            text,
            year,
            Some(rule),
            variant,
            &utc,
        )?),
        Call::Exact => parse_message_with_year_exact(alloc, text, year, variant, rule),
        Call::ExactInZone => {
            parse_message_with_year_exact_tz(alloc, text, year, Some(rule), variant, &utc)
        }
    }
}

/// Lines with elements under a variant, and how each prints.
const LISTED: [(Variant, &str); 6] = [
    (
        Variant::RFC5424,
        "<13>1 2019-02-13T19:48:34+00:00 74794bfb6795 root 8449 - [meta sequenceId=\"1\" sysUpTime=\"37\" \
         language=\"EN\"][origin ip=\"192.168.0.1\" software=\"test\"] i am foobar\
         ¦<13>1 2019-02-13T19:48:34+00:00 74794bfb6795 root 8449 - [meta sequenceId=\"1\" sysUpTime=\"37\" \
         language=\"EN\"][origin ip=\"192.168.0.1\" software=\"test\"] i am foobar",
    ),
    (
        Variant::Either,
        "<13>1 2019-02-13T19:48:34+00:00 74794bfb6795 root 8449 - [meta sequenceId=\"1\" sysUpTime=\"37\" \
         language=\"EN\"][origin ip=\"192.168.0.1\" software=\"test\"] i am foobar\
         ¦<13>1 2019-02-13T19:48:34+00:00 74794bfb6795 root 8449 - [meta sequenceId=\"1\" sysUpTime=\"37\" \
         language=\"EN\"][origin ip=\"192.168.0.1\" software=\"test\"] i am foobar",
    ),
    (
        Variant::Either,
        "1 - - - - - [a b=\"x]y\"][c][d e=][f¦<47>1 - - - - - [a b=\"x]y\"][c] [f",
    ),
    (
        Variant::Either,
        "1 - - - - - [a b=\"c\"] x¦<47>1 - - - - - [a b=\"c\"] x",
    ),
    (
        Variant::Either,
        "<46>Jan  5 15:33:03 plertrood-ThinkPad-X220 rsyslogd:  [origin software=\"rsyslogd\" swVersion=\"8.32.0\"] \
         start\
         ¦<46> 2020-01-05T15:33:03+01:00 plertrood-ThinkPad-X220 rsyslogd: [origin software=\"rsyslogd\" \
         swVersion=\"8.32.0\"] start",
    ),
    (
        Variant::RFC3164,
        "- h a: [a b=\"c\"][d e=\"f\"][g¦<47> - h a: [a b=\"c\"][d e=\"f\"] [g",
    ),
];

/// Lines without elements.
const UNLISTED: [(Variant, &str); 14] = [
    (
        Variant::Either,
        "<34>1 2003-10-11T22:14:15.003Z mymachine.example.com su - ID47 - message\
         ¦<34>1 2003-10-11T22:14:15.003+00:00 mymachine.example.com su - ID47 - message",
    ),
    (
        Variant::Either,
        "1 - - - - - [a b=\"x]y\" ]z¦<47>1 - - - - - - y\" ]z",
    ),
    (Variant::Either, "<200>1 - - - - - -¦<40>1 - - - - - - "),
    (Variant::Either, "1 - h a +5 m - x¦<47>1 - h a 5 m - x"),
    (
        Variant::Either,
        "1 - h a 2147483648 m - x¦<47>1 - h a 2147483648 m - x",
    ),
    (
        Variant::Either,
        "<13>1 2019-02-13T19:48:34+00:00 74794bfb6795 root 8449 - [incorrect x] qwerty\
         ¦<13>1 2019-02-13T19:48:34+00:00 74794bfb6795 root 8449 - - qwerty",
    ),
    (
        Variant::Either,
        "<13>1 2019-02-13T19:48:34+00:00 74794bfb6795 root 8449 - [incorrect x=] qwerty\
         ¦<13>1 2019-02-13T19:48:34+00:00 74794bfb6795 root 8449 - - qwerty",
    ),
    (Variant::Either, "- h a: m¦<47> - h a: m"),
    (Variant::Either, "- h a: [abc] m¦<47> - h a: [abc] m"),
    (Variant::Either, "- h a: [a b=\"c¦<47> - h a: [a b=\"c"),
    (Variant::Either, "- h a: - m¦<47> - h a: m"),
    (
        Variant::Either,
        "Oct 25 02:30:00 h a: m¦<47> 2020-10-25T02:30:00+02:00 h a: m",
    ),
    (
        Variant::Either,
        "Oct 11 22:14:15 h a: m¦<47> 2020-10-11T22:14:15+02:00 h a: m",
    ),
    (
        Variant::Either,
        "<34>Dec 28 2008 16:49:07 h a[x]: m¦<34> 2008-12-28T16:49:07+01:00 h a[x]: m",
    ),
];

// How the message of each row prints.
fn check_rows(
    rt: &impl Abort,
    alloc: Global,
    rows: &[(Variant, &str)],
    call: Call,
    rule: &TimeZone<'_>,
    tries: Tries,
) {
    for (variant, row) in rows {
        let (text, printed) = cells(rt, row);
        let answer = match called(alloc, call, text, *variant, rule) {
            Err(ParseFault::Memory) if tries == Tries::Twice => {
                called(alloc, call, text, *variant, rule)
            }
            other => other,
        };
        match answer {
            Ok(message) => check(rt, prints(&message, printed), text),
            Err(_) => check(rt, false, text),
        }
    }
}

#[test]
fn answers_in_each_call_that_memory_was_refused(rt: HostRuntime) {
    let rule = summer_rule(&rt);
    for call in &CALLS {
        check_rows(&rt, rt.alloc(), &LISTED, *call, &rule, Tries::Twice);
    }
}

#[test]
fn sees_no_refusal_in_any_call(rt: HostRuntime) {
    let rule = summer_rule(&rt);
    for call in &CALLS {
        check_rows(&rt, rt.alloc(), &LISTED, *call, &rule, Tries::Once);
    }
}

/// Texts that do not parse.
const UNREADABLE: [&str; 7] = [
    "",
    "gobbledegook",
    "<256>1 - - - - - -",
    "1 - h: a 1 m - x",
    "1 - - - - - [a b=\"c",
    "1 - h: a 1 m [a b=\"c\"] x",
    "<34>Feb 30 10:00:00 h a: [a b=\"c\"] m",
];

// The exact calls return none, and the others the text itself.
fn check_unreadable(rt: &impl Abort, alloc: Global, call: Call, text: &str, rule: &TimeZone<'_>) {
    let is_exact = matches!(call, Call::Exact | Call::ExactInZone);
    match called(alloc, call, text, Variant::Either, rule) {
        Ok(message) => check(rt, !is_exact && message.msg == text, text),
        Err(fault) => check(rt, is_exact && fault == ParseFault::Invalid, text),
    }
}

#[test]
fn asks_for_no_memory_in_any_call_without_elements_or_a_reading(rt: HostRuntime) {
    let rule = summer_rule(&rt);
    for call in &CALLS {
        check_rows(&rt, rt.alloc(), &UNLISTED, *call, &rule, Tries::Once);
        for text in &UNREADABLE {
            check_unreadable(&rt, rt.alloc(), *call, text, &rule);
        }
    }
}

#[test]
fn asks_for_no_memory_to_tell_differences(rt: HostRuntime) {
    for (text, differs) in &[
        ("- h a: -5", true),
        ("Oct 11 22:14:15 h a: -5", true),
        ("- h a: - x", false),
        ("Oct 11 22:14:15 h a: [a b=\"c\"] -5", false),
        ("1 - - - - - [a b=\"c\"] -5", false),
        ("gobbledegook", false),
    ] {
        check_dash_change(&rt, rt.alloc(), text, Variant::Either, *differs);
    }
}
