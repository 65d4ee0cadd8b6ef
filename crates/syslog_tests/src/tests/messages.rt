//! Messages, compared and copied.
use super::checks::{check, prints};
use super::reading::read;
use std::alloc::Global;
use std::process::Abort;
use syslog_loose::{
    AsStr, IncompleteDate, Message, Offset, OffsetTimestamp, ProcId, Protocol, SyslogFacility,
    SyslogSeverity, TimeZone, Timestamp, Variant, parse_message_with_year_exact,
};

const FULL: &str = "<34>1 2003-10-11T22:14:15.003Z mymachine.example.com su - ID47 - message";

/// The milliseconds from 1970 to 2020.
const IN_2020: i64 = 1_577_836_800_000;

/// This many milliseconds after 1970 began, shown at this offset in seconds.
fn stamp(rt: &impl Abort, milliseconds: i64, offset: i32) -> Option<OffsetTimestamp> {
    Some(OffsetTimestamp {
        instant: Timestamp::from_millisecond(milliseconds).expect(rt, "no instant"),
        offset: Offset::from_seconds(offset).expect(rt, "no offset"),
    })
}

// The full message, with this change.
fn changed(rt: &impl Abort, alloc: Global, change: &str) -> Message<&'static str> {
    let mut message = read(alloc, FULL, Variant::Either).expect(rt, FULL);
    match change {
        "none" => (),
        "RFC 3164" => message.protocol = Protocol::RFC3164,
        "version 2" => message.protocol = Protocol::RFC5424(2),
        "other facility" => message.facility = Some(SyslogFacility::LOG_AUTHPRIV),
        "no facility" => message.facility = None,
        "other severity" => message.severity = Some(SyslogSeverity::SEV_ERR),
        "no severity" => message.severity = None,
        "other timestamp" => message.timestamp = stamp(rt, 1_065_910_455_000, 0),
        "no timestamp" => message.timestamp = None,
        "in 2020" => message.timestamp = stamp(rt, IN_2020, 0),
        "an hour ahead" => message.timestamp = stamp(rt, IN_2020, 3600),
        "a second later" => message.timestamp = stamp(rt, IN_2020 + 1000, 0),
        "other host" => message.hostname = Some("mymachine"),
        "no app" => message.appname = None,
        "empty app" => message.appname = Some(""),
        "process" => message.procid = Some(ProcId::PID(5)),
        "other id" => message.msgid = Some("ID4"),
        "empty msg" => message.msg = "",
        _ => check(rt, false, change),
    }
    message
}

// Compares them in either order, by both operators.
fn compare_as(one: &Message<&str>, other: &Message<&str>, equal: bool) -> bool {
    let same = one == other && other == one;
    let differs = one != other && other != one;
    same == equal && differs != equal && other == other
}

#[test]
fn compares_each_field_but_the_protocol(rt: HostRuntime) {
    for (one, other, equal) in &[
        ("none", "RFC 3164", true),
        ("none", "version 2", true),
        // Timestamps are compared by instant.
        ("in 2020", "an hour ahead", true),
        ("in 2020", "a second later", false),
        // Each other field.
        ("none", "other facility", false),
        ("none", "no facility", false),
        ("none", "other severity", false),
        ("none", "no severity", false),
        ("none", "other timestamp", false),
        ("none", "no timestamp", false),
        ("none", "other host", false),
        ("none", "no app", false),
        ("none", "empty app", false),
        ("none", "process", false),
        ("none", "other id", false),
        ("none", "empty msg", false),
    ] {
        let one = changed(&rt, rt.alloc(), one);
        let same = compare_as(&one, &changed(&rt, rt.alloc(), other), *equal);
        check(&rt, same, other);
    }
    for change in &["RFC 3164", "version 2"] {
        let other = changed(&rt, rt.alloc(), change).protocol;
        check(&rt, other != Protocol::RFC5424(1), change);
    }
}

/// Pairs of texts, and whether their messages are equal. Letters of a month, a broken element and white space at the
/// ends make no difference; the order of elements does, and that of parameters does not.
const PAIRS: [(&str, &str, bool); 8] = [
    (
        "<34>Oct 11 22:14:15 : a message",
        "<34>OCT 11 22:14:15 : a message",
        true,
    ),
    (
        "<13>1 2019-02-13T19:48:34+00:00 74794bfb6795 root 8449 - [incorrect x] qwerty",
        "<13>1 2019-02-13T19:48:34+00:00 74794bfb6795 root 8449 - [incorrect x=] qwerty",
        true,
    ),
    ("1 - - - - - -", "\n\u{a0}1 - - - - - -\u{3000}", true),
    (
        "1 - - - - - [x][x a=\"1\"]",
        "1 - - - - - [x][x a=\"1\"]",
        true,
    ),
    (
        "1 - - - - - [x][x a=\"1\" b=\"2\"]",
        "1 - - - - - [x][x b=\"2\" a=\"1\"]",
        true,
    ),
    (
        "1 - - - - - [x][x a=\"1\"]",
        "1 - - - - - [x a=\"1\"][x]",
        false,
    ),
    ("1 - - - - - [x][x a=\"1\"]", "1 - - - - - [x][x]", false),
    ("1 - - - - - [x][x a=\"1\"]", "1 - - - - - -", false),
];

// Without a given zone, in 2019 where a date shows no year.
fn read_locally<'a>(rt: &impl Abort, alloc: Global, text: &'a str) -> Message<&'a str> {
    let year = |_: IncompleteDate| 2019;
    parse_message_with_year_exact(alloc, text, year, Variant::Either, &TimeZone::UTC).expect(
        rt, text,
    )
}

#[test]
fn reads_equal_messages_and_others(rt: HostRuntime) {
    for (text, other, equal) in &PAIRS {
        let one = read_locally(&rt, rt.alloc(), text);
        let two = read_locally(&rt, rt.alloc(), other);
        check(&rt, compare_as(&one, &two, *equal), other);
    }
}

fn number<S: AsStr>(message: &Message<S>) -> Option<i32> {
    match &message.procid {
        Some(ProcId::PID(number)) => Some(*number),
        _ => None,
    }
}

// The owned message has the protocol and the number of the other, and prints so; a copy is equal and prints so too.
fn check_owned(rt: &impl Abort, alloc: Global, message: &Message<&str>, printed: &str) {
    let owned = message.to_owned_text(alloc).expect(rt, printed);
    let same = owned.protocol == message.protocol && number(&owned) == number(message);
    check(rt, same && prints(&owned, printed), printed);
    let again = owned.try_clone(alloc).expect(rt, printed);
    check(rt, again == owned && prints(&again, printed), printed);
}

/// Texts that print as they are, after the date of one: parameters and elements keep their order, and an app name that
/// is empty stays so.
#[test]
fn copies_messages(rt: HostRuntime) {
    for (text, printed) in &[
        (
            "<34>7 2019-12-31T23:00:00-01:00 h su x:y ID47 [x b=\"2\" a=\"1\"][x] message",
            "<34>7 2019-12-31T23:00:00-01:00 h su x:y ID47 [x b=\"2\" a=\"1\"][x] message",
        ),
        (
            "<34>Oct 11 22:14:15 host [323]: hi",
            "<34> 2019-10-11T22:14:15+00:00 host [323]: hi",
        ),
    ] {
        let message = read(rt.alloc(), text, Variant::Either).expect(&rt, text);
        let copy = message.try_clone(rt.alloc()).expect(&rt, text);
        let same = copy == message && copy.protocol == message.protocol;
        check(&rt, same && prints(&copy, printed), text);
        check_owned(&rt, rt.alloc(), &message, printed);
    }
}
