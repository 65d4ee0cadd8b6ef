//! Each call of a parsed line, once.
use super::checks::{check, prints};
use super::rows::is_text;
use jiff::tz::TimeZone;
use std::alloc::Global;
use std::process::Abort;
use syslog_loose::{
    Element, IncompleteDate, Line, ProcId, Protocol, SyslogFacility, SyslogSeverity, Variant,
    parse_line,
};

/// A line of each protocol.
const LOOSE: &str = "<34>2020-10-11T22:14:15.00Z mymachine app[323]: a message";

const STANDARD: &str =
    "<13>1 2019-02-13T19:48:34+00:00 74794bfb6795 root 8449 - [meta sequenceId=\"1\" sysUpTime=\"37\" language=\"EN\"][origin ip=\"192.168.0.1\" software=\"test\"] i am foobar";

/// The line of the text, with UTC as both zones, in 2019 where a date shows no year.
fn parsed(text: &str) -> Option<Line<'_>> {
    let utc = TimeZone::UTC;
    parse_line(
        text,
        |_: IncompleteDate| 2019,
        Some(&utc),
        Variant::Either,
        &utc,
    )
}

fn check_header(rt: &impl Abort, line: &Line<'_>) {
    check(
        rt,
        matches!(line.protocol(), Protocol::RFC3164),
        "the protocol",
    );
    check(
        rt,
        matches!(line.facility(), Some(SyslogFacility::LOG_AUTH)),
        "the facility",
    );
    check(
        rt,
        matches!(line.severity(), Some(SyslogSeverity::SEV_CRIT)),
        "the severity",
    );
    check(
        rt,
        matches!(line.process(), Some(ProcId::PID(323))),
        "the process id",
    );
    let second = match line.instant() {
        Some(stamp) => stamp.instant.as_second(),
        None => 0,
    };
    check(rt, second == 1_602_454_455, "the instant");
    check(
        rt,
        prints(
            line,
            "<34> 2020-10-11T22:14:15+00:00 mymachine app[323]: a message",
        ),
        LOOSE,
    );
}

#[test]
fn says_what_a_header_means(rt: HostRuntime) {
    match parsed(LOOSE) {
        Some(line) => check_header(&rt, &line),
        None => check(&rt, false, LOOSE),
    }
    check(&rt, parsed("gobbledegook").is_none(), "no line");
}

/// The elements of that line: an id, then names and values, with bars between.
const ELEMENTS: &str =
    "meta|sequenceId|1|sysUpTime|37|language|EN\norigin|ip|192.168.0.1|software|test";

// The element of a line of those.
fn is_element(element: &Element<'_>, line: &str) -> bool {
    let mut texts = line.split('|');
    if !is_text(texts.next(), element.id()) {
        return false;
    }
    for (name, value) in element.params() {
        if !is_text(texts.next(), name) || !is_text(texts.next(), value) {
            return false;
        }
    }
    texts.next().is_none()
}

fn check_elements(rt: &impl Abort, alloc: Global, line: &Line<'_>) {
    let is_whole = line.list.len() == 2 && line.list.params_len() == 5;
    check(rt, is_whole, STANDARD);
    let mut lines = ELEMENTS.lines();
    for element in line.elements() {
        check(
            rt,
            is_element(&element, lines.next().unwrap_or("")),
            STANDARD,
        );
    }
    check(rt, lines.next().is_none(), STANDARD);
    let message = line.message(alloc).expect(rt, STANDARD);
    check(rt, message.structured_data.len() == 2, STANDARD);
}

#[test]
fn walks_over_elements(rt: HostRuntime) {
    match parsed(STANDARD) {
        Some(line) => check_elements(&rt, rt.alloc(), &line),
        None => check(&rt, false, STANDARD),
    }
}

fn is_canonical(line: &Line<'_>) -> bool {
    line.is_canonical()
}

/// Lines that are read back from print, and others: of these two have no facility, one is read as another message.
#[test]
fn says_which_lines_are_canonical(rt: HostRuntime) {
    for (text, want) in &[
        (LOOSE, true),
        (STANDARD, true),
        ("<54> 1970-01-01T00:01:31+00:00 host :", true),
        (
            "<190>2019-02-13T21:53:30.605850+00:00 74794bfb6795 liblogging-stdlog:  [origin software=\"rsyslogd\"] start",
            true,
        ),
        (
            "1 2020-05-22T14:59:09.250-03:00 OX-XXX-MX204 OX-XXX-CONTEUDO:rpd 6589 - - bgp_listen_accept",
            false,
        ),
        ("<200>1 - - - - - -", false),
        ("<34>- app[x:y]: hi", false),
    ] {
        match parsed(text) {
            Some(line) => check(&rt, is_canonical(&line) == *want, text),
            None => check(&rt, false, text),
        }
    }
}
