//! Which lines are in printed form after their timestamp, so that this is copied where they are printed.
use super::checks::check;
use jiff::tz::TimeZone;
use std::process::Abort;
use syslog_loose::{IncompleteDate, Variant, parse_line};

// Whether all after the timestamp of the line is in printed form; nothing where the text is no line.
fn is_printed(text: &str, variant: Variant) -> Option<bool> {
    let utc = TimeZone::UTC;
    let year = |_: IncompleteDate| 2019;
    match parse_line(text, year, Some(&utc), variant, &utc) {
        Some(line) => Some(line.is_printed),
        None => None,
    }
}

/// Lines of RFC 5424 that are copied after their timestamp.
const COPIED: [&str; 17] = [
    "<34>1 2003-10-11T22:14:15.003Z mymachine.example.com su - ID47 - message",
    "<13>1 2019-02-13T19:48:34+00:00 74794bfb6795 root 8449 - [meta sequenceId=\"1\" sysUpTime=\"37\" language=\"EN\"][origin ip=\"192.168.0.1\" software=\"test\"] i am foobar",
    "<0>0 - - - 0 - - x",
    "<191>4294967295 - - - - - [id][a b=\"x\\\"]y\" c d=\"\"] -",
    "<34>1 - - - - - - ü",
    "<34>1 2024-02-29T23:59:59.123456789+23:59 - - - - - x",
    "<34>1 0000-01-01T00:00:00.100-23:59 - - - - - x",
    "<34>1 9998-12-31T23:59:59.000001Z - - - - - x",
    "<34>1 9999-01-01T00:00:00Z - - - - - x",
    "1 - - - - - - x",
    "<200>1 - - - - - - x",
    "<034>1 - - - - - - x",
    "<34>01 - - - - - - x",
    "<34>1  - - - - - - x",
    "<34>1 - - - -5 - - x",
    "<34>1 - - - 0x1f - - x",
    "<34>1 - - - +a - - x",
];

/// Others: no message part, wide gaps, broken elements, and process ids that print otherwise.
const OTHERS: [&str; 34] = [
    "<75>1 1969-12-03T23:58:58+00:00 - - - - -",
    "1 - - - - - -",
    "<200>1 - - - - - -",
    "<034>1 - - - - - -",
    "<34>01 - - - - - -",
    "<34>1  - - - - - -",
    "<191>4294967295 - - - - - [id][a b=\"x\\\"]y\" c d=\"\"]-",
    "<34>1 - - - - - [a b=\"c\"][d e] x",
    "<34>1 2020-01-01T00:00:00Z h a - - [a][b][]x",
    "<34>1 - - - - - [a b=\"]\"][c d=\"]\" ]  x",
    "<34>1 -  - - - - - x",
    "<34>1 2020-01-01T00:00:00Z host \tapp 5 - - x",
    "<34>1 - - -  - - -",
    "<34>1 - - - -   - - x",
    "<34>1 - - - - -  -",
    "<34>1 - -\t- - - -",
    "<34>1 -\t- - - - - x",
    "<34>1 -  -  - - - - x",
    "<34>1 - - - -  - [a][b c] x",
    "<34>1 - - - +5 - -",
    "<34>1 - - - -5 - -",
    "<34>1 - - - 05 - -",
    "<34>1 - - - +5 - - x",
    "<34>1 - - - 05 - - x",
    "<34>1 - - - -05 - - x",
    "<34>1 - - - -0 - - x",
    "<34>1 - - - - - [a ] x",
    "<34>1 - - - - - [a  b=\"c\"] x",
    "<34>1 - - - - - [a b= \"c\"] x",
    "<34>1 - - - - - [a b][c] x",
    "<34>1 - - - - - [a][b c][d] x",
    "<34>1 - - - - - [a][b c][d e] x",
    "<34>1 - - - - - [a][b  c=\"d\"] x",
    "<34>1 - - - - - [a][b c=\"d\" x",
];

/// Lines of RFC 3164: all after the dash is copied.
const LOOSE_COPIED: [&str; 10] = [
    "- mymachine su: 'su root' failed for lonvick on /dev/pts/8",
    "- 10.0.0.99 app[5]: Use the BFG!",
    "- - a[0]: -x",
    "- h [7]: y",
    "- h a: ü",
    "- h a[99999999999]: x",
    "- h a[b]: x",
    "- h a[-5]: x",
    "- h a[]: x",
    "- h a[5]b: -x",
];

/// Others: wide gaps, a host or a tag in another form, lists, and names that are missing.
const LOOSE_OTHERS: [&str; 17] = [
    "-  h a: x",
    "- h  a: x",
    "-\th a: x",
    "- h: a: x",
    "- h a:x",
    "- h a:  x",
    "- h a:\tx",
    "- h a : x",
    "- h a x",
    "- h a[05]: x",
    "- h a[+5]: x",
    "- h -: x",
    "- h : x",
    "- h a: - x",
    "- h a: [x y=\"z\"] m",
    "- h",
    "-",
];

fn check_lines(rt: &impl Abort, variant: Variant, lines: &[&str], copied: bool) {
    for text in lines {
        check(rt, is_printed(text, variant) == Some(copied), text);
    }
}

#[test]
fn copies_lines_in_printed_form(rt: HostRuntime) {
    check_lines(&rt, Variant::RFC5424, &COPIED, true);
    check_lines(&rt, Variant::RFC5424, &OTHERS, false);
    check_lines(&rt, Variant::RFC3164, &LOOSE_COPIED, true);
    check_lines(&rt, Variant::RFC3164, &LOOSE_OTHERS, false);
}
