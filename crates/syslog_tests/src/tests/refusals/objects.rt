//! Refused memory where the object of a line is written.
use super::Tries;
use crate::tests::checks::{cells, check};
use jiff::tz::TimeZone;
use std::alloc::{AllocError, Global};
use std::process::Abort;
use syslog_loose::{IncompleteDate, Line, Variant, parse_line};
use syslog_object::line_object;

/// Lines with their objects: without elements and with one, with more, with many, and with ids and names that come
/// again.
const OBJECTS: [&str; 7] = [
    "<34>Oct 11 22:14:15 h app[3]: a \"b\"\
     ¦{\"protocol\":\"RFC3164\",\"facility\":\"auth\",\"facility_code\":4,\"severity\":\"crit\",\"severity_code\":2,\
     \"timestamp\":\"2019-10-11T22:14:15+00:00\",\"hostname\":\"h\",\"appname\":\"app\",\"procid\":\"3\",\
     \"message\":\"a \\\"b\\\"\"}",
    "1 - - - - - [a b=\"x\\]y\"] m\
     ¦{\"protocol\":\"RFC5424\",\"version\":1,\"structured_data\":{\"a\":{\"b\":\"x]y\"}},\"message\":\"m\"}",
    "1 - - - - - [a b=\"c\"][d] m\
     ¦{\"protocol\":\"RFC5424\",\"version\":1,\"structured_data\":{\"a\":{\"b\":\"c\"},\"d\":{}},\"message\":\"m\"}",
    "1 - - - - - [a b=\"c\" d=\"e\" b=\"f\" b=\"g\"] m\
     ¦{\"protocol\":\"RFC5424\",\"version\":1,\
     \"structured_data\":{\"a\":{\"b\":[\"c\",\"f\",\"g\"],\"d\":\"e\"}},\"message\":\"m\"}",
    "1 - - - - - [a b=\"c\"][d][a] m\
     ¦{\"protocol\":\"RFC5424\",\"version\":1,\
     \"structured_data\":{\"a\":[{\"b\":\"c\"},{}],\"d\":{}},\"message\":\"m\"}",
    "1 - - - - - [a 1=\"\" 2=\"\" 3=\"\" 4=\"\" 5=\"\" 6=\"\" 7=\"\" 8=\"\" 9=\"\" 10=\"\" 11=\"\" \
     12=\"\" 13=\"\" 14=\"\" 15=\"\" 16=\"\" 17=\"\"] m\
     ¦{\"protocol\":\"RFC5424\",\"version\":1,\"structured_data\":{\"a\":{\"1\":\"\",\"2\":\"\",\"3\":\"\",\"4\":\"\",\"5\":\"\",\
     \"6\":\"\",\"7\":\"\",\"8\":\"\",\"9\":\"\",\"10\":\"\",\"11\":\"\",\"12\":\"\",\
     \"13\":\"\",\"14\":\"\",\"15\":\"\",\"16\":\"\",\"17\":\"\"}},\"message\":\"m\"}",
    "1 - - - - - [1][2][3][4][5][6][7][8][9] m\
     ¦{\"protocol\":\"RFC5424\",\"version\":1,\"structured_data\":{\"1\":{},\"2\":{},\"3\":{},\"4\":{},\"5\":{},\
     \"6\":{},\"7\":{},\"8\":{},\"9\":{}},\"message\":\"m\"}",
];

fn object(alloc: Global, line: &Line<'_>) -> Result<Vec<u8>, AllocError> {
    line_object(alloc, Vec::new(alloc), line, None, None)
}

fn check_object(rt: &impl Abort, alloc: Global, row: &str, tries: Tries) {
    let (text, want) = cells(rt, row);
    let year = |_: IncompleteDate| 2019;
    let Some(line) = parse_line(text, year, None, Variant::Either, &TimeZone::UTC) else {
        return check(rt, false, text);
    };
    let answer = match object(alloc, &line) {
        Err(_) if tries == Tries::Twice => object(alloc, &line),
        other => other,
    };
    match answer {
        Ok(found) => check(rt, found.as_slice() == want.as_bytes(), text),
        Err(_) => check(rt, false, text),
    }
}

#[test]
fn answers_that_memory_was_refused_and_then_the_object(rt: HostRuntime) {
    for row in &OBJECTS {
        check_object(&rt, rt.alloc(), row, Tries::Twice);
    }
}

#[test]
fn sees_no_refusal_of_an_object(rt: HostRuntime) {
    for row in &OBJECTS {
        check_object(&rt, rt.alloc(), row, Tries::Once);
    }
}
