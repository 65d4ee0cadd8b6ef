//! What the tests assert. Each assertion is here once, since the message of each is proved too.
use jiff::tz::TimeZone;
use std::alloc::Global;
use std::fmt;
use std::fmt::Write;
use std::process::Abort;
use syslog_loose::{IncompleteDate, ParseFault, Variant, reads_differently};

/// The row is as it should be.
pub(super) fn check(rt: &impl Abort, holds: bool, row: &str) {
    assert!(rt; holds, "{row:?}");
}

/// What came of the row is this text.
pub(super) fn check_same(rt: &impl Abort, found: &str, want: &str, row: &str) {
    assert!(rt; found == want, "{row}: {found}");
}

/// The result for the row is this text, or this fault.
pub(super) fn check_answer(
    rt: &impl Abort,
    answer: Result<String, ParseFault>,
    want: Result<&str, ParseFault>,
    row: &str,
) {
    match (answer, want) {
        (Ok(found), Ok(text)) => check_same(rt, found.as_str(), text, row),
        (Err(found), Err(fault)) => check(rt, found == fault, row),
        _ => check(rt, false, row),
    }
}

/// The first cell of a row, and those after it.
pub(super) fn cells<'a>(rt: &impl Abort, row: &'a str) -> (&'a str, &'a str) {
    row.split_once('¦').expect(rt, row)
}

/// Compares what is written with a text, and takes no memory.
#[derive(Drop)]
struct Comparison<'a> {
    rest: &'a str,
    differs: bool,
}

impl fmt::Write for Comparison<'_> {
    fn write_str(&mut self, text: &str) -> fmt::Result {
        match self.rest.strip_prefix(text) {
            Some(rest) => self.rest = rest,
            None => self.differs = true,
        }
        Ok(())
    }
}

/// Whether it prints as this text.
pub(super) fn prints<D: fmt::Display>(it: &D, want: &str) -> bool {
    let mut comparison = Comparison {
        rest: want,
        differs: false,
    };
    let written = write!(comparison, "{it}");
    written.is_ok() && !comparison.differs && comparison.rest.is_empty()
}

/// Whether the text is read differently, in 2019 where a date shows no year.
pub(super) fn check_dash_change(
    rt: &impl Abort,
    alloc: Global,
    text: &str,
    variant: Variant,
    want: bool,
) {
    let year = |_: IncompleteDate| 2019;
    let changed = reads_differently(alloc, text, year, None, variant, &TimeZone::UTC).expect(
        rt, text,
    );
    check(rt, changed == want, text);
}

/// Whether the one comes before the other, and is not equal to it.
pub(super) fn comes_before<T: Ord>(one: &T, other: &T) -> bool {
    *one < *other && *one != *other
}
