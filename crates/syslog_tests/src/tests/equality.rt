//! Worked elements that are equal, and that differ.
use super::checks::check;
use super::elements::element_of;
use super::rows::{answer_of, text_of};
use std::alloc::{AllocError, Global};
use std::process::Abort;

// The elements of the two lines are equal, or they differ.
fn compares_as(alloc: Global, one: &str, other: &str, equal: bool) -> bool {
    match (element_of(alloc, one), element_of(alloc, other)) {
        (Ok(a), Ok(b)) => (a == b) == equal && (b == a) == equal && a == a,
        _ => false,
    }
}

fn check_row(rt: &impl Abort, alloc: Global, row: &str, equal: bool) {
    let same = match answer_of(row) {
        Some(other) => compares_as(alloc, text_of(row), other, equal),
        None => false,
    };
    check(rt, same, row);
}

#[test]
fn ids_and_parameters_in_any_order(rt: HostRuntime) {
    // equal elements
    for row in &[
        "x¦x",
        "x|a|1|b|2¦x|b|2|a|1",
        "x|a|1|b|2|b|2|c|3¦x|a|1|c|3|b|2|b|2",
        "x|a|größe¦x|a|größe",
        "x|a|1¦x|a|1",
    ] {
        check_row(&rt, rt.alloc(), row, true);
    }
    // parameters and ids that differ
    for row in &[
        "x¦x|a|1",
        "x|a|1¦x|a|1|a|1",
        "x|a|1|a|1|b|2¦x|a|1|b|2|b|2",
        "x|a|1¦x|a|2",
        "x|a|1¦x|b|1",
        "x|a|1¦x|1|a",
        "x|ab|c¦x|a|bc",
        // The raw values are compared, escapes and all.
        "x|a|\\]¦x|a|]",
        "x|a|1¦y|a|1",
    ] {
        check_row(&rt, rt.alloc(), row, false);
    }
}

// The line of an element of many parameters, all of them alike but for the first and the last.
fn many(alloc: Global, count: usize, first: &str, last: &str) -> Result<String, AllocError> {
    let middle = "|a|1".repeat(alloc, count)?;
    format!(in alloc; "x|{first}|1{middle}|{last}|1")
}

type Line = Result<String, AllocError>;

fn check_lines(rt: &impl Abort, alloc: Global, one: &Line, other: &Line, equal: bool) {
    let same = match (one, other) {
        (Ok(one), Ok(other)) => compares_as(alloc, one.as_str(), other.as_str(), equal),
        _ => false,
    };
    check(rt, same, "many parameters");
}

#[test]
fn many_parameters(rt: HostRuntime) {
    let line = many(rt.alloc(), 20_000, "b", "c");
    check_lines(&rt, rt.alloc(), &line, &line, true);
    let line = many(rt.alloc(), 1_000, "b", "c");
    let other = many(rt.alloc(), 1_000, "c", "b");
    check_lines(&rt, rt.alloc(), &line, &other, true);
    let other = many(rt.alloc(), 1_000, "b", "b");
    check_lines(&rt, rt.alloc(), &line, &other, false);
    let other = many(rt.alloc(), 999, "b", "c");
    check_lines(&rt, rt.alloc(), &line, &other, false);
}
