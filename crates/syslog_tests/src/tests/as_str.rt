//! A text, as a generic caller may use it.
use super::checks::{check, comes_before};
use syslog_text::as_str::AsStr;

// What a generic caller may use: the text, the equality and the order.
fn has_text<S: AsStr>(one: &S, want: &str) -> bool {
    one.as_str() == want
}

// The texts are `Zork` and `größe`.
fn are_texts<S: AsStr>(zork: &S, size: &S) -> bool {
    has_text(zork, "Zork") && has_text(size, "größe") && zork.as_str().len() < size.as_str().len()
}

fn are_in_order<S: AsStr>(zork: &S, size: &S) -> bool {
    comes_before(zork, size) && !comes_before(size, zork) && !comes_before(zork, zork)
}

#[test]
fn a_slice_is_a_text(rt: HostRuntime) {
    let (zork, size) = ("Zork", "größe");
    check(&rt, has_text(&"", ""), "empty");
    check(&rt, are_texts(&zork, &size), "texts");
    check(&rt, are_in_order(&zork, &size), "order");
}

#[test]
fn a_string_is_a_text(rt: HostRuntime) {
    let zork = String::from_str(rt.alloc(), "Zork").expect(&rt, "no memory");
    let size = String::from_str(rt.alloc(), "größe").expect(&rt, "no memory");
    check(&rt, are_texts(&zork, &size), "texts");
    check(&rt, are_in_order(&zork, &size), "order");
}
