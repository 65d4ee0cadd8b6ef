//! Lists that are recognised: their elements one after the other, and what a visitor is given.
use super::checks::check;
use super::pieces::are_elements;
use super::rows::{answer_of, is_text, left_of, text_of};
use std::alloc::{AllocError, Global};
use std::process::Abort;
use syslog_elements::structured_data::{
    Collect, Element, ElementList, ElementVisitor, NoNotes, StructuredElement, visit_forgiving_list,
};

// What the strict elements of the row's list print as.
fn printed_of(row: &str) -> &str {
    row.split('¦').nth(3).unwrap_or("")
}

fn are_collected(collected: Result<Vec<StructuredElement<&str>>, AllocError>, row: &str) -> bool {
    match collected {
        Ok(elements) => are_elements(&elements, answer_of(row).unwrap_or("")),
        Err(_) => false,
    }
}

// The element of a line: its id, then the name and the raw value of each parameter, with bars between.
fn is_element(element: &Element<'_>, line: &str) -> bool {
    let mut texts = line.split('|');
    if !is_text(texts.next(), element.id()) {
        return false;
    }
    for (name, value) in element.params() {
        if !is_text(texts.next(), name) || !is_text(texts.next(), value) {
            return false;
        }
    }
    texts.next().is_none()
}

// The elements of the lines, one after the other.
fn are_walked(list: &ElementList<'_>, lines: &str) -> bool {
    let mut lines = lines.lines();
    for element in list.elements() {
        if !is_element(&element, lines.next().unwrap_or("")) {
            return false;
        }
    }
    lines.next().is_none()
}

// The counts are those of the lines: a parameter has two bars.
fn are_counts(list: &ElementList<'_>, lines: &str) -> bool {
    let count = lines.lines().count();
    let params = lines.split('|').skip(1).count();
    list.len() == count && list.is_empty() == (count == 0) && list.params_len() == params / 2
}

fn prints_as(alloc: Global, list: &ElementList<'_>, want: &str) -> bool {
    match list.to_string(alloc) {
        Ok(printed) => printed.as_str() == want,
        Err(_) => false,
    }
}

// The list of a row, and what is left of the row's text.
fn check_list(rt: &impl Abort, alloc: Global, row: &str, list: &ElementList<'_>, rest: &str) {
    let lines = answer_of(row).unwrap_or("");
    check(rt, rest == left_of(row), row);
    check(rt, are_walked(list, lines), row);
    check(rt, are_counts(list, lines), row);
    check(rt, are_collected(list.collect(alloc), row), row);
    check(rt, prints_as(alloc, list, printed_of(row)), row);
    check(
        rt,
        is_text(text_of(row).strip_prefix(list.text()), rest),
        row,
    );
}

// A row is a text, the lines of the strict elements of the list at its front, what is left, and what the elements print
// as; or the text of no list.
#[test]
fn lists_of_rfc_5424(rt: HostRuntime) {
    for row in &[
        "- x¦¦ x¦-",
        "[a] x¦a¦ x¦[a]",
        "[a b=\"x\\\"]y\\]\"]z¦a|b|x\\\"]y\\]¦z¦[a b=\"x\\\"]y\\]\"]",
        // a blank after an equals sign, which prints without
        "[a b= \"c\"] x¦a|b|c¦ x¦[a b=\"c\"]",
        // broken elements are left out
        "[a][b c][d e=\"f\"] x¦a\nd|e|f¦ x¦[a][d e=\"f\"]",
        "[b c]x¦¦x¦-",
        "x",
        "",
        "[a b=\"c",
    ] {
        let mut collect = Collect::new(rt.alloc());
        match visit_forgiving_list(text_of(row), &mut collect) {
            Some((list, rest)) => check_list(&rt, rt.alloc(), row, &list, rest),
            None => check(&rt, answer_of(row).is_none(), row),
        }
        check(&rt, are_collected(collect.finish(), row), row);
    }
}

fn element_prints(alloc: Global, element: &Element<'_>, want: &str) -> bool {
    match element.to_string(alloc) {
        Ok(printed) => printed.as_str() == want,
        Err(_) => false,
    }
}

fn is_count(digits: &str, count: usize) -> bool {
    match digits.parse::<usize>() {
        Ok(want) => want == count,
        Err(_) => false,
    }
}

// Keeps the last element that it is given.
#[derive(Clone, Copy)]
struct Last<'a> {
    element: Option<Element<'a>>,
}

impl<'a> ElementVisitor<'a> for Last<'a> {
    ghost use Rattle.std.specs.Prelude.{⊤};

    type Notes = NoNotes;

    ghost was_given = { λ first visitor es. ⊤ };

    fn element(&mut self, element: Element<'a>, _: &NoNotes) {
        self.element = Some(element);
    }
}

// The second cell is the line of the last element, the third how many parameters it has, the fourth what it prints as.
#[test]
fn a_visitor_is_given_the_strict_elements(rt: HostRuntime) {
    for row in &[
        "[a][b c=\"d\" e=\"f\"] x¦b|c|d|e|f¦2¦[b c=\"d\" e=\"f\"]",
        "[a b= \"c\"][d e]¦a|b|c¦1¦[a b=\"c\"]",
        "[a][b ]¦b¦0¦[b]",
        "-",
    ] {
        let mut last = Last { element: None };
        let _ = visit_forgiving_list(text_of(row), &mut last);
        let same = match last.element {
            Some(element) => {
                is_element(&element, answer_of(row).unwrap_or(""))
                    && is_count(left_of(row), element.params_len())
                    && element_prints(rt.alloc(), &element, printed_of(row))
            }
            None => answer_of(row).is_none(),
        };
        check(&rt, same, row);
    }
}
