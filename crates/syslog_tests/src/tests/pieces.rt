//! Pieces as tests read them, and their comparison with rows.
use super::checks::check;
use super::rows::{answer_of, is_text, left_of};
use std::alloc::{AllocError, Global};
use std::process::Abort;
use syslog_elements::structured_data::rfc3164_list::DashRule;
use syslog_elements::structured_data::{
    Collect, StructuredElement, visit_forgiving_list, visit_rfc3164_list,
};
use syslog_pieces::procid::ProcId;
use syslog_text::as_str::AsStr;

pub(super) type List<'a> = Option<(Vec<StructuredElement<&'a str>>, &'a str)>;

/// The list at the front, collected while it is read, and the rest.
pub(super) fn forgiving_list<'a>(alloc: Global, text: &'a str) -> Result<List<'a>, AllocError> {
    let mut collect = Collect::new(alloc);
    let Some((_, rest)) = visit_forgiving_list(text, &mut collect) else {
        return Ok(None);
    };
    let elements = collect.finish()?;
    Ok(Some((elements, rest)))
}

fn is_param<S: AsStr>(
    name: &S,
    value: &str,
    want_name: Option<&str>,
    want_value: Option<&str>,
) -> bool {
    is_text(want_name, name.as_str()) && is_text(want_value, value)
}

/// The element of a line: its id, then the name and the raw value of each parameter, with bars between.
pub(super) fn is_element<S: AsStr>(element: &StructuredElement<S>, line: &str) -> bool {
    let mut texts = line.split('|');
    if !is_text(texts.next(), element.id.as_str()) {
        return false;
    }
    for (name, value) in &element.params {
        if !is_param(name, value.as_str(), texts.next(), texts.next()) {
            return false;
        }
    }
    texts.next().is_none()
}

/// The elements of the lines.
pub(super) fn are_elements(elements: &[StructuredElement<&str>], lines: &str) -> bool {
    let mut lines = lines.lines();
    for element in elements {
        if !is_element(element, lines.next().unwrap_or("")) {
            return false;
        }
    }
    lines.next().is_none()
}

/// A row is a text, the lines of the elements of the list at its front, and what is left; or the text of no list.
pub(super) fn check_read_list(rt: &impl Abort, row: &str, read: Result<List<'_>, AllocError>) {
    let same = match (read, answer_of(row)) {
        (Ok(Some((elements, rest))), Some(lines)) => {
            are_elements(&elements, lines) && rest == left_of(row)
        }
        (Ok(None), None) => true,
        _ => false,
    };
    check(rt, same, row);
}

/// The one element of a list.
pub(super) fn only<'a, 'e>(
    read: &'e Result<List<'a>, AllocError>,
) -> Option<&'e StructuredElement<&'a str>> {
    match read {
        Ok(Some((elements, _))) if elements.len() == 1 => elements.first(),
        _ => None,
    }
}

pub(super) fn is_item<S: AsStr>(
    item: &Result<(&S, String), AllocError>,
    want: Option<&str>,
    plain: Option<&str>,
) -> bool {
    match item {
        Ok((name, value)) => is_param(*name, value.as_str(), want, plain),
        Err(_) => false,
    }
}

pub(super) type OptionalList<'a> = (Option<Vec<StructuredElement<&'a str>>>, &'a str);

/// The list at the front where there is one, collected while it is read, and the rest.
pub(super) fn optional_list<'a>(
    alloc: Global,
    text: &'a str,
    rule: DashRule,
) -> Result<OptionalList<'a>, AllocError> {
    let mut collect = Collect::new(alloc);
    let (list, rest) = visit_rfc3164_list(text, rule, &mut collect);
    let elements = collect.finish()?;
    if list.text().is_empty() {
        return Ok((None, rest));
    }
    Ok((Some(elements), rest))
}

/// A row is a text, the lines of the elements of the list at its front, and what is left; or the text of no list, which
/// stays whole.
pub(super) fn check_read_optional(
    rt: &impl Abort,
    row: &str,
    read: Result<OptionalList<'_>, AllocError>,
) {
    let same = match (&read, answer_of(row)) {
        (Ok((Some(elements), rest)), Some(lines)) => {
            are_elements(elements, lines) && *rest == left_of(row)
        }
        (Ok((None, rest)), None) => *rest == row,
        _ => false,
    };
    check(rt, same, row);
}

pub(super) fn is_name<S: AsStr>(procid: &ProcId<S>, want: &str) -> bool {
    match procid {
        ProcId::PID(_) => false,
        ProcId::Name(name) => name.as_str() == want,
    }
}

pub(super) fn has_equal_copy(alloc: Global, procid: &ProcId<&str>) -> bool {
    match procid.try_clone(alloc) {
        Ok(copy) => copy == *procid,
        Err(_) => false,
    }
}
