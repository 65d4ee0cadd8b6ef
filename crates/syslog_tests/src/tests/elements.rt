//! Elements that tests build and print.
use std::alloc::{AllocError, Global};
use syslog_elements::structured_data::StructuredElement;
use syslog_text::as_str::AsStr;

/// The element of a line, built by hand: its id, then the name and the value of each parameter, with bars between.
pub(super) fn element_of<'a>(
    alloc: Global,
    line: &'a str,
) -> Result<StructuredElement<&'a str>, AllocError> {
    let mut texts = line.split('|');
    let id = texts.next().unwrap_or("");
    let mut params = Vec::new(alloc);
    while let Some(name) = texts.next() {
        params.push((name, texts.next().unwrap_or("")))?;
    }
    Ok(StructuredElement { id, params })
}

/// Whether it prints so.
pub(super) fn prints_as<S: AsStr>(
    alloc: Global,
    element: &StructuredElement<S>,
    want: &str,
) -> bool {
    match element.to_string(alloc) {
        Ok(printed) => printed.as_str() == want,
        Err(_) => false,
    }
}
