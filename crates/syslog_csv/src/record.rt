//! Records of CSV: fields, with a comma between each two.
ghost use Rattle.std.specs.Prelude.{◌≡◌, ◌<◌, ◌++◌, ◌∷◌, [], MatchOption, OnOk, length};
ghost use Rattle.std.specs.List.{list_any};
ghost use Rattle.syslog_csv.specs.Records.{AddsFields, doubled, field_text, is_mark, quoted};

use memchr::memchr;
use std::alloc::AllocError;

/// Appends a field after others.
pub(crate) fn push_later(output: &mut Vec<u8>, field: &[u8]) -> Result<(), AllocError>
    ensures { OnOk result (AddsFields output.old.items output.new.items (field.now ∷ [])) }
{
    output.push(b',')?;
    push_field(output, field)?;
    Ok(())
}

/// Appends a field, between quotes if it has a quote, a comma, CR or LF.
pub(crate) fn push_field(output: &mut Vec<u8>, field: &[u8]) -> Result<(), AllocError>
    ensures { OnOk result (output.new.items ≡ output.old.items ++ field_text field.now) }
{
    if has_mark(field) {
        return push_quoted(output, field);
    }
    output.extend_from_slice(field)
}

// Whether the field has a quote, a comma, CR or LF.
fn has_mark(field: &[u8]) -> bool
    ensures { result ≡ list_any is_mark field.now }
{
    field.iter().any(|byte| *byte == b'"' || *byte == b',' || *byte == b'\r' || *byte == b'\n')
}

// Appends a field between quotes, with each of its own quotes doubled.
fn push_quoted(output: &mut Vec<u8>, field: &[u8]) -> Result<(), AllocError>
    ensures { OnOk result (output.new.items ≡ output.old.items ++ quoted field.now) }
{
    output.push(b'"')?;
    let mut rest = field;
    'quotes: while let Some((front, after)) = split_quote(rest) {
        output.extend_from_slice(front)?;
        output.push(b'"')?;
        rest = after;
    }
    output.extend_from_slice(rest)?;
    output.push(b'"')?;
    Ok(())
}

// Returns the text up to and with its first quote, and what follows; none if it has no quote.
fn split_quote(text: &[u8]) -> Option<(&[u8], &[u8])>
    ensures { MatchOption result (doubled text.now ≡ text.now)
        (λ parts. (doubled text.now ≡ parts.0.now ++ (34 ∷ doubled parts.1.now))
        × (length parts.1.now < length text.now)) }
{
    match memchr(b'"', text) {
        Some(at) => Some(text.split_at(at + 1)),
        None => None,
    }
}
