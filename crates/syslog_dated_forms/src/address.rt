//! Addresses of IPv6 as the names of hosts: a colon ends no address, so they are read apart from other names.
ghost use Rattle.std.specs.Prelude.{◌≡◌, chars};
ghost use Rattle.syslog_text.specs.Pieces.View.{Reads, shown};
ghost use Rattle.syslog_dated_forms.specs.Address as spec;

use syslog_text::text::{first, host};

fn is_hex(c: char) -> bool
    ensures { result ≡ spec.is_hex c }
{
    c.is_ascii_digit() || (('A' <= c && c <= 'F') || ('a' <= c && c <= 'f'))
}

// Whether an address may begin the text. Few names of hosts begin so, and the others need no further look.
fn may_begin(text: &str) -> bool
    ensures { result ≡ spec.may_begin (chars text.now) }
{
    let mut rest = text;
    'characters: while let Some((c, more)) = first(rest) {
        if c == ':' {
            return true;
        }
        if !is_hex(c) {
            return false;
        }
        rest = more;
    }
    false
}

fn is_address_char(c: char) -> bool
    ensures { result ≡ spec.is_address_char c }
{
    c == ':' || is_hex(c)
}

// Whether the text has only hexadecimal digits and colons.
fn are_address_chars(text: &str) -> bool
    ensures { result ≡ spec.are_address_chars (chars text.now) }
{
    let mut rest = text;
    'characters: while let Some((c, more)) = first(rest) {
        if !is_address_char(c) {
            return false;
        }
        rest = more;
    }
    true
}

fn begins_colon(text: &str) -> bool
    ensures { result ≡ spec.begins_colon (chars text.now) }
{
    match first(text) {
        Some((c, _)) => c == ':',
        None => false,
    }
}

/// Returns whether two colons in a row are in the text.
pub(crate) fn has_pair(text: &str) -> bool
    ensures { result ≡ spec.has_pair (chars text.now) }
{
    let mut rest = text;
    'characters: while let Some((c, more)) = first(rest) {
        if c == ':' && begins_colon(more) {
            return true;
        }
        rest = more;
    }
    false
}

fn is_address(word: &str) -> bool
    ensures { result ≡ spec.is_address (chars word.now) }
{
    are_address_chars(word) && has_pair(word)
}

/// Returns the host at the front if it is an address of IPv6 with `::`, and the text after it.
pub(crate) fn address(text: &str) -> Option<(&str, &str)>
    ensures { Reads spec.address (λ word. shown word) (chars text.now) result }
{
    if !may_begin(text) {
        return None;
    }
    let (name, rest) = host(text)?;
    let word = name?;
    if !is_address(word) {
        return None;
    }
    Some((word, rest))
}
