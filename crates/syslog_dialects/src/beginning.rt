//! How a text of a dialect may begin. Of most other texts only three characters are looked at, so that a line that does
//! not parse costs little more than without dialects.
ghost use Rattle.std.specs.Prelude.{◌≡◌, ◌↔◌, IsTrue, chars};
ghost use Rattle.syslog_dialects.specs.SentReading as spec;

use syslog_text::text::{first, trimmed};

#[inline(always)]
fn is_capital(c: char) -> bool
    ensures { result ≡ spec.is_capital c }
{
    'A' <= c && c <= 'Z'
}

#[inline(always)]
fn is_mark(c: char) -> bool
    ensures { result ≡ spec.is_mark c }
{
    c == '%' || (c == '*' || (c == '.' || (c == ':' || c == '[')))
}

// Whether a priority, a date, a counter, a mark or a name of the dialects may begin with this character.
#[inline(always)]
fn begins(c: char) -> bool
    ensures { result ≡ spec.begins c }
{
    (is_mark(c) || (c.is_ascii_digit() || c == '<'))
        || (is_capital(c) || (c == 'd' || (c == 'i' || c == 't')))
}

fn is_gap_or_digit(c: char) -> bool
    ensures { result ≡ spec.is_gap_or_digit c }
{
    c <= ' ' || c.is_ascii_digit()
}

// Whether these two characters may follow a digit at the front.
fn follow_digit(d: char, e: char) -> bool
    ensures { result ≡ spec.follows_digit d e }
{
    ((d.is_ascii_digit() && (e.is_ascii_digit() || (e == '/' || e == ':')))
        || (d <= ' ' && is_gap_or_digit(e)))
        || ((d == ':' && e <= ' ') || (d == '/' && (e.is_ascii_digit() || is_capital(e))))
}

// Whether these two characters may follow a mark at the front.
fn follow_mark(d: char, e: char) -> bool
    ensures { result ≡ spec.follows_mark d e }
{
    (d <= ' ' && (is_gap_or_digit(e) || (is_capital(e) || is_mark(e))))
        || ((d.is_ascii_digit() && (e.is_ascii_digit() || (e == '.' || e == ':')))
            || (is_capital(d) && e.is_ascii_alphabetic()))
}

// Whether a priority or a name may begin with these three characters.
fn begin_otherwise(c: char, d: char, e: char) -> bool
    ensures { result ≡ spec.begins_otherwise c d e }
{
    (c == '<' && (d.is_ascii_digit() && (e.is_ascii_digit() || e == '>')))
        || (is_capital(c) && (d.is_ascii_alphabetic() && (e.is_ascii_alphabetic() || e == '/')))
}

// Whether one of the keys with which a line of pairs begins may begin with these three characters.
fn begins_key(c: char, d: char, e: char) -> bool
    ensures { result ≡ spec.begins_key c d e }
{
    (c == 'd' && ((d == 'a' && e == 't') || (d == 'e' && e == 'v')))
        || ((c == 'i' && (d == 'd' && e == '=')) || (c == 't' && (d == 'i' && e == 'm')))
}

fn begin_so(c: char, d: char, e: char) -> bool
    ensures { result ≡ spec.begin_so c d e }
{
    ((c.is_ascii_digit() && follow_digit(d, e)) || (is_mark(c) && follow_mark(d, e)))
        || (begin_otherwise(c, d, e) || begins_key(c, d, e))
}

// Whether this text may follow the first character `c`.
fn goes_on(c: char, text: &str) -> bool
    ensures { IsTrue result ↔ spec.GoesOn c (chars text.now) }
{
    let Some((d, more)) = first(text) else {
        return false;
    };
    match first(more) {
        Some((e, _)) => begin_so(c, d, e),
        None => false,
    }
}

/// Returns whether the text begins as one of a dialect may.
#[inline(always)]
pub fn may_be_sent(text: &str) -> bool
    ensures { IsTrue result ↔ spec.MayBegin (chars text.now) }
{
    match first(trimmed(text)) {
        Some((c, more)) => begins(c) && goes_on(c, more),
        None => false,
    }
}
