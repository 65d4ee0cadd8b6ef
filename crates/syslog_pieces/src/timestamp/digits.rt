//! The small pieces at the front of bytes: digits as numbers, and letters. Nothing is copied.
ghost use Rattle.std.specs.Prelude.{◌≡◌, ℕ, ◌+◌, ◌<◌, ◌≤◌, ◌++◌, length, slice_index, IfSome, MatchOption};
ghost use Rattle.syslog_pieces.specs.Words.{prefix_len, is_ascii_digit, IsAsciiDigit, Front, NoFront, after};
ghost use Rattle.syslog_pieces.specs.Words.{ReadsBytes, pad3};
ghost use Rattle.syslog_pieces.specs.Timestamp.Rfc3339 as spec;

use syslog_text::text::begins_with_digit;

// Returns the number that an ASCII digit writes. It has 32 bits, since each sum of 8 bits would be widened once more.
#[inline(always)]
fn digit_value(byte: u8) -> u32
    requires { IsAsciiDigit byte }
    ensures { result + 48 ≡ byte }
{
    u32::from(byte) - 48
}

/// Reads two digits at the front, as a number below the limit. Returns it and the bytes after them.
#[inline(always)]
pub fn pair(text: &[u8], limit: u32) -> Option<(u32, &[u8])>
    requires { limit ≤ 100 }
    ensures { ReadsBytes (spec.pair limit) (λ n. n) text.now result }
{
    match text {
        [tens @ b'0'..=b'9', ones @ b'0'..=b'9', rest @ ..] => {
            let number = digit_value(*tens) * 10 + digit_value(*ones);
            (number < limit).then_some((number, rest))
        }
        _ => None,
    }
}

/// Reads this byte and two digits, as a number below the limit. Returns it and the bytes after them.
#[tactic(auto, using(crate::proofs::TimestampLemmas::Digits::after_reads, crate::proofs::TimestampLemmas::Digits::first_rest))]
#[inline(always)]
pub fn pair_after(text: &[u8], byte: u8, limit: u32) -> Option<(u32, &[u8])>
    requires { limit ≤ 100 }
    ensures { ReadsBytes (after byte (spec.pair limit)) (λ n. n) text.now result }
{
    match text {
        [first, rest @ ..] if *first == byte => pair(rest, limit),
        _ => None,
    }
}

/// Reads four digits at the front, as a number. Returns it and the bytes after them.
#[inline(always)]
pub fn four_digits(text: &[u8]) -> Option<(u16, &[u8])>
    ensures { ReadsBytes spec.year (λ n. n) text.now result }
{
    let (century, rest) = pair(text, 100)?;
    let (year, rest) = pair(rest, 100)?;
    Some(((century * 100 + year) as u16, rest))
}

/// Returns the bytes after a letter in either case; the letter is given in upper case.
#[inline(always)]
pub fn after_letter(text: &[u8], upper: u8) -> Option<&[u8]>
    requires { upper < 128 }
    ensures { MatchOption result (NoFront (spec.letter upper) text.now)
        (λ rest. Front (spec.letter upper) text.now rest.now tt) }
{
    match text {
        [first, rest @ ..] if *first == upper => Some(rest),
        [first, rest @ ..] if *first == upper + 32 => Some(rest),
        _ => None,
    }
}

/// Reads a fraction at the front: a dot and one or more digits, as nanoseconds, or nothing, which is 0. Returns it and
/// the bytes after it.
#[inline(always)]
pub fn fraction(text: &[u8]) -> Option<(u32, &[u8])>
    ensures { ReadsBytes spec.fraction (λ n. n) text.now result }
{
    match text {
        [b'.', rest @ ..] => decimals(rest),
        _ => Some((0, text)),
    }
}

/// Reads one or more digits at the front as the decimals of a second, in nanoseconds: those past nine are worth
/// nothing. Returns them and the bytes after them.
#[inline(always)]
pub fn decimals(text: &[u8]) -> Option<(u32, &[u8])>
    ensures { ReadsBytes spec.decimals (λ n. n) text.now result }
{
    match few_decimals(text) {
        Some(read) => Some(read),
        None => many_decimals(text),
    }
}

// Reads exactly three, six or nine digits, which most fractions have: they need no loop.
#[inline(always)]
fn few_decimals(text: &[u8]) -> Option<(u32, &[u8])>
    ensures { IfSome result (λ read. Front spec.decimals text.now read.1.now read.0) }
{
    let (milli, rest) = triple(text)?;
    if !begins_with_digit(rest) {
        return Some((milli * 1_000_000, rest));
    }
    let (micro, rest) = triple(rest)?;
    if !begins_with_digit(rest) {
        return Some((milli * 1_000_000 + micro * 1_000, rest));
    }
    let (nano, rest) = triple(rest)?;
    if begins_with_digit(rest) {
        return None;
    }
    Some((milli * 1_000_000 + micro * 1_000 + nano, rest))
}

// Reads three digits at the front, as a number.
#[inline(always)]
fn triple(text: &[u8]) -> Option<(u32, &[u8])>
    ensures small { IfSome result (λ read. read.0 < 1_000) }
    ensures text { IfSome result (λ read. text.now ≡ pad3 read.0 ++ read.1.now) }
{
    match text {
        [a @ b'0'..=b'9', b @ b'0'..=b'9', c @ b'0'..=b'9', rest @ ..] => {
            Some((
                digit_value(*a) * 100 + digit_value(*b) * 10 + digit_value(*c),
                rest,
            ))
        }
        _ => None,
    }
}

// Reads one or more digits: those past nine are worth nothing.
fn many_decimals(text: &[u8]) -> Option<(u32, &[u8])>
    ensures { ReadsBytes spec.decimals (λ n. n) text.now result }
{
    let len = digits_len(text);
    if len == 0 {
        return None;
    }
    let (digits, rest) = text.split_at(len);
    let mut nanosecond = 0;
    let mut place = 100_000_000;
    'digits: for byte in digits {
        nanosecond += digit_value(*byte) * place;
        place /= 10;
    }
    Some((nanosecond, rest))
}

// Returns how many digits the text begins with. It is a function of its own, so that its clauses speak of bytes and not
// of items.
fn digits_len(text: &[u8]) -> usize
    ensures len { result ≡ prefix_len is_ascii_digit text.now }
    ensures within { result ≤ length text.now }
    ensures digits { (k : ℕ) → k < result → IsAsciiDigit (slice_index text.now k) }
{
    text.iter().take_while(|byte| byte.is_ascii_digit()).count()
}
