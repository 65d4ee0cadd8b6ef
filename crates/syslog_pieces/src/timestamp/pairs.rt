//! Numbers of two and four digits at the front of a text, and the decimals of a second.
//!
//! **Rule.** The dates and times of an ABNF are made of these, as `2DIGIT` and `4DIGIT` of RFC 3339 (section 5.6).
ghost use Rattle.std.specs.Prelude.{◌<◌, ◌≤◌, chars};
ghost use Rattle.syslog_pieces.specs.Words.{Reads, after};
ghost use Rattle.syslog_pieces.specs.Timestamp.Rfc3339 as spec;

use super::digits;
use syslog_text::text::{CharClass, literal, split_run};

/// Returns the number that two digits at the front write, if it is below the limit, and the text after them.
#[inline(always)]
pub fn pair(text: &str, limit: u32) -> Option<(u32, &str)>
    requires { limit ≤ 100 }
    ensures { Reads (spec.pair limit) (λ n. n) (chars text.now) result }
{
    let (number, end) = digits::pair(text.as_bytes(), limit)?;
    Some((number, text.split_at(text.len() - end.len()).1))
}

/// Returns the year that four digits at the front write, and the text after them.
#[inline(always)]
pub fn year(text: &str) -> Option<(u16, &str)>
    ensures { Reads spec.year (λ n. n) (chars text.now) result }
{
    let (year, end) = digits::four_digits(text.as_bytes())?;
    Some((year, text.split_at(text.len() - end.len()).1))
}

/// Returns the number that two digits after this ASCII character write, if it is below the limit, and the text after
/// them.
#[inline(always)]
pub fn pair_after(text: &str, mark: char, limit: u32) -> Option<(u32, &str)>
    requires mark { mark < 128 }
    requires limit { limit ≤ 100 }
    ensures { Reads (after mark (spec.pair limit)) (λ n. n) (chars text.now) result }
{
    let digits = literal(text, mark)?;
    pair(digits, limit)
}

/// Returns the decimals at the front in nanoseconds, and the text after them. Decimals past nine are cut off.
pub fn decimals(text: &str) -> Option<(u32, &str)>
    ensures { Reads spec.decimals (λ n. n) (chars text.now) result }
{
    let (run, rest) = split_run(text, CharClass::Digit);
    let (nanosecond, _) = digits::decimals(run.as_bytes())?;
    Some((nanosecond, rest))
}
