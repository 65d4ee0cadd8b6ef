//! Runs of at most so many characters, and numbers between two bounds.
//!
//! **Rule.** Most rules of an ABNF are made of these, as `1*255PRINTUSASCII` of RFC 5424 (section 6).
ghost use Rattle.std.specs.Prelude.{◌≡◌, ◌<◌, ℕ, true, MatchBool, chars};
ghost use Rattle.syslog_text.specs.Words.{has, shown, texted, Reads};
ghost use Rattle.syslog_text.specs.Pieces.Rules.{short_run};
ghost use Rattle.syslog_text.specs.Text.Bounded.{LeadsWithZero, numeral};

use super::{CharClass, first, literal, number, split_run};

/// Returns the run of the class at the front, if it has one to `most` characters, and the text after it.
#[inline(always)]
pub fn short_run(text: &str, class: CharClass, most: usize) -> Option<(&str, &str)>
    requires { (c : ℕ) → has class c ≡ true → c < 128 }
    ensures { Reads (texted (short_run (has class) most)) (λ run. shown run) (chars text.now) result }
{
    let (run, rest) = split_run(text, class);
    if run.len() > most {
        return None;
    }
    if run.is_empty() {
        return None;
    }
    Some((run, rest))
}

// Whether a zero and another digit begin the text.
#[inline(always)]
fn leads_with_zero(text: &str) -> bool
    ensures { MatchBool result (LeadsWithZero (chars text.now)) (LeadsWithZero (chars text.now) → ⊥) }
{
    let Some(after_zero) = literal(text, '0') else {
        return false;
    };
    match first(after_zero) {
        Some((c, _)) => c.is_ascii_digit(),
        None => false,
    }
}

/// Returns the number at the front and the text after it, if it is from `least` to `most` and has no leading zero.
#[inline(always)]
pub fn numeral(text: &str, least: u32, most: u32) -> Option<(u32, &str)>
    ensures { Reads (numeral least most) (λ n. n) (chars text.now) result }
{
    let (value, rest) = number(text, most)?;
    if value < least {
        return None;
    }
    if leads_with_zero(text) {
        return None;
    }
    Some((value, rest))
}
