//! The removal of escapes from a value.
//!
//! **Rule.** `\n` gives a line feed; `\"`, `\]` and `\\` give their second character. Any other pair stays, and a lone
//! last backslash is dropped. (RFC 5424 section 6.3.3; the line feed and the lone backslash are the Rust crate's rule.)
ghost use Rattle.std.specs.Prelude.{◌≡◌, ◌≢◌, ◌++◌, [], ◌∷◌, ◌<◌, length, IfOk, MatchOption, string_bytes, chars};
ghost use Rattle.syslog_elements.specs.Words.{shown};
ghost use Rattle.syslog_elements.specs.StructuredData.Escapes.{pair_meaning, IsUnescaped, MeansFirst};

use std::alloc::{AllocError, Global};
use syslog_text::text::{CharClass, first, split_run};

// Returns what a backslash and this character mean; none if they mean themselves.
#[tactic(auto, using(syslog_text::proofs::TextLemmas::Runs::char_alone))]
fn meaning(c: char) -> Option<&'static str>
    ensures { MatchOption result ((pair_meaning c ≡ 92 ∷ c ∷ []) × (c ≢ 92)) (λ text. chars text.now ≡ pair_meaning c) }
{
    match c {
        'n' => Some("\n"),
        '"' => Some("\""),
        '\\' => Some("\\"),
        ']' => Some("]"),
        _ => None,
    }
}

/// Returns the first text of a value with its escapes removed, and the rest of the value, whose own text comes after
/// it; none if the value has no text, because it is empty or a lone backslash. It does not allocate.
pub fn next_unescaped(value: &str) -> Option<(&str, &str)>
    ensures { MatchOption result (IsUnescaped (chars value.now) [])
        (λ x. MeansFirst (chars value.now) (shown x.0) (shown x.1) × (length (shown x.1) < length (chars value.now))) }
{
    let (run, pair) = split_run(value, CharClass::Bare);
    if !run.is_empty() {
        return Some((run, pair));
    }
    let (_, escaped) = first(pair)?;
    let (c, rest) = first(escaped)?;
    match meaning(c) {
        Some(text) => Some((text, rest)),
        None => Some(("\\", escaped)),
    }
}

// Appends a text. It is a function of its own, so that its clause speaks of characters where `push_str` speaks of
// bytes.
#[tactic(auto, using(crate::proofs::StructuredDataLemmas::Units::appended))]
fn push_text(out: &mut String, text: &str) -> Result<(), AllocError>
    ensures { IfOk result (λ _. chars (string_bytes out.new) ≡ chars (string_bytes out.old) ++ chars text.now) }
{
    out.push_str(text)
}

/// Returns the value of a parameter with its escapes removed. It fails only if an allocation does.
#[tactic(auto, using(crate::proofs::StructuredDataLemmas::Units::taken))]
pub fn unescape(alloc: Global, value: &str) -> Result<String, AllocError>
    ensures { IfOk result (λ unescaped. IsUnescaped (chars value.now) (chars (string_bytes unescaped))) }
{
    let mut out = String::new(alloc);
    let mut rest = value;
    'texts: loop {
        let Some((text, after)) = next_unescaped(rest) else {
            return Ok(out);
        };
        push_text(&mut out, text)?;
        rest = after;
    }
}
