//! Check Point's parameters: names and values with a colon between them, and `;` between two.
//!
//! **Rule.** `[action:"Accept"; src:"10.0.0.3"]`, as Check Point's Log Exporter writes in its format `syslog`
//! (sk122323). The element has no id; the one that it is given is this project's own.
ghost use Rattle.std.specs.Prelude.{◌≡◌, List, MatchOption, chars, length};
ghost use Rattle.syslog_text.specs.Pieces.View.{Skips};
ghost use Rattle.syslog_elements.specs.Words.{Front, NoFront, Reads, Text, param_value, shown};
ghost use Rattle.syslog_elements.specs.StructuredData.Pairs as spec;

use super::recognise::{nonempty_run, param, quoted};
use syslog_text::text::canonical::is_only;
use syslog_text::text::{CharClass, blanks, literal};

/// How the parameters of an element are written.
#[derive(Clone, Copy)]
pub enum Notation {
    /// As RFC 5424 has them: `name="value"`, with a space between two.
    Equals,
    /// As Check Point has them: `name:"value"`, with `;` and blanks between two.
    Colons,
}

// Returns the text after the space at the front, and the whole text if there is none. It is a function of its own, so
// that its clause separates the two cases for `next`.
fn past_separator(text: &str) -> &str
    ensures { spec.IsNext (chars text.now) (chars result.now) }
{
    literal(text, ' ').unwrap_or(text)
}

impl Notation {
    /// Returns the name and the raw value of the parameter at the front, and the text after it and what separates it
    /// from the next one.
    pub(super) fn next_param(self, text: &str) -> Option<((&str, &str), &str)>
        ensures { MatchOption result (spec.NoNextParam self (chars text.now))
            (λ x. spec.IsNextParam self (chars text.now) (param_value (λ s. shown s) x.0) (shown x.1)) }
    {
        match self {
            Notation::Equals => {
                let (found, after) = param(text)?;
                Some((found, past_separator(after)))
            }
            Notation::Colons => pair(text),
        }
    }
}

// Returns the name at the front, and the text after it.
fn pair_name(text: &str) -> Option<(&str, &str)>
    ensures { Reads spec.pair_name (λ s. shown s) (chars text.now) result }
{
    let (name, rest) = nonempty_run(text, CharClass::Tag)?;
    if !is_only(name, CharClass::SdName) {
        return None;
    }
    Some((name, rest))
}

// Returns the text after what ends a pair.
#[tactic(auto, using(crate::proofs::StructuredDataLemmas::Pairs::pair_ends))]
fn pair_end(text: &str) -> Option<&str>
    ensures { Skips spec.pair_end tt (chars text.now) result }
{
    if let Some(rest) = literal(text, ';') {
        return Some(blanks(rest));
    }
    let _ = literal(text, ']')?;
    Some(text)
}

// Returns the name and the value of the pair at the front, and the text after what ends it.
fn pair(text: &str) -> Option<((&str, &str), &str)>
    ensures { Reads spec.pair (param_value (λ s. shown s)) (chars text.now) result }
{
    let (name, after_name) = pair_name(text)?;
    let after_colon = literal(after_name, ':')?;
    let opened = literal(after_colon, '"')?;
    let (value, after_value) = quoted(opened)?;
    let rest = pair_end(after_value)?;
    Some(((name, value), rest))
}

/// Returns the number of the pairs at the front, and the text after the bracket that closes them.
#[tactic(auto, using(crate::proofs::StructuredDataLemmas::Pairs::counted_pairs))]
pub(super) fn walk_pairs(text: &str) -> Option<(usize, &str)>
    ensures { MatchOption result (NoFront spec.pairs (chars text.now)) (λ x. (ps : List (Text × Text))
        × Front spec.pairs (chars text.now) (shown x.1) (ps, (tt, tt)) × (x.0 ≡ length ps)) }
{
    let mut count = 0;
    let mut rest = text;
    'pairs: while let Some((_, after)) = pair(rest) {
        count += 1;
        rest = after;
    }
    let after = literal(rest, ']')?;
    Some((count, after))
}

/// Returns the number of the pairs, if the text is not empty; most lists have none.
#[inline(always)]
pub(super) fn pairs_len(text: &str) -> Option<usize>
    ensures { MatchOption result (NoFront spec.pairs (chars text.now)) (λ n. (q : Text) × ((ps : List (Text × Text))
        × Front spec.pairs (chars text.now) q (ps, (tt, tt)) × (n ≡ length ps))) }
{
    if text.is_empty() {
        return None;
    }
    let (count, _) = walk_pairs(text)?;
    Some(count)
}
