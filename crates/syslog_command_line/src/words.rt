//! The words that a program with flags and dates is called with.
ghost use Rattle.std.specs.Prelude.{◌≡◌, ◌∷◌, [], IfErr, IfOk, List, MatchOption, MatchResult};
ghost use Rattle.std.specs.Prelude.{ℕ, drop};
ghost use Rattle.std.specs.Vec.Iter.{into_iter_items};
ghost use Rattle.syslog_loose.specs.declared.today.Today.{Today as AnyToday};
ghost use Rattle.syslog_command_line.specs.Arguments.{NamesDate};
ghost use Rattle.syslog_command_line.specs.Words.{AreDateWords, IsAmong, texts};
ghost use Rattle.syslog_command_line.specs.declared.words.Wrong.TheVariants.{Unreadable};

use crate::dates::read_date;
use std::alloc::{AllocError, Global};
use std::env;
use std::env::Args;
use syslog_loose::Today;

/// What is wrong with a program's words.
#[derive(Clone, Copy)]
pub enum Wrong<'a> {
    /// This word can't be at its place.
    Word(&'a str),
    /// A year is missing after the last word.
    Missing,
    /// One of the words is not UTF-8, or an allocation failed.
    Unreadable,
}

/// Returns the words after the first, if that is `wanted`.
pub(crate) fn after_word<'a>(words: &'a [String], wanted: &str) -> Option<&'a [String]>
    ensures { MatchOption result ((rest : List (List ℕ)) → ¬ (texts words.now ≡ wanted.now ∷ rest))
        (λ rest. texts words.now ≡ wanted.now ∷ texts rest.now) }
{
    let (word, rest) = words.split_first()?;
    if word.as_str() == wanted {
        Some(rest)
    } else {
        None
    }
}

/// Returns the year, the month or the day that the words write, if they are one word, or `--` and one word.
pub(crate) fn read_date_words(words: &[String]) -> Result<Today, Wrong<'_>>
    ensures { MatchResult result (λ today. AreDateWords (texts words.now) today)
        (λ wrong. IsAmong (texts words.now) wrong
        × ((today : AnyToday) → ¬ (AreDateWords (texts words.now) today))) }
{
    match after_word(words, "--") {
        Some(rest) => read_last_word(rest),
        None => read_last_word(words),
    }
}

// Returns the year, the month or the day that the only word writes.
fn read_last_word(words: &[String]) -> Result<Today, Wrong<'_>>
    ensures { MatchResult result
        (λ today. (word : List ℕ) × (texts words.now ≡ word ∷ []) × NamesDate word today)
        (λ wrong. IsAmong (texts words.now) wrong × ((word : List ℕ) (today : AnyToday)
        → texts words.now ≡ word ∷ [] → ¬ (NamesDate word today))) }
{
    let Some((word, rest)) = words.split_first() else {
        return Err(Wrong::Missing);
    };
    let Some(today) = read_date(word.as_str()) else {
        return Err(Wrong::Word(word.as_str()));
    };
    match rest.split_first() {
        None => Ok(today),
        Some((extra, _)) => Err(Wrong::Word(extra.as_str())),
    }
}

/// Returns the words that the program was called with, after its name; `Wrong::Unreadable` if one is not UTF-8, or an
/// allocation fails. No clause says which words these are, since the host's contract doesn't.
pub fn program_words(rt: &HostRuntime) -> Result<Vec<String>, Wrong<'static>>
    ensures { IfErr result (λ wrong. wrong ≡ Unreadable) }
{
    let Ok(words) = env::args(rt) else {
        return Err(Wrong::Unreadable);
    };
    match after_name(rt.alloc(), words) {
        Ok(words) => Ok(words),
        Err(_) => Err(Wrong::Unreadable),
    }
}

// The words after the first.
fn after_name(alloc: Global, mut words: Args) -> Result<Vec<String>, AllocError>
    ensures { IfOk result (λ rest. rest.items ≡ drop 1 (into_iter_items words)) }
{
    let _ = words.next();
    words.collect(alloc)
}
