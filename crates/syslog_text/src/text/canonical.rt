//! Which texts are read back unchanged from their printed form. Each test uses the scanner or the reader that reads
//! such a text, and does not allocate.
//!
//! **Rule.** It is a part of the written condition, which is this project's own (`docs/GRAMMAR.md`).
ghost use Rattle.std.specs.Prelude.{◌≡◌, ◌↔◌, ◌<◌, IsSomeAnd, IsTrue, [], length, chars};
ghost use Rattle.syslog_text.specs.Words.{Each, Ends, shown, has};
ghost use Rattle.syslog_text.specs.Text.{is_blank};
ghost use Rattle.syslog_text.specs.Text.Canonical.{IsCanonicalHost, IsCanonicalTag, IsCanonicalWord};

use super::{CharClass, host, split_run, tag_word, word};

/// Returns whether each character of the text is of the class.
pub fn is_only(text: &str, class: CharClass) -> bool
    ensures { IsTrue result ↔ Each (has class) (chars text.now) }
{
    let (_, rest) = split_run(text, class);
    rest.is_empty()
}

/// Returns whether the text has a character, and each is of the class.
#[tactic(auto, using(crate::proofs::TextLemmas::Words::both_told))]
pub fn is_some_of(text: &str, class: CharClass) -> bool
    ensures { IsTrue result ↔ ((0 < length (chars text.now)) × Each (has class) (chars text.now)) }
{
    !text.is_empty() && is_only(text, class)
}

// Whether a reader returned a name and no text after it.
#[tactic(auto, using(crate::proofs::TextLemmas::Words::end_told))]
fn is_whole(read: Option<(Option<&str>, &str)>) -> bool
    ensures { IsTrue result ↔ IsSomeAnd read.entry (λ x. IsSomeAnd x.0 (λ _. shown x.1 ≡ [])) }
{
    matches!(read, Some((Some(_), rest)) if rest.is_empty())
}

/// Returns whether the reader of hosts takes the whole text for a host.
pub fn is_canonical_host(text: &str) -> bool
    ensures { IsTrue result ↔ IsCanonicalHost (chars text.now) }
{
    is_whole(host(text))
}

/// Returns whether the reader of words takes the whole text for a word.
pub fn is_canonical_word(text: &str) -> bool
    ensures { IsTrue result ↔ IsCanonicalWord (chars text.now) }
{
    is_whole(word(text))
}

/// Returns whether the text does not begin with a blank.
pub fn begins_unblank(text: &str) -> bool
    ensures { IsTrue result ↔ Ends is_blank (chars text.now) }
{
    let (blanks, _) = split_run(text, CharClass::Blank);
    blanks.is_empty()
}

/// Returns whether the reader of tag words takes the whole text for a tag.
pub fn is_canonical_tag(text: &str) -> bool
    ensures { IsTrue result ↔ IsCanonicalTag (chars text.now) }
{
    is_whole(tag_word(text))
}
