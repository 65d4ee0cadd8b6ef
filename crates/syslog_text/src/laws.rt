//! Laws over the definitions alone: each function does nothing, and its contract is the law.
ghost use Rattle.std.specs.Prelude.{ℕ, ◌<◌, Option, ◌≤◌, ◌^◌, ◌++◌, IfSome, length, decimal};
ghost use Rattle.syslog_text.specs.Words.{Ends, is_not_whitespace, Text, is_ascii_digit, Each};
ghost use Rattle.syslog_text.specs.Text.{number, host, word, name_text, is_blank};
ghost use Rattle.syslog_text.specs.Text.Canonical.{IsCanonicalHost, IsCanonicalWord};

// What is printed of a canonical piece is read back, and what is read is canonical.

/// A number up to the limit is read back from its digits, if no digit follows them.
pub fn decimal_is_read_back()
    ensures { (n limit : ℕ) (q : Text) → n ≤ limit → limit < 2 ^ 64 → Ends is_ascii_digit q
        → (number limit).Is (decimal n) q n }
{}

/// A printed host, canonical or absent, is read back before the end or white space. What is read before a blank is a
/// canonical host, or an absent one.
#[tactic(auto, using(crate::proofs::TextLemmas::Words::hosts))]
pub fn canonical_host_is_read_back()
    ensures back { (v : Option Text) (q : Text) → IfSome v IsCanonicalHost → Ends is_not_whitespace q
        → host.Is (name_text v) q v }
    ensures only { (p b q : Text) (v : Option Text) → 0 < length b → Each is_blank b → host.Is p (b ++ q) v
        → IfSome v IsCanonicalHost }
{}

/// A printed word, canonical or absent, is read back before the end or white space, and what is read is a canonical
/// word, or an absent one.
#[tactic(auto, using(crate::proofs::TextLemmas::Words::words))]
pub fn canonical_word_is_read_back()
    ensures back { (v : Option Text) (q : Text) → IfSome v IsCanonicalWord → Ends is_not_whitespace q
        → word.Is (name_text v) q v }
    ensures only { (p q : Text) (v : Option Text) → word.Is p q v → IfSome v IsCanonicalWord }
{}
