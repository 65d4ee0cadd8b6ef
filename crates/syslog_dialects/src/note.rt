//! The lines that journalctl writes between messages, as `-- Reboot --`. They are no messages.
ghost use Rattle.std.specs.Prelude.{◌≡◌, ◌≢◌, ◌↔◌, ◌++◌, false, IsTrue, MatchOption, chars, codes};
ghost use Rattle.syslog_text.specs.Pieces.Class.{Text};
ghost use Rattle.syslog_text.specs.Pieces.View.{shown};
ghost use Rattle.syslog_sent.specs.Runs.{are_ascii};
ghost use Rattle.syslog_dialects.specs.Note as spec;

use syslog_sent::named::past;
use syslog_text::text::trimmed;

// Whether these words begin the text.
#[tactic(auto, using(crate::proofs::NoteLemmas::begins_told))]
fn begins_with(text: &str, words: &str) -> bool
    requires { IsTrue (are_ascii words.now) }
    ensures { IsTrue result ↔ spec.BeginsWith words.now (chars text.now) }
{
    past(text, words).is_some()
}

// Returns the text before the two dashes that end it.
#[tactic(auto, using(crate::proofs::NoteLemmas::suffix_told))]
fn before_dashes(text: &str) -> Option<&str>
    ensures { MatchOption result ((inner : Text) → chars text.now ≢ inner ++ codes " --")
        (λ inner. chars text.now ≡ shown inner ++ codes " --") }
{
    text.strip_suffix(" --")
}

// Whether what is between the dashes begins as in one of these lines.
fn begins_note(inner: &str) -> bool
    ensures { IsTrue result ↔ spec.BeginsNote (chars inner.now) }
{
    begins_with(inner, "Boot ")
        || (begins_with(inner, "Reboot")
            || (begins_with(inner, "No entries")
                || (begins_with(inner, "Logs begin at ")
                    || begins_with(inner, "Journal begins at "))))
}

/// Returns whether the text is a line that journalctl writes between messages.
#[cold]
#[inline(never)]
pub(crate) fn is_note(text: &str) -> bool
    ensures { IsTrue result ↔ spec.IsNote (chars text.now) }
{
    let Some(rest) = past(trimmed(text), "-- ") else {
        return false;
    };
    let Some(inner) = before_dashes(rest) else {
        return false;
    };
    begins_note(inner)
}

/// Returns whether the text may be a line that journalctl writes between messages, by its first byte.
///
/// None of them begins with a letter, a digit or `<`, as most lines do.
#[inline(always)]
pub fn may_be_note(text: &str) -> bool
    ensures { (result ≡ false) → spec.IsNote (chars text.now) → ⊥ }
{
    match text.as_bytes() {
        [first, ..] => *first < b'.' || *first >= 128,
        [] => false,
    }
}
