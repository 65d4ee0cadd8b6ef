//! Texts that are appended as they are, or with `?` for each character that a class lacks.
ghost use Rattle.std.specs.Prelude.{◌≡◌, ◌<◌, ℕ, [], ◌∷◌, length, IsTrue, MatchBool, OnOk, true};
ghost use Rattle.std.specs.Str.{chars};
ghost use Rattle.syslog_text.specs.Pieces.Rules.{short_run};
ghost use Rattle.syslog_text.specs.Text.CharClass.{has};
ghost use Rattle.syslog_strict.specs.Conversion.{cleaned as cleaned_text, kept_char};
ghost use Rattle.syslog_strict.specs.Grammar.{IsAll};
ghost use Rattle.syslog_strict.specs.Pushing.{Appends};

use std::alloc::AllocError;
use syslog_text::text::bounded::short_run;
use syslog_text::text::{CharClass, first};

/// Returns the character if it is of the class, and otherwise `?`.
#[inline(always)]
pub(crate) fn kept(c: char, class: CharClass) -> char
    ensures { result ≡ kept_char (has class) c }
{
    if class.has(c) { c } else { '?' }
}

/// Appends a character. It is a function of its own, so that its clause speaks of characters where `push` speaks of
/// bytes.
pub(crate) fn push_char(out: &mut String, c: char) -> Result<(), AllocError>
    ensures { OnOk result (Appends out.old (c ∷ []) out.new) }
{
    out.push(c)
}

/// Appends a text as it is. It is a function of its own, so that its clause speaks of characters where `push_str`
/// speaks of bytes.
#[inline(always)]
pub(crate) fn push_text(out: &mut String, text: &str) -> Result<(), AllocError>
    ensures { OnOk result (Appends out.old (chars text.now) out.new) }
{
    out.push_str(text)
}

/// Whether the text is one to `most` characters of the class.
#[inline(always)]
pub(crate) fn is_kept(text: &str, class: CharClass, most: usize) -> bool
    requires { (c : ℕ) → has class c ≡ true → c < 128 }
    ensures { IsTrue result → IsAll (short_run (has class) most) (chars text.now) }
{
    if text.len() > most {
        return false;
    }
    match short_run(text, class, most) {
        Some((_, rest)) => rest.is_empty(),
        None => false,
    }
}

/// Appends the text, cut to at most `most` characters, with `?` for each character that isn't of the class.
#[cold]
#[inline(never)]
pub(crate) fn push_each(
    out: &mut String,
    text: &str,
    class: CharClass,
    most: usize,
) -> Result<(), AllocError>
    ensures { OnOk result (Appends out.old (cleaned_text (has class) most (chars text.now)) out.new) }
{
    let mut rest = text;
    let mut left = most;
    'chars: while left > 0 {
        let Some((c, more)) = first(rest) else {
            return Ok(());
        };
        push_char(out, kept(c, class))?;
        rest = more;
        left -= 1;
    }
    Ok(())
}

/// Whether the text is empty. It is a function of its own, so that its clause speaks of characters.
#[inline(always)]
pub(crate) fn is_no_text(text: &str) -> bool
    ensures { MatchBool result (chars text.now ≡ []) (0 < length (chars text.now)) }
{
    match first(text) {
        Some(_) => false,
        None => true,
    }
}
