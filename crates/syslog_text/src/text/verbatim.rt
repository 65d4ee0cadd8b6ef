//! Which gaps of a text are already in printed form, found by a look at a few bytes; and the text before a rest of it.
ghost use Rattle.std.specs.Prelude.{◌≡◌, ◌↔◌, ◌∷◌, ◌++◌, IsTrue, chars};
ghost use Rattle.syslog_text.specs.Words.{Text};

use crate::text::looks::begins_with;

/// Returns whether a text is one space and then `rest`: then that gap is already in printed form.
#[inline(always)]
pub fn is_one_space(text: &str, rest: &str) -> bool
    requires { (front : Text) × (chars text.now ≡ front ++ chars rest.now) }
    ensures { IsTrue result ↔ (chars text.now ≡ 32 ∷ chars rest.now) }
{
    begins_with(text.as_bytes(), b' ') && text.len() - 1 == rest.len()
}

/// Returns the part of a text that is before `rest`, where `rest` is the end of that text.
#[inline(always)]
pub fn before<'a>(text: &'a str, rest: &str) -> &'a str
    requires { (front : Text) × (chars text.now ≡ front ++ chars rest.now) }
    ensures { chars text.now ≡ chars result.now ++ chars rest.now }
{
    text.split_at(text.len() - rest.len()).0
}
