//! The form `tag[id]` of a program's name in RFC 3164. Section 5.3 shows it by example; where it ends is the Rust
//! crate's rule.
ghost use Rattle.syslog_loose.specs.{TagForm.IsForm, TagForm.IsNoForm, Words.MatchOption, Words.chars, Words.shown};

use syslog_text::text::{CharClass, literal, split_run};

/// Returns the tag and the id of a text of the form `tag[id]`; none for any other text.
#[inline(always)]
pub(crate) fn tag_form(text: &str) -> Option<(&str, &str)>
    ensures { MatchOption result (IsNoForm (chars text.now)) (λ x. IsForm (chars text.now) (shown x.0) (shown x.1)) }
{
    let (tag, rest) = split_run(text, CharClass::Label);
    let rest = literal(rest, '[')?;
    let (id, rest) = split_run(rest, CharClass::Open);
    if id.is_empty() {
        return None;
    }
    if rest == "]" { Some((tag, id)) } else { None }
}
