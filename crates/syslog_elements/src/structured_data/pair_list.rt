//! Check Point's element as a list of one element.
ghost use Rattle.std.specs.Prelude.{◌≡◌, [], IfSome, chars};
ghost use Rattle.syslog_elements.specs.Words.{Reads, list_elements, list_text};
ghost use Rattle.syslog_elements.specs.StructuredData.Pairs as spec;

use super::pairs::walk_pairs;
use super::recognised::ElementList;
use super::rfc3164_list::DashRule;
use syslog_text::text::literal;

/// Returns Check Point's element at the front, as a list of one element, and the text after it. It has a parameter, and
/// the text ends after it, or a blank follows.
pub fn paired_list(text: &str) -> Option<(ElementList<'_>, &str)>
    ensures list { Reads spec.paired (λ l. list_elements l) (chars text.now) result }
    ensures text { IfSome result (λ x. list_text x.0 ≡ []) }
{
    let inside = literal(text, '[')?;
    let (count, rest) = walk_pairs(inside)?;
    if count == 0 {
        return None;
    }
    if !DashRule::BeforeBlank.allows(rest) {
        return None;
    }
    Some((ElementList::of_pairs(inside, count), rest))
}
