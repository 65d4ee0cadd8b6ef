//! Whether a text is read differently here than by the Rust crate `syslog_loose`, which takes a dash before any text
//! for an empty list. The fields before the list decide that, so no element is collected, and nothing is allocated.
ghost use Rattle.std.specs.Prelude.{◌↔◌};
ghost use Rattle.syslog_loose.specs.Words.{IsTrue, MatchBool, IsOkAnd, chars, Text, dating_of};
ghost use Rattle.syslog_pieces.specs.Timestamp.Zone.{Dating as AnyDating};
ghost use Rattle.syslog_loose.specs.Clauses.{BeginsDashChange, HasDashChange, ReadsDifferently, AnswersEachMonth};
ghost use Rattle.syslog_loose.specs.Clauses.{InYear, IsLineOf, Variant};

use crate::line::Line;
use crate::rfc3164::read_fields;
use crate::variant::{IncompleteDate, Variant};
use crate::visit::parse_line;
use jiff::tz::TimeZone;
use std::alloc::{AllocError, Global};
use syslog_elements::structured_data::NoElements;
use syslog_text::text::{CharClass, first, literal};

/// Returns whether the Rust crate would drop a leading `-` that is kept here as the beginning of `msg`.
///
/// In RFC 3164 the crate takes a dash for an empty list of structured data before any text. Here a dash is one only at
/// the end of the text, or before a blank. So this is true if the text is read as RFC 3164, and a dash is where a list
/// may begin, right before a character that is no blank.
///
/// The arguments are those of `parse_message_with_year_exact_tz`, and `get_year` is called as there. The call never
/// fails.
pub fn reads_differently<F: FnOnce(IncompleteDate) -> i32>(
    _alloc: Global,
    input: &str,
    get_year: F,
    tz: Option<&TimeZone<'_>>,
    variant: Variant,
    local: &TimeZone<'_>,
) -> Result<bool, AllocError>
    requires { AnswersEachMonth (F.pre get_year) }
    ensures reads { InYear (F.post get_year) variant (chars input.entry.now) (λ year. IsOkAnd result (λ differs.
        IsTrue differs ↔ ReadsDifferently variant (dating_of year tz.entry local.entry) (chars input.entry.now))) }
    // What that comes to: the piece of the list that was read as RFC 3164 was `-`, before a character that is no blank.
    ensures drops { InYear (F.post get_year) variant (chars input.entry.now) (λ year. IsOkAnd result (λ differs.
        IsTrue differs ↔ HasDashChange variant (dating_of year tz.entry local.entry) (chars input.entry.now))) }
{
    match parse_line(input, get_year, tz, variant, local) {
        Some(line) => Ok(has_dash_change(&line)),
        None => Ok(false),
    }
}

// Whether the text of the line reads differently, by what follows its timestamp. RFC 5424 has no such dash.
#[tactic(auto, using(crate::proofs::DashChangeLemmas::unchanged_5424))]
fn has_dash_change(line: &Line<'_>) -> bool
    ensures { (variant : Variant) (dating : AnyDating) (text : Text) → IsLineOf variant dating text line.now
        → IsTrue result ↔ HasDashChange variant dating text }
{
    match line.version {
        Some(_) => false,
        None => begins_dash_change(read_fields::<NoElements>(line.rest).rest),
    }
}

// Whether the text begins with a dash before a character that is no blank.
fn begins_dash_change(text: &str) -> bool
    ensures { MatchBool result (BeginsDashChange (chars text.now)) (BeginsDashChange (chars text.now) → ⊥) }
{
    let Some(rest) = literal(text, '-') else {
        return false;
    };
    first(rest).is_some_and(|(c, _)| !CharClass::Blank.has(c))
}
