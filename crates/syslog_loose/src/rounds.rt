//! Rounds: a text is parsed, and its line is printed.
//!
//! `normalise` returns one round. What was read as RFC 5424 prints as a stable text, and so does what was read as RFC
//! 3164 and has no quirk. So nearly each line is stable after one round, and `settling` makes more of them for the
//! others alone.
ghost use Rattle.std.specs.Prelude.{◌≡◌, ◌↔◌};
ghost use Rattle.syslog_loose.specs.Words.{MatchBool, MatchResult, None, string_bytes, chars, encode_utf8_all};
ghost use Rattle.syslog_loose.specs.Words.{dating_of, Text, ℕ};
ghost use Rattle.syslog_pieces.specs.Timestamp.Zone.{Dating as AnyDating};
ghost use Rattle.syslog_loose.specs.Clauses.{KnowsForm, line_value, MessageValue, printed, AnswersAgain};
ghost use Rattle.syslog_loose.specs.Clauses.{AnswersEachMonth, InYear, IsOnlyRead, IsUnreadable, AnswersPass};
ghost use Rattle.syslog_loose.specs.Clauses.{IsStable, ReachesRank, WritesRound, round_answer, Invalid};

use crate::fault::ParseFault;
use crate::jumps::write_round;
use crate::line::{Line, has_no_quirk, print_line};
use crate::variant::{IncompleteDate, Variant};
use crate::visit::{LineVisitor, parse_line, visit_line, visit_undated};
use jiff::tz::TimeZone;
use std::alloc::{AllocError, Global};
use syslog_elements::structured_data::NoElements;
use syslog_pieces::pri::optional_priority;
use syslog_pieces::timestamp::canonical::is_canonical_clock;
use syslog_text::text::trimmed;

/// Returns the printed text of the message that `parse_message_with_year_exact_tz` returns, in a new `String`. For a
/// text that does not parse it returns `Invalid`, and never `Memory`.
pub fn normalise<F: FnOnce(IncompleteDate) -> i32>(
    alloc: Global,
    input: &str,
    get_year: F,
    tz: Option<&TimeZone<'_>>,
    variant: Variant,
    local: &TimeZone<'_>,
) -> Result<String, ParseFault>
    requires { AnswersEachMonth (F.pre get_year) }
    ensures reads { InYear (F.post get_year) variant (chars input.entry.now) (λ year. MatchResult result
        (λ text. (m : MessageValue) × IsOnlyRead variant (dating_of year tz.entry local.entry) (chars input.entry.now) m
        × (string_bytes text ≡ encode_utf8_all (printed m)))
        (λ fault. (fault ≡ Invalid) ↔ IsUnreadable variant (dating_of year tz.entry local.entry)
        (chars input.entry.now))) }
    ensures again { AnswersAgain variant (chars input.entry.now) input.entry.now result }
{
    let Some(line) = parse_line(input, get_year, tz, variant, local) else {
        return Err(ParseFault::Invalid);
    };
    let mut text = String::new(alloc);
    print_line(&mut text, &line)?;
    Ok(text)
}

/// Writes the next round of the input into `text`, or a later one if no round before that is stable. Returns whether it
/// is known to be stable. The arguments are those of `visit_line`.
#[inline(always)]
pub(crate) fn next_round<F: FnOnce(IncompleteDate) -> i32>(
    text: &mut String,
    input: &str,
    get_year: F,
    tz: Option<&TimeZone<'_>>,
    variant: Variant,
    local: &TimeZone<'_>,
) -> Result<bool, ParseFault>
    requires { AnswersEachMonth (F.pre get_year) }
    ensures { InYear (F.post get_year) variant (chars input.entry.now) (λ year. AnswersPass variant
        (dating_of year tz.entry local.entry) (chars input.entry.now) 5 (chars input.entry.now) (string_bytes text.new)
        result) }
{
    let made = visit_line(input, get_year, tz, variant, local, &mut NoElements, text);
    answer(made)
}

/// Writes the next round of a text that is itself a round, or a later one, as `next_round` does. Such a text shows no
/// month date, so no year is needed.
#[inline(always)]
pub(crate) fn later_round(
    text: &mut String,
    input: &str,
    variant: Variant,
) -> Result<bool, ParseFault>
    ensures { (dating : AnyDating) (first : Text) (rank : ℕ)
        → ReachesRank variant dating first rank (chars input.entry.now)
        → AnswersPass variant dating first rank (chars input.entry.now) (string_bytes text.new) result }
{
    let (priority, rest) = optional_priority(trimmed(input));
    let made = visit_undated(priority, rest, variant, &mut NoElements, text);
    answer(made)
}

// Returns what the visitor made of the line of a text, or `Invalid` if there is no line.
#[inline(always)]
fn answer(made: Option<Result<bool, AllocError>>) -> Result<bool, ParseFault>
    ensures { result ≡ round_answer made }
{
    match made {
        Some(Ok(settled)) => Ok(settled),
        Some(Err(_)) => Err(ParseFault::Memory),
        None => Err(ParseFault::Invalid),
    }
}

// Writes a round of the line instead of what was there, and returns whether it is known to be stable.
impl<'a> LineVisitor<'a> for String {
    type Answer = Result<bool, AllocError>;

    ghost makes = { λ old line made new. WritesRound line made (string_bytes new) };

    #[inline(always)]
    fn line(&mut self, line: &Line<'a>) -> Result<bool, AllocError>
        requires form { KnowsForm line.now }
        ensures { WritesRound line.now result (string_bytes self.new) }
    {
        if is_known_settled(line) {
            print_line(self, line)?;
            return Ok(true);
        }
        other_round(self, line)
    }
}

// Whether the printed text is known to be stable by the protocol and the form of the line.
#[inline(always)]
fn is_known_settled(line: &Line<'_>) -> bool
    requires { KnowsForm line.now }
    ensures { MatchBool result (IsStable (line_value line.now).protocol (line_value line.now)) (line.now.version
        ≡ None) }
{
    line.version.is_some() || (line.is_printed && is_canonical_clock(line.timestamp))
}

// Writes the round of a line of RFC 3164, and returns whether it is known to be stable.
#[inline(never)]
#[tactic(auto, using(crate::proofs::SettlingLemmas::Settles::told_later))]
fn other_round(text: &mut String, line: &Line<'_>) -> Result<bool, AllocError>
    requires form { KnowsForm line.now }
    requires rfc3164 { line.now.version ≡ None }
    ensures { WritesRound line.now result (string_bytes text.new) }
{
    if has_no_quirk(line) {
        print_line(text, line)?;
        return Ok(true);
    }
    write_round(text, line)?;
    Ok(false)
}
