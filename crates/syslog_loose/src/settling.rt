//! Rounds, until the text no longer changes.
//!
//! A message of RFC 3164 that has a quirk weighs less after each round. At first it weighs no more than its text has
//! characters, so the rounds end.
ghost use Rattle.syslog_loose.specs.Words.{IfOk, string_bytes, chars, Text, Dating, dating_of};
ghost use Rattle.syslog_loose.specs.Clauses.{IsCanonical, MessageValue, AnswersEachMonth, InYear, IsRead, dash_rule};
ghost use Rattle.syslog_loose.specs.Clauses.{PassesLead, ReachesRank, Settles, answer_in};

use crate::fault::ParseFault;
use crate::rounds::{later_round, next_round};
use crate::variant::{IncompleteDate, Variant};
use jiff::tz::TimeZone;
use std::alloc::Global;
use std::mem::swap;

/// Returns the first stable round of the text. Round 1 is what `normalise` returns for the text, and each further round
/// what it returns for the round before. Returns `Invalid` if a round does not parse.
///
/// The arguments are those of `normalise`, and `get_year` is called as there, in round 1 alone, since a printed text
/// shows no month date. At most two texts are held at a time, and nothing is allocated that `normalise` would not
/// allocate round by round.
///
/// Rounds that follow from the one before are skipped, as those in which a host loses its last colons. So each text
/// takes at most six passes, and each pass takes time linear in it.
pub fn settle<F: FnOnce(IncompleteDate) -> i32>(
    alloc: Global,
    input: &str,
    get_year: F,
    tz: Option<&TimeZone<'_>>,
    variant: Variant,
    local: &TimeZone<'_>,
) -> Result<String, ParseFault>
    requires { AnswersEachMonth (F.pre get_year) }
    ensures settles { InYear (F.post get_year) variant (chars input.entry.now)
        (λ year. Settles variant (dating_of year tz.entry local.entry) (chars input.entry.now) result) }
    // At most six passes lead to it.
    ensures passes { InYear (F.post get_year) variant (chars input.entry.now)
        (λ year. IfOk result (λ text. PassesLead variant (dating_of year tz.entry local.entry) 6
        (chars input.entry.now) (chars (string_bytes text)))) }
    // The message of the result meets the written condition.
    ensures canonical { InYear (F.post get_year) variant (chars input.entry.now)
        (λ year. IfOk result (λ text. (m : MessageValue)
        → IsRead variant (dating_of year tz.entry local.entry) (chars (string_bytes text)) m
        → IsCanonical dash_rule m)) }
{
    let mut text = String::new(alloc);
    settle_into(alloc, &mut text, input, get_year, tz, variant, local)?;
    Ok(text)
}

/// Writes what `settle` returns into `text`, instead of what it held. One `String`, used for line after line, allocates
/// only for a line that is longer than each before. If the call fails, `text` may hold anything.
pub fn settle_into<F: FnOnce(IncompleteDate) -> i32>(
    alloc: Global,
    text: &mut String,
    input: &str,
    get_year: F,
    tz: Option<&TimeZone<'_>>,
    variant: Variant,
    local: &TimeZone<'_>,
) -> Result<(), ParseFault>
    requires { AnswersEachMonth (F.pre get_year) }
    ensures settles { InYear (F.post get_year) variant (chars input.entry.now)
        (λ year. Settles variant (dating_of year tz.entry local.entry) (chars input.entry.now)
        (answer_in result text.new)) }
    // At most six passes lead to it.
    ensures passes { InYear (F.post get_year) variant (chars input.entry.now)
        (λ year. IfOk (answer_in result text.new) (λ answer. PassesLead variant (dating_of year tz.entry local.entry) 6
        (chars input.entry.now) (chars (string_bytes answer)))) }
    // The message of the result meets the written condition.
    ensures canonical { InYear (F.post get_year) variant (chars input.entry.now)
        (λ year. IfOk (answer_in result text.new) (λ answer. (m : MessageValue)
        → IsRead variant (dating_of year tz.entry local.entry) (chars (string_bytes answer)) m
        → IsCanonical dash_rule m)) }
{
    let settled = next_round(text, input, get_year, tz, variant, local)?;
    if settled {
        return Ok(());
    }
    settle_on(alloc, text, variant)
}

// Goes on from a round that is not known to be stable, by at most five passes. A printed text shows no month date, so
// no year is needed. The two texts are swapped before each pass.
fn settle_on(alloc: Global, text: &mut String, variant: Variant) -> Result<(), ParseFault>
    ensures settles { (dating : Dating) (input : Text)
        → ReachesRank variant dating input 4 (chars (string_bytes text.old))
        → Settles variant dating input (answer_in result text.new) }
    ensures passes { (dating : Dating) (input : Text)
        → ReachesRank variant dating input 4 (chars (string_bytes text.old))
        → IfOk (answer_in result text.new) (λ answer. PassesLead variant dating 5 (chars (string_bytes text.old))
        (chars (string_bytes answer))) }
{
    let mut last = String::new(alloc);
    for done in 0..5_usize {
        swap(&mut last, text);
        let settled = later_round(text, last.as_str(), variant)?;
        if settled {
            return Ok(());
        }
    }
    Ok(())
}
