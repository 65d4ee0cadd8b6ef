//! Reads a line of bytes by the options.
ghost use Rattle.std.specs.Prelude.{◌≡◌, MatchResult, ⊤};
ghost use Rattle.syslog_text.specs.Pieces.View.{shown};
ghost use Rattle.syslog_loose.specs.Line.{line_value};
ghost use Rattle.syslog_loose.specs.Reading.{IsOnlyRead};
ghost use Rattle.syslog_c.specs.Line.{IsTried, OnLine, Refuses};
ghost use Rattle.syslog_c.specs.Sent.{IsOnlyMeant, LeavesOf, RefusesSent};

use crate::options::Options;
use crate::outcome::Outcome;
use crate::rules::Rules;
use syslog_dialects::{SentLine, parse_sent_line};
use syslog_loose::{Line, parse_line};
use syslog_utf8::from_utf8;

/// Returns the text of the line and what the port parsed it as, or why there is nothing.
pub(crate) fn read_line<'a>(
    line: &'a [u8],
    options: &Options,
) -> Result<(&'a str, Line<'a>), Outcome>
    ensures { MatchResult result
        (λ it. IsTried options.now line.entry.now (λ rules dating text. (shown it.0 ≡ text)
        × IsOnlyRead rules.variant dating text (line_value it.1)))
        (λ outcome. OnLine options.now line.entry.now outcome ⊤
        (λ rules dating text. Refuses rules.variant dating text outcome)) }
{
    let mut rules = Rules::new();
    if !rules.take(options) {
        return Err(Outcome::BadArgument);
    }
    let Ok(text) = from_utf8(line) else {
        return Err(Outcome::NotUtf8);
    };
    let dates = &rules.dates;
    let get_year = |date| dates.year_of(date);
    match parse_line(text, get_year, None, rules.variant, &dates.zone) {
        Some(line) => Ok((text, line)),
        None => Err(Outcome::NoReading),
    }
}

/// Returns the text of the line and the line as its sender meant it, or why there is nothing.
#[inline(always)]
pub(crate) fn read_sent_line<'a>(
    line: &'a [u8],
    options: &Options,
) -> Result<(&'a str, SentLine<'a>), Outcome>
    ensures { MatchResult result
        (λ it. IsTried options.now line.entry.now (λ rules dating text. (shown it.0 ≡ text)
        × IsOnlyMeant rules dating text it.1.dialect (line_value it.1.line) × LeavesOf rules text it.1))
        (λ outcome. OnLine options.now line.entry.now outcome ⊤
        (λ rules dating text. RefusesSent rules dating text outcome)) }
{
    let mut rules = Rules::new();
    if !rules.take(options) {
        return Err(Outcome::BadArgument);
    }
    let Ok(text) = from_utf8(line) else {
        return Err(Outcome::NotUtf8);
    };
    match parse_sent_line(text, &rules.dates, rules.variant, rules.dialects) {
        Some(sent) => Ok((text, sent)),
        None => Err(Outcome::NoReading),
    }
}
