//! The reading of a line in order to choose it, apart from the reading that makes something of it.
ghost use Rattle.std.specs.Prelude.{◌≡◌, IfSome, MatchOption};
ghost use Rattle.std.specs.Str.{chars};
ghost use Rattle.syslog_loose.specs.Dates.{IsDated};
ghost use Rattle.syslog_loose.specs.Line.{KnowsForm};
ghost use Rattle.syslog_loose.specs.Reading.{IsUnreadable};
ghost use Rattle.syslog_loose.specs.Visit.{IsLineOf};
ghost use Rattle.syslog_loose.specs.declared.variant.Variant.TheVariants.{Either};
ghost use Rattle.syslog_dialects.specs.SentReading.{IsSentAnswer};

use syslog_dialects::{SentLine, sent_line, unread_line};
use syslog_elements::structured_data::NoElements;
use syslog_loose::{Dates, Line, LineVisitor, Variant, visit_line};

/// The visitor that returns the line, as `Itself` of `syslog_loose` does. It is for a filter's second way of reading: a
/// reader that is compiled for two callers is compiled into neither.
#[derive(Clone, Copy)]
pub struct Apart;

impl<'a> LineVisitor<'a> for Apart {
    type Answer = Line<'a>;

    ghost makes = { λ old line made new. (made ≡ line) × KnowsForm line };

    #[inline(always)]
    fn line(&mut self, line: &Line<'a>) -> Line<'a>
        requires form { KnowsForm line.now }
        ensures { (result ≡ line.now) × KnowsForm line.now }
    {
        Line {
            rest: line.rest,
            ..*line
        }
    }
}

// Returns the line that the text is parsed as, and `None` if it does not parse.
fn parse_apart<'a>(input: &'a str, dates: &Dates) -> Option<Line<'a>>
    ensures reads { IsDated dates.now Either (chars input.entry.now) (λ dating. MatchOption result
        (IsUnreadable Either dating (chars input.entry.now)) (IsLineOf Either dating (chars input.entry.now))) }
    ensures form { IfSome result KnowsForm }
{
    visit_line(
        input,
        |date| dates.year_of(date),
        None,
        Variant::Either,
        &dates.zone,
        &mut NoElements,
        &mut Apart,
    )
}

/// Returns the line of the text as its sender meant it, by the year and the zone of the dates; in a dialect only if
/// `dialects` is true. Returns `None` if the text is no message. It takes no memory.
pub fn sent_apart<'a>(input: &'a str, dates: &Dates, dialects: bool) -> Option<SentLine<'a>>
    ensures { IsDated dates.now Either (chars input.entry.now) (λ dating.
        IsSentAnswer dates.now dating dialects Either (chars input.entry.now) result) }
{
    match parse_apart(input, dates) {
        Some(found) => sent_line(&found, input, dates, Variant::Either, dialects),
        None => unread_line(input, dates, Variant::Either, dialects),
    }
}
