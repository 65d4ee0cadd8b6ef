//! The way from a text to a line, in a dialect or as the port reads it.
//!
//! The port reads the text once. If its line is ordinary, it is kept. Otherwise, and if there is no line, the dialects
//! are tried by a call of its own. So an ordinary line only pays for a look at a few of its fields. What journalctl
//! writes between messages is looked for only where no dialect may begin, and only if the port's line is not ordinary.
ghost use Rattle.std.specs.Prelude.{◌≡◌, ◌↔◌, ⊤, [], false, true, IfSome, IsSome, IsTrue, MatchOption, chars};
ghost use Rattle.syslog_text.specs.Pieces.Class.{Text};
ghost use Rattle.syslog_elements.specs.StructuredData.Visited.{list_elements};
ghost use Rattle.syslog_pieces.specs.Timestamp.Zone.{Dating};
ghost use Rattle.syslog_loose.specs.Dates.{IsDated};
ghost use Rattle.syslog_loose.specs.Line.{KnowsForm, line_value};
ghost use Rattle.syslog_loose.specs.Reading.{IsUnreadable};
ghost use Rattle.syslog_loose.specs.Today.{IsYearIn};
ghost use Rattle.syslog_loose.specs.Unparsed.{IsLeftUnparsed};
ghost use Rattle.syslog_loose.specs.Visit.{IsLineOf};
ghost use Rattle.syslog_dialects.specs.Ordinary.{IsOrdinary};
ghost use Rattle.syslog_dialects.specs.SentReading as spec;

use crate::beginning::may_be_sent;
use crate::dialects::read_dialect;
use crate::line::line_of;
use crate::note::is_note;
use crate::ordinary::is_ordinary;
use crate::paired::opened;
use syslog_elements::structured_data::{ElementVisitor, visit_list};
use syslog_loose::{Dates, IncompleteDate, Line, Variant, parse_line};
use syslog_pieces::pri::optional_priority;
use syslog_sent::dialect::Dialect;
use syslog_sent::sent::SentDate;
use syslog_text::text::trimmed;

/// A line as its sender meant it, and the dialect that it was read in, if any.
#[derive(Clone, Copy)]
pub struct SentLine<'a> {
    /// The line, whose texts are slices of the input.
    pub line: Line<'a>,
    /// The dialect that the text was read in; absent if the line was read by RFC 5424 or RFC 3164.
    pub dialect: Option<Dialect>,
    /// Whether the date of a dialect's line shows its year. It is false if the line is the port's.
    pub shows_year: bool,
    /// Whether the date of a dialect's line shows its offset. It is false if the line is the port's.
    pub shows_offset: bool,
}

/// What becomes of the port's line of a text, if it is not ordinary.
#[derive(Clone, Copy)]
pub enum Instead<'a> {
    /// It is kept.
    Kept,
    /// It is dropped: the text is no message, but a line that journalctl writes between messages.
    Note,
    /// The line of the dialect that the text is in replaces it.
    Sent(SentLine<'a>),
}

impl<'a> SentLine<'a> {
    ghost use Rattle.std.specs.Prelude.{◌≡◌, MatchOption};
    ghost use Rattle.syslog_text.specs.Pieces.View.{seen};
    ghost use Rattle.syslog_elements.specs.StructuredData.Visited.{Visits, list_elements};
    ghost use Rattle.syslog_sent.specs.Dialect.{dialect_text};
    ghost use Rattle.syslog_dialects.specs.SentReading as spec;

    // Returns the line in this dialect, in which it has this date; or the port's line, in no dialect and with no date.
    #[inline(always)]
    fn of(line: &Line<'a>, dialect: Option<Dialect>, date: Option<SentDate>) -> SentLine<'a>
        ensures { (result.line ≡ line.now) × (result.dialect ≡ dialect)
            × (result.shows_year ≡ spec.shows_year date) × (result.shows_offset ≡ spec.shows_offset date) }
    {
        SentLine {
            line: Line {
                rest: line.rest,
                ..*line
            },
            dialect,
            shows_year: shows_year(date),
            shows_offset: shows_offset(date),
        }
    }

    /// Gives a visitor the elements of a dialect's line. It gives none if the line is the port's, whose elements the
    /// visitor was given while the line was read.
    #[inline(always)]
    pub fn visit_own<E: ElementVisitor<'a>>(&self, elements: &mut E)
        ensures { spec.GivesOwn E.was_given elements.old self.now elements.new }
    {
        if self.dialect.is_some() {
            // A copy, so that the line stays out of memory. Only Check Point's lines have elements, so for most lines
            // no walk over them is begun.
            let list = self.line.list;
            if !list.is_empty() {
                visit_list(&list, elements);
            }
        }
    }

    /// Returns the name of the dialect that the line was read in; none if it was read by RFC 5424 or RFC 3164.
    #[inline(always)]
    pub fn dialect_name(&self) -> Option<&'static str>
        ensures { seen result ≡ dialect_text self.now.dialect }
    {
        match self.dialect {
            Some(dialect) => Some(dialect.name()),
            None => None,
        }
    }
}

// Whether the date shows its year.
#[inline(always)]
fn shows_year(date: Option<SentDate>) -> bool
    ensures { result ≡ spec.shows_year date }
{
    match date {
        Some(date) => date.date.year.is_some(),
        None => false,
    }
}

// Whether the date shows its offset.
#[inline(always)]
fn shows_offset(date: Option<SentDate>) -> bool
    ensures { result ≡ spec.shows_offset date }
{
    match date {
        Some(date) => date.offset.is_some(),
        None => false,
    }
}

// Returns the line of the dialect that the text is in; none if it is in none, or there is no such date. `is_read` says
// whether the port parses the text.
#[cold]
#[inline(never)]
fn dialect_line<'a>(is_read: bool, input: &'a str, dates: &Dates) -> Option<SentLine<'a>>
    ensures { MatchOption result (spec.IsInNone dates.now is_read (chars input.entry.now))
        (spec.IsDialectLine dates.now is_read (chars input.entry.now)) }
{
    let (priority, text) = optional_priority(trimmed(input));
    let (dialect, sent) = read_dialect(is_read, priority, text)?;
    let Some(line) = line_of(priority, &sent, dates) else {
        return None;
    };
    Some(SentLine::of(&opened(dialect, &line), Some(dialect), sent.date))
}

// Returns what `dialect_line` returns. A function clears the memory of its results when it is entered, so that for this
// call is only cleared where a dialect is tried.
#[inline(always)]
fn tried_line<'a>(is_read: bool, input: &'a str, dates: &Dates) -> Option<SentLine<'a>>
    ensures { MatchOption result (spec.IsInNone dates.now is_read (chars input.entry.now))
        (spec.IsDialectLine dates.now is_read (chars input.entry.now)) }
{
    dialect_line(is_read, input, dates)
}

// What becomes of the port's line of a text, where dialects are asked for and that line is not ordinary.
#[inline(always)]
fn odd_line<'a>(input: &'a str, dates: &Dates) -> Instead<'a>
    ensures { spec.IsInstead ⊤ dates.now (chars input.entry.now) result }
{
    if may_be_sent(input) {
        return match tried_line(true, input, dates) {
            Some(sent) => Instead::Sent(sent),
            None => Instead::Kept,
        };
    }
    if is_note(input) {
        Instead::Note
    } else {
        Instead::Kept
    }
}

// What becomes of the port's line: it is kept if no dialects are asked for, or it is ordinary.
#[inline(always)]
fn other_line<'a>(line: &Line<'a>, input: &'a str, dates: &Dates, are_asked: bool) -> Instead<'a>
    requires { KnowsForm line.now }
    ensures { spec.IsInstead (IsTrue are_asked × (IsOrdinary line.now → ⊥)) dates.now (chars input.entry.now) result }
{
    if !are_asked {
        return Instead::Kept;
    }
    if is_ordinary(line) {
        return Instead::Kept;
    }
    odd_line(input, dates)
}

// Returns the line of a dialect for a text that the port does not parse, if dialects are asked for.
#[inline(always)]
fn last_line<'a>(input: &'a str, dates: &Dates, are_asked: bool) -> Option<SentLine<'a>>
    ensures { MatchOption result (IsTrue are_asked → spec.MayBegin (chars input.entry.now)
        → spec.IsInNone dates.now false (chars input.entry.now))
        (λ it. IsTrue are_asked × spec.MayBegin (chars input.entry.now)
        × spec.IsDialectLine dates.now false (chars input.entry.now) it) }
{
    if !are_asked {
        return None;
    }
    if !may_be_sent(input) {
        return None;
    }
    tried_line(false, input, dates)
}

/// Returns what becomes of the port's line of the text, which is not ordinary. It does not allocate.
///
/// It is for callers that have made something of the port's line already; `sent_line` returns either line.
#[inline(always)]
pub fn line_instead<'a>(
    input: &'a str,
    dates: &Dates,
    variant: Variant,
    dialects: bool,
) -> Instead<'a>
    ensures { spec.IsInstead (spec.AreAsked dialects variant) dates.now (chars input.entry.now) result }
{
    if !asks_dialects(variant, dialects) {
        return Instead::Kept;
    }
    odd_line(input, dates)
}

/// Returns the line of the text as its sender meant it, given the port's line; none if the text is no message. It does
/// not allocate.
///
/// If `dialects` is true and the variant is `Either`, the line of a dialect that the text is in comes before the
/// port's, unless that is ordinary, and what journalctl writes between messages is none. Otherwise the line is the
/// port's.
///
/// A line of the port that has elements is never replaced by a dialect's. A visitor that was given those of the port's
/// line is given those of the returned one by `visit_own`. Nothing of a dialect's line is left unparsed as structured
/// data.
#[inline(always)]
pub fn sent_line<'a>(
    line: &Line<'a>,
    input: &'a str,
    dates: &Dates,
    variant: Variant,
    dialects: bool,
) -> Option<SentLine<'a>>
    requires { KnowsForm line.now }
    ensures reads { (dating : Dating) → IsLineOf variant dating (chars input.entry.now) line.now
        → spec.IsSentAnswer dates.now dating dialects variant (chars input.entry.now) result }
    ensures shown { (dating : Dating) → IsLineOf variant dating (chars input.entry.now) line.now
        → IfSome result (λ it. spec.Shows dates.now dating variant (chars input.entry.now) it) }
    ensures elements { IfSome result (λ it. spec.HasElementsOf it (list_elements line.now.list)) }
    ensures leaves { IfSome result (λ it. (dating : Dating) (unparsed : Text)
        → IsLineOf variant dating (chars input.entry.now) line.now → IsLeftUnparsed it.line unparsed
        → spec.LeavesSent it.dialect variant (chars input.entry.now) unparsed) }
    ensures form { IfSome result (λ it. KnowsForm it.line) }
{
    match other_line(line, input, dates, asks_dialects(variant, dialects)) {
        Instead::Kept => Some(SentLine::of(line, None, None)),
        Instead::Note => None,
        Instead::Sent(sent) => Some(sent),
    }
}

/// Returns the line of a text that the port does not parse, as its sender meant it; none if the text is no message. It
/// does not allocate.
#[inline(always)]
pub fn unread_line<'a>(
    input: &'a str,
    dates: &Dates,
    variant: Variant,
    dialects: bool,
) -> Option<SentLine<'a>>
    ensures reads { (dating : Dating) → IsUnreadable variant dating (chars input.entry.now)
        → spec.IsSentAnswer dates.now dating dialects variant (chars input.entry.now) result }
    ensures shown { (dating : Dating) → IsUnreadable variant dating (chars input.entry.now)
        → IfSome result (λ it. spec.Shows dates.now dating variant (chars input.entry.now) it) }
    ensures dialect { IfSome result (λ it. IsSome it.dialect) }
    ensures leaves { IfSome result (λ it. (unparsed : Text) → IsLeftUnparsed it.line unparsed
        → spec.LeavesSent it.dialect variant (chars input.entry.now) unparsed) }
    ensures form { IfSome result (λ it. KnowsForm it.line) }
{
    last_line(input, dates, asks_dialects(variant, dialects))
}

// Whether dialects are tried: they are asked for, and so are both protocols.
#[inline(always)]
fn asks_dialects(variant: Variant, dialects: bool) -> bool
    ensures { IsTrue result ↔ spec.AreAsked dialects variant }
{
    dialects && matches!(variant, Variant::Either)
}

/// Returns the line of the text as its sender meant it, and none if the text is no message. It does not allocate.
///
/// The arguments are those of `sent_line` and `unread_line`; `dates` has the year and the zone of dates that show none.
#[inline(always)]
pub fn parse_sent_line<'a>(
    input: &'a str,
    dates: &Dates,
    variant: Variant,
    dialects: bool,
) -> Option<SentLine<'a>>
    ensures reads { IsDated dates.now variant (chars input.entry.now) (λ dating.
        spec.IsSentAnswer dates.now dating dialects variant (chars input.entry.now) result) }
    ensures leaves { IfSome result (λ it. (unparsed : Text) → IsLeftUnparsed it.line unparsed
        → spec.LeavesSent it.dialect variant (chars input.entry.now) unparsed) }
    ensures form { IfSome result (λ it. KnowsForm it.line) }
{
    let get_year = |date: IncompleteDate| -> i32
        ensures { IsYearIn dates.entry.now.today date result }
    { dates.year_of(date) };
    match parse_line(input, get_year, None, variant, &dates.zone) {
        Some(line) => sent_line(&line, input, dates, variant, dialects),
        None => unread_line(input, dates, variant, dialects),
    }
}
