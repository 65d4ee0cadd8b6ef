//! The one way from a text to a line, and to whatever a visitor makes of the line.
//!
//! A text is trimmed once, and its priority and its month date are read once. After a month date RFC 5424 is not tried.
//! If the date has no year, the closure is asked for it.
ghost use Rattle.std.specs.Prelude.{◌≡◌, ◌≢◌};
ghost use Rattle.syslog_loose.specs.Words.{IfSome, IsSome, MatchOption, None, chars, Text, shown, list_elements};
ghost use Rattle.syslog_loose.specs.Words.{Visits, header_stamp, stamp_seen, dating_of, MonthDate, month_date};
ghost use Rattle.syslog_text.specs.Text.{trimmed as trimmed_text};
ghost use Rattle.syslog_pieces.specs.Timestamp.Zone.{Dating as AnyDating};
ghost use Rattle.syslog_loose.specs.declared.variant.Variant.TheVariants.{RFC3164};
ghost use Rattle.syslog_loose.specs.Clauses.{KnowsForm, AnswersEachMonth, InYear, IsUnreadable, IsLine3164, IsLine5424};
ghost use Rattle.syslog_loose.specs.Clauses.{IsNot5424, BeginsWith, BeginsWithout, IsAfterPriority, IsAfterStamp};
ghost use Rattle.syslog_loose.specs.Clauses.{IsLineOf, Made, Line, Variant, incomplete, HasDateForm, MadeOf};

use crate::date_form::{DateForm, form_of};
use crate::line::Line;
use crate::rfc3164::read_3164;
use crate::rfc5424::read_5424;
use crate::variant::{IncompleteDate, Variant};
use jiff::tz::TimeZone;
use std::mem::drop;
use syslog_elements::structured_data::{ElementVisitor, NoElements};
use syslog_pieces::pri::optional_priority;
use syslog_pieces::timestamp::month_date::{MonthDate, month_date};
use syslog_pieces::timestamp::zone::{Dating, month_stamp};
use syslog_pieces::timestamp::{ClockStamp, header_stamp};
use syslog_text::text::{begins_with_digit, blanks, trimmed};

/// Makes something of a line. The result is returned from where the line was read, so that few fields of the line need
/// to be kept in memory.
pub trait LineVisitor<'a> {
    /// The type of the result.
    type Answer;

    // what is made of a line, and how it leaves the visitor
    ghost makes: { Self → Line → Self.Answer → Self → Type 0 };

    /// Takes the line, and returns the result.
    fn line(&mut self, line: &Line<'a>) -> Self::Answer
        requires form { KnowsForm line.now }
        ensures { makes self.old line.now result self.new };
}

// Returns what the visitor makes of a line of RFC 5424, from after its priority on; none if the variant excludes RFC
// 5424, or the text does not parse. Whether a version begins the text is tested before the call.
#[inline(always)]
fn visit_5424<'a, E: ElementVisitor<'a>, V: LineVisitor<'a>>(
    priority: Option<u8>,
    text: &'a str,
    variant: Variant,
    elements: &mut E,
    visitor: &mut V,
) -> Option<V::Answer>
    ensures { (whole : Text) → IsAfterPriority (trimmed_text whole) priority (chars text.entry.now)
        → MadeOf V.makes E.was_given (variant ≢ RFC3164 → IsNot5424 whole) (λ line. variant ≢ RFC3164
        × IsLine5424 whole line) visitor.old elements.old result visitor.new elements.new }
{
    if !variant.reads_rfc5424() {
        return None;
    }
    if !begins_with_digit(text.as_bytes()) {
        return None;
    }
    visit_versioned(priority, text, elements, visitor)
}

// Returns what the visitor makes of a text that begins with a digit, as a line of RFC 5424. It is a call of its own.
fn visit_versioned<'a, E: ElementVisitor<'a>, V: LineVisitor<'a>>(
    priority: Option<u8>,
    text: &'a str,
    elements: &mut E,
    visitor: &mut V,
) -> Option<V::Answer>
    ensures { (whole : Text) → IsAfterPriority (trimmed_text whole) priority (chars text.entry.now)
        → MadeOf V.makes E.was_given (IsNot5424 whole) (IsLine5424 whole)
        visitor.old elements.old result visitor.new elements.new }
{
    let Some(line) = read_5424::<V, E>(priority, text, elements) else {
        return None;
    };
    Some(visitor.line(&line))
}

// Returns what the visitor makes of a line of RFC 3164, from after its timestamp on.
fn visit_3164<'a, E: ElementVisitor<'a>, V: LineVisitor<'a>>(
    priority: Option<u8>,
    timestamp: Option<ClockStamp>,
    text: &'a str,
    elements: &mut E,
    visitor: &mut V,
) -> V::Answer
    ensures { (line : Line) × ((dating : AnyDating) (whole : Text)
        → IsAfterStamp dating (trimmed_text whole) priority timestamp (chars text.entry.now)
        → IsLine3164 dating whole line)
        × V.makes visitor.old line result visitor.new
        × Visits E.was_given elements.old (list_elements line.list) elements.new }
{
    let line = read_3164::<V, E>(priority, timestamp, text, elements);
    visitor.line(&line)
}

// Returns the month date after a priority, if the variant reads such dates, and the text after it.
#[inline(always)]
fn front_date(text: &str, variant: Variant) -> Option<(MonthDate, &str)>
    ensures { MatchOption result (BeginsWithout month_date variant (chars text.now))
        (λ x. BeginsWith month_date variant (chars text.now) x.0 (shown x.1)) }
{
    if variant.reads_rfc3164() {
        month_date(blanks(text))
    } else {
        None
    }
}

// Returns the timestamp after a priority that is no month date, if the variant reads RFC 3164, and the text after it.
#[inline(always)]
fn front_stamp(text: &str, variant: Variant) -> Option<(Option<ClockStamp>, &str)>
    ensures { MatchOption result (BeginsWithout header_stamp variant (chars text.now))
        (λ x. BeginsWith header_stamp variant (chars text.now) (stamp_seen x.0) (shown x.1)) }
{
    if variant.reads_rfc3164() {
        header_stamp(blanks(text))
    } else {
        None
    }
}

// Returns the numbers of a date whose year has to be asked for.
#[inline(always)]
fn asked_numbers(date: MonthDate) -> Option<IncompleteDate>
    ensures { MatchOption result (IsSome date.year) (λ d. (date.year ≡ None) × (d ≡ incomplete date)) }
{
    match date.year {
        Some(_) => None,
        None => Some((date.month, date.day, date.hour, date.minute, date.second)),
    }
}

/// Returns what the visitor makes of the line of a text that begins with no month date, from after its priority on.
#[inline(always)]
#[tactic(auto, using(crate::proofs::ReadingLemmas::undated_invalid))]
pub(crate) fn visit_undated<'a, E: ElementVisitor<'a>, V: LineVisitor<'a>>(
    priority: Option<u8>,
    text: &'a str,
    variant: Variant,
    elements: &mut E,
    visitor: &mut V,
) -> Option<V::Answer>
    ensures { (whole : Text) → IsAfterPriority (trimmed_text whole) priority (chars text.entry.now)
        → BeginsWithout month_date variant (chars text.entry.now) → (dating : AnyDating)
        → Made V.makes E.was_given variant dating whole visitor.old elements.old result visitor.new elements.new }
{
    if let Some(made) = visit_5424(priority, text, variant, elements, visitor) {
        return Some(made);
    }
    let Some((timestamp, rest)) = front_stamp(text, variant) else {
        return None;
    };
    Some(visit_3164(priority, timestamp, rest, elements, visitor))
}

/// Returns what the visitor makes of the line that the text is parsed as, and none if it does not parse.
///
/// While the text is read, `elements` is given the strict elements of the line, before the visitor takes the line. If
/// the text does not parse, it is given none.
///
/// `get_year` gives the year of a date that has none. It is called once, and only if the text shows such a date and the
/// variant reads it. `tz` is the zone of a date without an offset; `local` is used if that is absent. Nothing is
/// allocated but by the two visitors.
#[inline(always)]
pub fn visit_line<'a, F: FnOnce(IncompleteDate) -> i32, E: ElementVisitor<'a>, V: LineVisitor<'a>>(
    input: &'a str,
    get_year: F,
    tz: Option<&TimeZone<'_>>,
    variant: Variant,
    local: &TimeZone<'_>,
    elements: &mut E,
    visitor: &mut V,
) -> Option<V::Answer>
    requires { AnswersEachMonth (F.pre get_year) }
    ensures { InYear (F.post get_year) variant (chars input.entry.now) (λ year. Made V.makes E.was_given variant
        (dating_of year tz.entry local.entry) (chars input.entry.now)
        visitor.old elements.old result visitor.new elements.new) }
{
    let mut form = DateForm::Whole;
    visit_dated_line(
        input, get_year, tz, variant, local, elements, visitor, &mut form,
    )
}

/// Returns what `visit_line` does, and sets `form` to the form of the date that the text shows. The other arguments are
/// those of `visit_line`.
#[inline(always)]
#[tactic(auto, using(crate::proofs::ReadingLemmas::asks_none, crate::proofs::ReadingLemmas::undated_invalid))]
pub fn visit_dated_line<
    'a,
    F: FnOnce(IncompleteDate) -> i32,
    E: ElementVisitor<'a>,
    V: LineVisitor<'a>,
>(
    input: &'a str,
    get_year: F,
    tz: Option<&TimeZone<'_>>,
    variant: Variant,
    local: &TimeZone<'_>,
    elements: &mut E,
    visitor: &mut V,
    form: &mut DateForm,
) -> Option<V::Answer>
    requires { AnswersEachMonth (F.pre get_year) }
    ensures makes { InYear (F.post get_year) variant (chars input.entry.now) (λ year. Made V.makes E.was_given variant
        (dating_of year tz.entry local.entry) (chars input.entry.now)
        visitor.old elements.old result visitor.new elements.new) }
    ensures form { IfSome result (λ _. HasDateForm (chars input.entry.now) form.new) }
{
    let (priority, after_priority) = optional_priority(trimmed(input));
    *form = DateForm::Whole;
    let (timestamp, rest) = match front_date(after_priority, variant) {
        Some((date, rest)) => {
            let year = asked_numbers(date).map(get_year);
            let Some(stamp) = month_stamp(date, &Dating { year, tz, local }) else {
                return None;
            };
            *form = form_of(date);
            (Some(stamp), rest)
        }
        None => {
            // Dropped here: where a flag says whether it was used, LLVM makes two calls of the last line's one.
            drop(get_year);
            if let Some(made) = visit_5424(priority, after_priority, variant, elements, visitor) {
                return Some(made);
            }
            let Some((stamp, rest)) = front_stamp(after_priority, variant) else {
                return None;
            };
            (stamp, rest)
        }
    };
    Some(visit_3164(priority, timestamp, rest, elements, visitor))
}

/// The visitor that returns the line itself.
#[derive(Clone, Copy)]
pub struct Itself;

impl<'a> LineVisitor<'a> for Itself {
    type Answer = Line<'a>;

    ghost makes = { λ old line made new. (made ≡ line) × KnowsForm line };

    #[inline(always)]
    fn line(&mut self, line: &Line<'a>) -> Line<'a>
        requires form { KnowsForm line.now }
        ensures { (result ≡ line.now) × KnowsForm line.now }
    {
        Line {
            rest: line.rest,
            ..*line
        }
    }
}

/// Returns the line that the text is parsed as, and none if it does not parse. It does not allocate.
///
/// Each text of the line is a slice of the input.
///
/// The arguments are those of `visit_line`.
#[inline(always)]
pub fn parse_line<'a, F: FnOnce(IncompleteDate) -> i32>(
    input: &'a str,
    get_year: F,
    tz: Option<&TimeZone<'_>>,
    variant: Variant,
    local: &TimeZone<'_>,
) -> Option<Line<'a>>
    requires { AnswersEachMonth (F.pre get_year) }
    ensures reads { InYear (F.post get_year) variant (chars input.entry.now) (λ year. MatchOption result
        (IsUnreadable variant (dating_of year tz.entry local.entry) (chars input.entry.now))
        (λ line. IsLineOf variant (dating_of year tz.entry local.entry) (chars input.entry.now) line)) }
    ensures form { IfSome result KnowsForm }
{
    visit_line(
        input,
        get_year,
        tz,
        variant,
        local,
        &mut NoElements,
        &mut Itself,
    )
}
