//! The calls that read a text.
//!
//! Each of them goes by `visit_line`, and collects the elements of the line. The calls with `exact` in their names
//! return an error for a text that does not parse; the others return the fallback, as the Rust crate does.
ghost use Rattle.std.specs.Prelude.{◌≡◌};
ghost use Rattle.syslog_loose.specs.Words.{List, [], IfOk, None, chars, plain_zone, shown, dating_of, ElementValue};
ghost use Rattle.syslog_pieces.specs.Timestamp.Zone.{IsYearAt};
ghost use Rattle.syslog_elements.specs.StructuredData.Collected.{HasCollected};
ghost use Rattle.syslog_pieces.specs.Timestamp.Zone as zone;
ghost use Rattle.syslog_loose.specs.Reading as spec;
ghost use Rattle.syslog_loose.specs.Clauses.{line_value, message_value, with_elements, IsCompleted, AnswersItself};
ghost use Rattle.syslog_loose.specs.Clauses.{FieldsAsRead, Answers, AnswersEachMonth, AnswersOrWhole, InYear, IsQuoted};
ghost use Rattle.syslog_loose.specs.Clauses.{Variant};

use crate::fault::ParseFault;
use crate::line::Line;
use crate::message::{Message, Protocol};
use crate::variant::{IncompleteDate, Variant};
use crate::visit::{LineVisitor, visit_line};
use jiff::Timestamp;
use jiff::tz::TimeZone;
use std::alloc::{AllocError, Global};
use syslog_elements::structured_data::Collect;
use syslog_pieces::timestamp::year_at;

/// Returns the message of the text, read by the variant. A date without a year is of the year of `now` in the local
/// zone.
///
/// For a text that does not parse it returns the fallback: a message of RFC 3164 with the whole input as `msg`, and
/// nothing else. It fails only if an allocation does, and allocates only to collect elements.
pub fn parse_message<'a>(
    alloc: Global,
    input: &'a str,
    variant: Variant,
    now: Timestamp,
    local: &TimeZone<'_>,
) -> Result<Message<&'a str>, AllocError>
    ensures reads { InYear (λ _ year. IsYearAt (plain_zone local.entry.now) now.nanosecond year) variant
        (chars input.entry.now)
        (λ year. AnswersOrWhole variant (dating_of year None local.entry) (chars input.entry.now) result) }
{
    let current_year = |_: IncompleteDate| -> i32
        ensures { IsYearAt (plain_zone local.entry.now) now.nanosecond result }
    { year_at(now, local) };
    parse_message_with_year_tz(alloc, input, current_year, None, variant, local)
}

/// Returns the message of the text, read by the variant, or the fallback if it does not parse. `get_year` gives the
/// year of a date that has none, and dates without an offset are in the local zone.
pub fn parse_message_with_year<'a, F: FnOnce(IncompleteDate) -> i32>(
    alloc: Global,
    input: &'a str,
    get_year: F,
    variant: Variant,
    local: &TimeZone<'_>,
) -> Result<Message<&'a str>, AllocError>
    requires { AnswersEachMonth (F.pre get_year) }
    ensures reads { InYear (F.post get_year) variant (chars input.entry.now)
        (λ year. AnswersOrWhole variant (dating_of year None local.entry) (chars input.entry.now) result) }
{
    parse_message_with_year_tz(alloc, input, get_year, None, variant, local)
}

/// Returns the message of the text, read by the variant, or the fallback if it does not parse. `get_year` gives the
/// year of a date that has none. Dates without an offset are in the zone `tz`, or in the local one if that is absent.
pub fn parse_message_with_year_tz<'a, F: FnOnce(IncompleteDate) -> i32>(
    alloc: Global,
    input: &'a str,
    get_year: F,
    tz: Option<&TimeZone<'_>>,
    variant: Variant,
    local: &TimeZone<'_>,
) -> Result<Message<&'a str>, AllocError>
    requires { AnswersEachMonth (F.pre get_year) }
    ensures reads { InYear (F.post get_year) variant (chars input.entry.now)
        (λ year. AnswersOrWhole variant (dating_of year tz.entry local.entry) (chars input.entry.now) result) }
{
    let answer = parse_message_with_year_exact_tz(alloc, input, get_year, tz, variant, local);
    or_fallback(alloc, input, answer)
}

// Returns the fallback instead of `Invalid`.
fn or_fallback<'a>(
    alloc: Global,
    input: &'a str,
    answer: Result<Message<&'a str>, ParseFault>,
) -> Result<Message<&'a str>, AllocError>
    ensures { (variant : Variant) (dating : zone.Dating) → Answers variant dating (chars input.entry.now) answer.entry
        → AnswersOrWhole variant dating (chars input.entry.now) result }
{
    match answer {
        Ok(message) => Ok(message),
        Err(ParseFault::Invalid) => Ok(fallback(alloc, input)),
        Err(ParseFault::Memory) => Err(AllocError),
    }
}

// Returns the fallback: a message of RFC 3164 that has the whole text as its `msg`.
fn fallback(alloc: Global, input: &str) -> Message<&str>
    ensures { message_value (λ s. shown s) result ≡ spec.fallback (chars input.now) }
{
    Message {
        protocol: Protocol::RFC3164,
        facility: None,
        severity: None,
        timestamp: None,
        hostname: None,
        appname: None,
        procid: None,
        msgid: None,
        structured_data: Vec::new(alloc),
        msg: input,
    }
}

/// Returns the message of the text, read by the variant, or `Invalid` if it does not parse. `get_year` gives the year
/// of a date that has none, and dates without an offset are in the local zone.
pub fn parse_message_with_year_exact<'a, F: FnOnce(IncompleteDate) -> i32>(
    alloc: Global,
    input: &'a str,
    get_year: F,
    variant: Variant,
    local: &TimeZone<'_>,
) -> Result<Message<&'a str>, ParseFault>
    requires { AnswersEachMonth (F.pre get_year) }
    ensures reads { InYear (F.post get_year) variant (chars input.entry.now)
        (λ year. Answers variant (dating_of year None local.entry) (chars input.entry.now) result) }
    ensures itself { AnswersItself variant (chars input.entry.now) result }
    ensures fields { InYear (F.post get_year) variant (chars input.entry.now) (λ year. IfOk result (λ m.
        FieldsAsRead m.protocol (dating_of year None local.entry) (chars input.entry.now)
        (message_value (λ s. shown s) m))) }
    ensures quotes { InYear (F.post get_year) variant (chars input.entry.now) (λ year. IfOk result (λ m.
        IsQuoted variant (dating_of year None local.entry) (chars input.entry.now) (message_value (λ s. shown s) m))) }
{
    parse_message_with_year_exact_tz(alloc, input, get_year, None, variant, local)
}

/// Returns the message of the text, read by the variant, or `Invalid` if it does not parse.
///
/// `get_year` gives the year of a date that has none. It is called once, and only if the text shows such a date and the
/// variant reads it. `tz` is the zone of a date without an offset; `local` is used if that is absent. Each text of the
/// message is a slice of the input. Only the elements are allocated, and `Memory` says that this failed.
#[inline]
pub fn parse_message_with_year_exact_tz<'a, F: FnOnce(IncompleteDate) -> i32>(
    alloc: Global,
    input: &'a str,
    get_year: F,
    tz: Option<&TimeZone<'_>>,
    variant: Variant,
    local: &TimeZone<'_>,
) -> Result<Message<&'a str>, ParseFault>
    requires { AnswersEachMonth (F.pre get_year) }
    ensures reads { InYear (F.post get_year) variant (chars input.entry.now)
        (λ year. Answers variant (dating_of year tz.entry local.entry) (chars input.entry.now) result) }
    // A printed message is read as itself exactly if it meets the written condition. The clause also says what is known
    // of the fields, and that each text of the message is a part of a piece of the text.
    ensures itself { AnswersItself variant (chars input.entry.now) result }
    ensures fields { InYear (F.post get_year) variant (chars input.entry.now) (λ year. IfOk result (λ m.
        FieldsAsRead m.protocol (dating_of year tz.entry local.entry) (chars input.entry.now)
        (message_value (λ s. shown s) m))) }
    ensures quotes { InYear (F.post get_year) variant (chars input.entry.now) (λ year. IfOk result (λ m.
        IsQuoted variant (dating_of year tz.entry local.entry) (chars input.entry.now)
        (message_value (λ s. shown s) m))) }
{
    let mut collect = Collect::new(alloc);
    let mut headers = Headers { alloc };
    let made = visit_line(
        input,
        get_year,
        tz,
        variant,
        local,
        &mut collect,
        &mut headers,
    );
    answer_of(made, collect)
}

// Returns the message with the elements that were collected, or why there is none.
#[inline(always)]
fn answer_of<'a>(
    made: Option<Message<&'a str>>,
    collect: Collect<'a>,
) -> Result<Message<&'a str>, ParseFault>
    ensures { (es : List ElementValue) → HasCollected collect.entry es → IsCompleted made.entry es result }
{
    let Some(mut message) = made else {
        return Err(ParseFault::Invalid);
    };
    match collect.finish() {
        Ok(elements) => {
            message.structured_data = elements;
            Ok(message)
        }
        Err(_) => Err(ParseFault::Memory),
    }
}

// The visitor that returns the message of a line, without its elements.
#[derive(Clone, Copy)]
struct Headers {
    alloc: Global,
}

impl<'a> LineVisitor<'a> for Headers {
    type Answer = Message<&'a str>;

    ghost makes = { λ old line made new. message_value (λ s. shown s) made ≡ with_elements (line_value line) [] };

    #[inline(always)]
    fn line(&mut self, line: &Line<'a>) -> Message<&'a str>
        ensures { message_value (λ s. shown s) result ≡ with_elements (line_value line.now) [] }
    {
        line.with(Vec::new(self.alloc))
    }
}
