//! The call that writes a text as strict RFC 5424, read as its sender meant it.
//!
//! The port reads the text, and an ordinary line is written at once. Every other line goes to the dialects by a call of
//! its own, so that an ordinary line only pays for a look at a few of its fields.
ghost use Rattle.std.specs.Prelude.{◌≡◌, ◌⊎◌, chars, None, MatchOption, MatchResult, true};
ghost use Rattle.syslog_pieces.specs.Timestamp.Zone.{Dating};
ghost use Rattle.syslog_loose.specs.Dates.{IsDated};
ghost use Rattle.syslog_loose.specs.Line.{KnowsForm, line_value};
ghost use Rattle.syslog_loose.specs.Reading.{IsUnreadable};
ghost use Rattle.syslog_loose.specs.Today.{IsYearIn};
ghost use Rattle.syslog_loose.specs.Visit.{IsLineOf};
ghost use Rattle.syslog_loose.specs.declared.fault.ParseFault.TheVariants.{Memory};
ghost use Rattle.syslog_loose.specs.declared.line.Line.{Line as AnyLine};
ghost use Rattle.syslog_dialects.specs.Ordinary.{IsOrdinary};
ghost use Rattle.syslog_dialects.specs.SentReading.{AreAsked, IsNone, IsReadSent};
ghost use Rattle.syslog_strict.specs.Call.{Copies, IsLineText, NoSyslogMsg};
ghost use Rattle.syslog_strict.specs.Pushing.{text_in};
ghost use Rattle.syslog_strict_sent.specs.Converted.{ConvertsSent};

use std::alloc::Global;
use syslog_dialects::{Instead, is_ordinary, line_instead, may_be_sent, unread_line};
use syslog_loose::{Dates, IncompleteDate, Line, ParseFault, Variant, parse_line};
use syslog_strict::{convert_line, copy_text, is_syslog_msg};

/// Replaces `text` by the input as strict RFC 5424: the input itself if it is in the grammar of section 6, and
/// otherwise the message as which its sender meant it, converted. What was left unparsed of the structured data comes
/// before the message part.
///
/// If `dialects` is true and the variant is `Either`, the message is that of the dialect that the input is in, if it is
/// in one and the port's line of it is not ordinary. Otherwise it is the port's. `dates` has the year and the zone of
/// dates that show none. For a text that is not in the grammar and is no message it returns `Invalid`, and never
/// `Memory`. After an `Err`, `text` may hold anything.
pub fn to_rfc5424_sent(
    alloc: Global,
    text: &mut String,
    input: &str,
    dates: &Dates,
    variant: Variant,
    dialects: bool,
) -> Result<(), ParseFault>
    ensures { Copies (chars input.entry.now) result (text_in text.new)
        ⊎ IsDated dates.now variant (chars input.entry.now) (λ dating.
        ConvertsSent dates.now dating dialects variant (chars input.entry.now) result (text_in text.new)) }
{
    if is_syslog_msg(alloc, input) {
        return copy_text(text, input);
    }
    convert_sent(alloc, text, input, dates, variant, dialects)
}

// Writes the converted message of a text that is not in the grammar.
#[inline(always)]
fn convert_sent(
    alloc: Global,
    text: &mut String,
    input: &str,
    dates: &Dates,
    variant: Variant,
    dialects: bool,
) -> Result<(), ParseFault>
    requires { NoSyslogMsg (chars input.now) }
    ensures { IsDated dates.now variant (chars input.entry.now) (λ dating.
        ConvertsSent dates.now dating dialects variant (chars input.entry.now) result (text_in text.new)) }
{
    let get_year = |date: IncompleteDate| -> i32
        ensures { IsYearIn dates.entry.now.today date result }
    { dates.year_of(date) };
    let Some(line) = parse_line(input, get_year, None, variant, &dates.zone) else {
        return convert_unread(alloc, text, input, dates, variant, dialects);
    };
    match convert_before(alloc, text, &line, input, dates, variant, dialects) {
        Some(result) => result,
        None => convert_line::<false>(alloc, text, &line),
    }
}

// Writes the converted message of the dialect that comes before the port's line of a text, or refuses a text that is no
// message; returns none if the port's line is kept.
#[inline(always)]
fn convert_before(
    alloc: Global,
    text: &mut String,
    line: &Line<'_>,
    input: &str,
    dates: &Dates,
    variant: Variant,
    dialects: bool,
) -> Option<Result<(), ParseFault>>
    requires form { KnowsForm line.now }
    requires other { NoSyslogMsg (chars input.now) }
    ensures { (dating : Dating) → IsLineOf variant dating (chars input.entry.now) line.now → MatchOption result
        (IsReadSent dates.now dating dialects variant (chars input.entry.now) None (line_value line.now))
        (λ r. ConvertsSent dates.now dating dialects variant (chars input.entry.now) r (text_in text.new)) }
{
    if is_ordinary(line) {
        return None;
    }
    convert_instead(alloc, text, input, dates, variant, dialects)
}

// Writes the converted message of a text that is not in the grammar and that the port does not parse, if it is one.
#[inline(always)]
fn convert_unread(
    alloc: Global,
    text: &mut String,
    input: &str,
    dates: &Dates,
    variant: Variant,
    dialects: bool,
) -> Result<(), ParseFault>
    requires { NoSyslogMsg (chars input.now) }
    ensures { (dating : Dating) → IsUnreadable variant dating (chars input.entry.now)
        → ConvertsSent dates.now dating dialects variant (chars input.entry.now) result (text_in text.new) }
{
    if may_be_sent(input) {
        convert_last(alloc, text, input, dates, variant, dialects)
    } else {
        Err(ParseFault::Invalid)
    }
}

// Writes the converted message of a text that is not in the grammar and that the port does not parse, by the dialect
// that it is in.
#[cold]
#[inline(never)]
fn convert_last(
    alloc: Global,
    text: &mut String,
    input: &str,
    dates: &Dates,
    variant: Variant,
    dialects: bool,
) -> Result<(), ParseFault>
    requires { NoSyslogMsg (chars input.now) }
    ensures { (dating : Dating) → IsUnreadable variant dating (chars input.entry.now)
        → ConvertsSent dates.now dating dialects variant (chars input.entry.now) result (text_in text.new) }
{
    match unread_line(input, dates, variant, dialects) {
        Some(sent) => convert_apart(alloc, text, &sent.line),
        None => Err(ParseFault::Invalid),
    }
}

// Writes the converted message of the dialect that the text is in, instead of that of the port's line, which is not
// ordinary, or refuses what journalctl writes between messages; returns none if the port's line is kept.
#[cold]
#[inline(never)]
fn convert_instead(
    alloc: Global,
    text: &mut String,
    input: &str,
    dates: &Dates,
    variant: Variant,
    dialects: bool,
) -> Option<Result<(), ParseFault>>
    requires { NoSyslogMsg (chars input.now) }
    ensures { MatchOption result
        (AreAsked dialects variant → IsNone dates.now (chars input.entry.now))
        (λ r. (dating : Dating) (line : AnyLine) → IsLineOf variant dating (chars input.entry.now) line
        → (IsOrdinary line → ⊥)
        → ConvertsSent dates.now dating dialects variant (chars input.entry.now) r (text_in text.new)) }
{
    match line_instead(input, dates, variant, dialects) {
        Instead::Kept => None,
        Instead::Note => Some(Err(ParseFault::Invalid)),
        Instead::Sent(sent) => Some(convert_apart(alloc, text, &sent.line)),
    }
}

// Writes the converted message of a dialect's line.
#[cold]
#[inline(never)]
fn convert_apart(alloc: Global, text: &mut String, line: &Line<'_>) -> Result<(), ParseFault>
    ensures { MatchResult result (λ _. IsLineText line.now (text_in text.new)) (λ fault. fault ≡ Memory) }
{
    convert_line::<true>(alloc, text, line)
}
