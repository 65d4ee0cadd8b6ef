//! The fields of a line that may be in a dialect, after the port has read the text.
//!
//! A visitor takes the fields of the port's line at once, so that an ordinary line only costs a look at whether it is
//! one. A dialect's line is made afterwards.
ghost use Rattle.std.specs.Prelude.{◌≡◌, None, Some, MatchBool, MatchOption};
ghost use Rattle.std.specs.Str.{chars};
ghost use Rattle.syslog_text.specs.Pieces.Class.{Text as AnyText};
ghost use Rattle.syslog_elements.specs.StructuredData.Visited.{list_elements};
ghost use Rattle.syslog_pieces.specs.Timestamp.Zone.{Dating};
ghost use Rattle.syslog_loose.specs.DateForm.{HasDateForm};
ghost use Rattle.syslog_loose.specs.Dates.{IsDated};
ghost use Rattle.syslog_loose.specs.Line.{line_value};
ghost use Rattle.syslog_loose.specs.Reading.{IsUnreadable};
ghost use Rattle.syslog_loose.specs.Visit.{IsLineOf};
ghost use Rattle.syslog_loose.specs.declared.line.Line.{Line as AnyLine};
ghost use Rattle.syslog_dialects.specs.Ordinary.{IsOrdinary};
ghost use Rattle.syslog_dialects.specs.SentReading.{IsUnsent, Shows};
ghost use Rattle.syslog_sent.specs.declared.dialect.Dialect.{Dialect};
ghost use Rattle.syslog_c.specs.OfLine.{AreOfLine};
ghost use Rattle.syslog_c.specs.Shown.{IsShownIn};
ghost use Rattle.syslog_c.specs.Reported.{AreMeant, AreTaken};
ghost use Rattle.syslog_c.specs.Sent.{IsNoNote, IsUnnoted};
ghost use Rattle.syslog_c.specs.declared.rules.Rules.{Rules as AnyRules};

use crate::convert::fields_of;
use crate::fields::Fields;
use crate::rules::Rules;
use crate::shown::{show, with_flags};
use syslog_dialects::{Instead, SentLine, line_instead, may_be_note, parse_sent_line, unread_line};
use syslog_loose::{DateForm, ElementList};
use syslog_sent::named::past;
use syslog_text::text::trimmed;

/// Returns whether the text is no message, where it may be a line that journalctl writes between messages.
///
/// For such a line nothing is to be written, and the fields of the port's line are written before it is known whether
/// that is ordinary. So this is asked first. Most lines are told by their first byte.
#[inline(always)]
pub(crate) fn is_note(text: &str, rules: &Rules) -> bool
    ensures { MatchBool result
        (IsDated rules.now.dates rules.now.variant (chars text.now) (λ dating.
        IsUnsent rules.now.dates dating rules.now.dialects rules.now.variant (chars text.now)))
        (IsNoNote rules.now (chars text.now)) }
{
    if !may_be_note(text) {
        return false;
    }
    is_unsent(text, rules)
}

// Returns whether the text is no message, if it begins with two dashes and a space. Any other is read only once.
#[cold]
#[inline(never)]
fn is_unsent(text: &str, rules: &Rules) -> bool
    ensures { MatchBool result
        (IsDated rules.now.dates rules.now.variant (chars text.now) (λ dating.
        IsUnsent rules.now.dates dating rules.now.dialects rules.now.variant (chars text.now)))
        (IsNoNote rules.now (chars text.now)) }
{
    let Some(_rest) = past(trimmed(text), "-- ") else {
        return false;
    };
    match parse_sent_line(text, &rules.dates, rules.variant, rules.dialects) {
        Some(_sent) => false,
        None => true,
    }
}

/// Completes the fields of the port's line, whose date has this form. If that line keeps its reading, they get what the
/// text shows of the date; otherwise those of a dialect's line replace them, whose elements are returned. The text is
/// no line between messages.
#[inline(always)]
pub(crate) fn take_read<'a>(
    text: &'a str,
    rules: &Rules,
    is_ordinary: bool,
    form: DateForm,
    fields: &mut Fields<'a>,
) -> Option<ElementList<'a>>
    ensures { HasDateForm (chars text.entry.now) form → (dating : Dating) (line : AnyLine)
        → IsLineOf rules.now.variant dating (chars text.entry.now) line
        → AreOfLine fields.old None line
        → MatchBool is_ordinary (IsOrdinary line) (IsOrdinary line → ⊥)
        → IsUnnoted rules.now dating (chars text.entry.now)
        → AreTaken rules.now dating (chars text.entry.now) (list_elements line.list) result fields.new }
{
    if is_ordinary {
        show_port(form, fields);
        return None;
    }
    take_instead(text, rules, form, fields)
}

// Takes the fields of a dialect's line in the place of the port's, which are completed if there is none, and returns
// its elements. It is a call of its own, since the space for such a line would otherwise be cleared for each line.
#[inline(never)]
fn take_instead<'a>(
    text: &'a str,
    rules: &Rules,
    form: DateForm,
    fields: &mut Fields<'a>,
) -> Option<ElementList<'a>>
    ensures { HasDateForm (chars text.entry.now) form → (dating : Dating) (line : AnyLine)
        → IsLineOf rules.now.variant dating (chars text.entry.now) line
        → AreOfLine fields.old None line → (IsOrdinary line → ⊥) → IsUnnoted rules.now dating (chars text.entry.now)
        → AreTaken rules.now dating (chars text.entry.now) (list_elements line.list) result fields.new }
{
    match line_instead(text, &rules.dates, rules.variant, rules.dialects) {
        Instead::Kept => {
            show_port(form, fields);
            None
        }
        // (such a text was refused before)
        Instead::Note => None,
        Instead::Sent(sent) => {
            *fields = fields_sent(&sent);
            Some(sent.line.list)
        }
    }
}

/// Takes the fields of a dialect's line, for a text that the port does not parse, and returns its elements; none if
/// there is no such line.
#[inline(always)]
pub(crate) fn take_unread<'a>(
    text: &'a str,
    rules: &Rules,
    fields: &mut Fields<'a>,
) -> Option<ElementList<'a>>
    ensures { (dating : Dating) → IsUnreadable rules.now.variant dating (chars text.entry.now) → MatchOption result
        (IsUnsent rules.now.dates dating rules.now.dialects rules.now.variant (chars text.entry.now)
        × (fields.new ≡ fields.old))
        (λ list. AreMeant rules.now dating (chars text.entry.now) (list_elements list) fields.new) }
{
    let Some(sent) = unread_line(text, &rules.dates, rules.variant, rules.dialects) else {
        return None;
    };
    *fields = fields_sent(&sent);
    Some(sent.line.list)
}

// Completes the fields of the port's line by what its text shows of the date, which has this form.
#[inline(always)]
fn show_port(form: DateForm, fields: &mut Fields<'_>)
    ensures { (text : AnyText) → HasDateForm text form → (rules : AnyRules) (dating : Dating) (line : AnyLine)
        → IsLineOf rules.variant dating text line → AreOfLine fields.old None line
        → AreOfLine fields.new None line × IsShownIn rules dating text None (line_value line) fields.new.timestamp }
{
    let protocol = fields.protocol;
    show(form, protocol, &mut fields.timestamp);
}

// The fields of a dialect's line, with what it shows of its date.
fn fields_sent<'a>(sent: &SentLine<'a>) -> Fields<'a>
    ensures { (rules : AnyRules) (dating : Dating) (text : AnyText) (dialect : Dialect)
        → sent.now.dialect ≡ Some dialect → Shows rules.dates dating rules.variant text sent.now
        → AreOfLine result sent.now.dialect sent.now.line
        × IsShownIn rules dating text sent.now.dialect (line_value sent.now.line) result.timestamp }
{
    let mut fields = fields_of(&sent.line, sent.dialect);
    fields.timestamp = with_flags(fields.timestamp, sent.shows_year, sent.shows_offset);
    fields
}
