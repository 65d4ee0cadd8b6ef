//! The calls that write a text as strict RFC 5424.
ghost use Rattle.std.specs.Prelude.{◌≡◌, ◌⊎◌, ◌↔◌, MatchResult};
ghost use Rattle.std.specs.Str.{chars};
ghost use Rattle.syslog_loose.specs.Reading.{AnswersEachMonth, InYear, IsUnreadable};
ghost use Rattle.syslog_loose.specs.declared.fault.ParseFault.TheVariants.{Invalid, Memory};
ghost use Rattle.syslog_pieces.specs.Timestamp.Zone.{dating_of};
ghost use Rattle.syslog_strict.specs.Call.{Converts, Copies, IsConvertedText, NoSyslogMsg};
ghost use Rattle.syslog_strict.specs.Grammar.{IsSyslogMsg};
ghost use Rattle.syslog_strict.specs.Pushing.{text_in};

use crate::conversion::convert_line;
use crate::text::push_text;
use crate::valid::is_syslog_msg;
use std::alloc::Global;
use syslog_loose::{IncompleteDate, ParseFault, TimeZone, Variant, parse_line};

/// Replaces `text` by the input as strict RFC 5424: the input itself if it is in the grammar of section 6, and
/// otherwise its message, converted. What was left unparsed of the structured data comes before the message part.
///
/// `get_year` gives the year of a date that has none. It is called at most once, and only if the text shows such a date
/// and the variant reads it. `tz` is the zone of a date without an offset; `local` is used if that is absent. For a
/// text that is not in the grammar and does not parse it returns `Invalid`, and never `Memory`. After an `Err`, `text`
/// may hold anything.
pub fn to_rfc5424_into<F: FnOnce(IncompleteDate) -> i32>(
    alloc: Global,
    text: &mut String,
    input: &str,
    get_year: F,
    tz: Option<&TimeZone<'_>>,
    variant: Variant,
    local: &TimeZone<'_>,
) -> Result<(), ParseFault>
    requires { AnswersEachMonth (F.pre get_year) }
    ensures { Copies (chars input.entry.now) result (text_in text.new)
        ⊎ InYear (F.post get_year) variant (chars input.entry.now) (λ year.
        Converts variant (dating_of year tz.entry local.entry) (chars input.entry.now) result (text_in text.new)) }
{
    if is_syslog_msg(alloc, input) {
        return copy_text(text, input);
    }
    convert(alloc, text, input, get_year, tz, variant, local)
}

/// Replaces `text` by a copy of the input. It fails only if an allocation does.
#[inline(always)]
pub fn copy_text(text: &mut String, input: &str) -> Result<(), ParseFault>
    ensures { MatchResult result (λ _. text_in text.new ≡ chars input.now) (λ fault. fault ≡ Memory) }
{
    text.clear();
    match push_text(text, input) {
        Ok(()) => Ok(()),
        Err(_) => Err(ParseFault::Memory),
    }
}

// Writes the converted message of a text that is not in the grammar.
#[inline(always)]
fn convert<F: FnOnce(IncompleteDate) -> i32>(
    alloc: Global,
    text: &mut String,
    input: &str,
    get_year: F,
    tz: Option<&TimeZone<'_>>,
    variant: Variant,
    local: &TimeZone<'_>,
) -> Result<(), ParseFault>
    requires year { AnswersEachMonth (F.pre get_year) }
    requires other { NoSyslogMsg (chars input.now) }
    ensures { InYear (F.post get_year) variant (chars input.entry.now) (λ year.
        Converts variant (dating_of year tz.entry local.entry) (chars input.entry.now) result (text_in text.new)) }
{
    let Some(line) = parse_line(input, get_year, tz, variant, local) else {
        return Err(ParseFault::Invalid);
    };
    convert_line::<false>(alloc, text, &line)
}

/// Returns the text as strict RFC 5424 in a new `String`, as `to_rfc5424_into` writes it.
pub fn to_rfc5424<F: FnOnce(IncompleteDate) -> i32>(
    alloc: Global,
    input: &str,
    get_year: F,
    tz: Option<&TimeZone<'_>>,
    variant: Variant,
    local: &TimeZone<'_>,
) -> Result<String, ParseFault>
    requires { AnswersEachMonth (F.pre get_year) }
    ensures { (IsSyslogMsg (chars input.entry.now) × MatchResult result (λ text. text_in text ≡ chars input.entry.now)
        (λ fault. fault ≡ Memory))
        ⊎ InYear (F.post get_year) variant (chars input.entry.now) (λ year. NoSyslogMsg (chars input.entry.now)
        × MatchResult result
        (λ text. IsConvertedText variant (dating_of year tz.entry local.entry) (chars input.entry.now) (text_in text))
        (λ fault. (fault ≡ Invalid)
        ↔ IsUnreadable variant (dating_of year tz.entry local.entry) (chars input.entry.now))) }
{
    let mut text = String::new(alloc);
    match to_rfc5424_into(alloc, &mut text, input, get_year, tz, variant, local) {
        Ok(()) => Ok(text),
        Err(fault) => Err(fault),
    }
}
