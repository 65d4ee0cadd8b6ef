//! The fields of a line, with its elements and without them.
ghost use Rattle.std.specs.Prelude.{◌≡◌, ◌⊎◌, IsUtf8, MatchOption};
ghost use Rattle.std.specs.Str.{chars};
ghost use Rattle.syslog_pieces.specs.Timestamp.Zone.{Dating};
ghost use Rattle.syslog_loose.specs.Dates.{IsDated};
ghost use Rattle.syslog_loose.specs.Reading.{IsUnreadable};
ghost use Rattle.syslog_elements.specs.StructuredData.Visited.{Visits, list_elements};
ghost use Rattle.syslog_c.specs.Arrays.{HasPut, IsFilled};
ghost use Rattle.syslog_c.specs.Line.{OnLine};
ghost use Rattle.syslog_c.specs.Options.{IsTaken};
ghost use Rattle.syslog_c.specs.Outcome.{IsCodeOf};
ghost use Rattle.syslog_c.specs.Reported.{MeansOnly, ReadsInto, ReportsFields};
ghost use Rattle.syslog_c.specs.declared.outcome.Outcome.TheVariants.{BadArgument, NotUtf8};

use crate::arrays::Arrays;
use crate::fields::{Element, Fields, Param};
use crate::options::Options;
use crate::outcome::Outcome;
use crate::rules::Rules;
use crate::sent::{is_note, take_read, take_unread};
use syslog_elements::structured_data::{NoElements, visit_list};
use syslog_loose::{DateForm, ElementList, Itself, LineVisitor, visit_dated_line};
use syslog_utf8::from_utf8;

/// Reads the line: its fields into `fields`, and its elements and their parameters into the two arrays.
///
/// If one of the arrays is too small, `fields` has the numbers that are needed, and both arrays may hold anything. If
/// the line is no message, nothing is written. Nothing is allocated.
#[unsafe(no_mangle)]
pub extern "C" fn syslog_read<'a>(
    line: &'a [u8],
    options: &Options,
    fields: &mut Fields<'a>,
    elements: &mut [Element<'a>],
    params: &mut [Param<'a>],
) -> u32
    ensures { IsCodeOf result (λ outcome. OnLine options.now line.now outcome
        ((fields.new ≡ fields.old) × (elements.new ≡ elements.old) × (params.new ≡ params.old))
        (λ rules dating text. ReadsInto rules dating text
        fields.old fields.new elements.old elements.new params.old params.new outcome)) }
{
    match from_utf8(line) {
        Ok(text) => read_text(text, options, fields, elements, params),
        Err(_) => refused(options) as u32,
    }
}

/// Reads a line that is known to be UTF-8, as `syslog_read` does, and does not look whether it is.
#[unsafe(no_mangle)]
pub extern "C" fn syslog_read_utf8<'a>(
    line: &'a [u8],
    options: &Options,
    fields: &mut Fields<'a>,
    elements: &mut [Element<'a>],
    params: &mut [Param<'a>],
) -> u32
    requires { IsUtf8 line.now }
    ensures { IsCodeOf result (λ outcome. OnLine options.now line.now outcome
        ((fields.new ≡ fields.old) × (elements.new ≡ elements.old) × (params.new ≡ params.old))
        (λ rules dating text. ReadsInto rules dating text
        fields.old fields.new elements.old elements.new params.old params.new outcome)) }
{
    read_text(
        unsafe { str::from_utf8_unchecked(line) },
        options,
        fields,
        elements,
        params,
    )
}

// How reading a line ends that is not UTF-8.
#[cold]
#[inline(never)]
fn refused(options: &Options) -> Outcome
    ensures { ((result ≡ BadArgument) × (IsTaken options.now → ⊥)) ⊎ ((result ≡ NotUtf8) × IsTaken options.now) }
{
    let mut rules = Rules::new();
    if rules.take(options) {
        Outcome::NotUtf8
    } else {
        Outcome::BadArgument
    }
}

// (It takes and returns what the two calls do, so they end in a jump to it.)
#[inline(never)]
fn read_text<'a>(
    text: &'a str,
    options: &Options,
    fields: &mut Fields<'a>,
    elements: &mut [Element<'a>],
    params: &mut [Param<'a>],
) -> u32
    ensures { IsCodeOf result (λ outcome. OnLine options.now text.now outcome
        ((fields.new ≡ fields.old) × (elements.new ≡ elements.old) × (params.new ≡ params.old))
        (λ rules dating text. ReadsInto rules dating text
        fields.old fields.new elements.old elements.new params.old params.new outcome)) }
{
    read_into(text, options, fields, elements, params) as u32
}

#[inline(always)]
fn read_into<'a>(
    text: &'a str,
    options: &Options,
    fields: &mut Fields<'a>,
    elements: &mut [Element<'a>],
    params: &mut [Param<'a>],
) -> Outcome
    ensures { OnLine options.now text.now result
        ((fields.new ≡ fields.old) × (elements.new ≡ elements.old) × (params.new ≡ params.old))
        (λ rules dating text. ReadsInto rules dating text
        fields.old fields.new elements.old elements.new params.old params.new result) }
{
    let mut rules = Rules::new();
    if !rules.take(options) {
        return Outcome::BadArgument;
    }
    if is_note(text, &rules) {
        return Outcome::NoReading;
    }
    let mut arrays = Arrays {
        elements,
        params,
        count: 0,
        filled: 0,
    };
    let dates = &rules.dates;
    let mut form = DateForm::Whole;
    let Some(is_ordinary) = visit_dated_line(
        text,
        |date| dates.year_of(date),
        None,
        rules.variant,
        &dates.zone,
        &mut arrays,
        fields,
        &mut form,
    ) else {
        let Some(own) = take_unread(text, &rules, fields) else {
            return Outcome::NoReading;
        };
        return put_own(Some(own), fields, &mut arrays);
    };
    let own = take_read(text, &rules, is_ordinary, form, fields);
    put_own(own, fields, &mut arrays)
}

// Puts the elements of a dialect's line into the arrays, if there is one. Returns whether the arrays have space for
// what these fields say, as an outcome.
#[inline(always)]
fn put_own<'a>(
    own: Option<ElementList<'a>>,
    fields: &Fields<'a>,
    arrays: &mut Arrays<'a, '_>,
) -> Outcome
    ensures given { MatchOption own.entry (arrays.new ≡ arrays.old)
        (λ list. Visits (λ first now es. HasPut first now es) arrays.old (list_elements list) arrays.new) }
    ensures filled { IsFilled arrays.new fields.now result }
{
    if let Some(list) = own {
        visit_list(&list, arrays);
    }
    if arrays.have_space(fields.elements, fields.params) {
        Outcome::Done
    } else {
        Outcome::NoRoom
    }
}

// Takes the fields of a dialect's line for a text that the port does not parse.
#[inline(always)]
fn read_unread<'a>(text: &'a str, rules: &Rules, fields: &mut Fields<'a>) -> Outcome
    ensures { (dating : Dating) → IsUnreadable rules.now.variant dating (chars text.entry.now)
        → MeansOnly rules.now dating (chars text.entry.now) fields.old fields.new result }
{
    match take_unread(text, rules, fields) {
        Some(_) => Outcome::Done,
        None => Outcome::NoReading,
    }
}

/// Reads the fields of the line into `fields`, with the numbers of its elements and parameters. If the line is no
/// message, nothing is written. Nothing is allocated.
#[unsafe(no_mangle)]
pub extern "C" fn syslog_read_fields<'a>(
    line: &'a [u8],
    options: &Options,
    fields: &mut Fields<'a>,
) -> u32
    ensures { IsCodeOf result (λ outcome. OnLine options.now line.now outcome (fields.new ≡ fields.old)
        (λ rules dating text. ReportsFields rules dating text fields.old fields.new outcome)) }
{
    read_fields(line, options, fields) as u32
}

pub(crate) fn read_fields<'a>(line: &'a [u8], options: &Options, fields: &mut Fields<'a>) -> Outcome
    ensures { OnLine options.now line.now result (fields.new ≡ fields.old)
        (λ rules dating text. ReportsFields rules dating text fields.old fields.new result) }
{
    let mut rules = Rules::new();
    if !rules.take(options) {
        return Outcome::BadArgument;
    }
    let Ok(text) = from_utf8(line) else {
        return Outcome::NotUtf8;
    };
    if is_note(text, &rules) {
        return Outcome::NoReading;
    }
    let dates = &rules.dates;
    // (by the visitor alone LLVM inlines neither of the two readings)
    let mut form = DateForm::Whole;
    let Some(line) = visit_dated_line(
        text,
        |date| dates.year_of(date),
        None,
        rules.variant,
        &dates.zone,
        &mut NoElements,
        &mut Itself,
        &mut form,
    ) else {
        return read_unread(text, &rules, fields);
    };
    let is_ordinary = fields.line(&line);
    let _ = take_read(text, &rules, is_ordinary, form, fields);
    Outcome::Done
}
