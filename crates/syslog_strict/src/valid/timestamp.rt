//! TIMESTAMP of RFC 5424 (section 6.2.3). The functions are named after its rules.
ghost use Rattle.std.specs.Prelude.{◌∷◌, ◌<◌, [], MatchBool, Option, pos};
ghost use Rattle.std.specs.Char.{is_ascii_digit};
ghost use Rattle.std.specs.Str.{chars};
ghost use Rattle.jiff_core.specs.Calendar.{IsCivilDate};
ghost use Rattle.syslog_text.specs.Pieces.Class.{Front, Row, after, exactly, optional};
ghost use Rattle.syslog_text.specs.Pieces.Rules.{short_run};
ghost use Rattle.syslog_text.specs.Pieces.View.{Recognises, shown};
ghost use Rattle.syslog_strict.specs.Grammar as grammar;

use jiff::civil::Date;
use syslog_pieces::timestamp::pairs::{pair, pair_after, year};
use syslog_text::text::bounded::short_run;
use syslog_text::text::{CharClass, literal};

// Whether the calendar has the date.
#[inline(always)]
fn is_date(year: u16, month: u32, day: u32) -> bool
    requires year { year < 10_000 }
    requires month { month < 100 }
    requires day { day < 100 }
    ensures { MatchBool result (IsCivilDate (pos year) month day) (IsCivilDate (pos year) month day → ⊥) }
{
    Date::new(year as i16, month as i8, day as i8).is_ok()
}

#[inline(always)]
fn full_date(text: &str) -> Option<&str>
    ensures { Recognises grammar.full_date (chars text.now) result }
{
    let (year, after_year) = year(text)?;
    let (month, after_month) = pair_after(after_year, '-', 100)?;
    let (day, rest) = pair_after(after_month, '-', 100)?;
    is_date(year, month, day).then_some(rest)
}

#[inline(always)]
fn time_hour(text: &str) -> Option<&str>
    ensures { Recognises grammar.time_hour (chars text.now) result }
{
    let (_, rest) = pair(text, 24)?;
    Some(rest)
}

// Returns the text after a colon and TIME-MINUTE, or TIME-SECOND, which is the same rule.
#[inline(always)]
fn time_minute(text: &str) -> Option<&str>
    ensures { Recognises (after 58 grammar.time_minute) (chars text.now) result }
{
    let (_, rest) = pair_after(text, ':', 60)?;
    Some(rest)
}

#[inline(always)]
fn decimals(text: &str) -> Option<&str>
    ensures { Recognises (short_run is_ascii_digit 6) (chars text.now) result }
{
    let (_, rest) = short_run(text, CharClass::Digit, 6)?;
    Some(rest)
}

#[tactic(auto, using(crate::proofs::GrammarLemmas::after_reads))]
#[inline(always)]
fn time_secfrac(text: &str) -> Option<&str>
    ensures { Recognises grammar.time_secfrac (chars text.now) result }
{
    literal(text, '.').and_then(decimals)
}

// The text after TIME-SECFRAC, or all of it if there is none.
#[inline(always)]
fn secfrac(text: &str) -> &str
    ensures { (v : Option (Unit {0})) × Front (optional grammar.time_secfrac) (chars text.now) (shown result) v }
{
    match time_secfrac(text) {
        Some(rest) => rest,
        None => text,
    }
}

#[inline(always)]
fn partial_time(text: &str) -> Option<&str>
    ensures { Recognises (Row grammar.partial_time) (chars text.now) result }
{
    time_hour(text)
        .and_then(time_minute)
        .and_then(time_minute)
        .map(secfrac)
}

#[tactic(auto, using(crate::proofs::GrammarLemmas::either_reads))]
#[inline(always)]
fn sign(text: &str) -> Option<&str>
    ensures { Recognises grammar.sign (chars text.now) result }
{
    literal(text, '+').or_else(|| literal(text, '-'))
}

#[inline(always)]
fn time_numoffset(text: &str) -> Option<&str>
    ensures { Recognises (Row grammar.time_numoffset) (chars text.now) result }
{
    sign(text).and_then(time_hour).and_then(time_minute)
}

#[tactic(auto, using(crate::proofs::GrammarLemmas::either_reads))]
#[inline(always)]
fn time_offset(text: &str) -> Option<&str>
    ensures { Recognises grammar.time_offset (chars text.now) result }
{
    literal(text, 'Z').or_else(|| time_numoffset(text))
}

#[inline(always)]
fn letter_t(text: &str) -> Option<&str>
    ensures { Recognises (exactly (84 ∷ [])) (chars text.now) result }
{
    literal(text, 'T')
}

#[inline(always)]
fn date_time(text: &str) -> Option<&str>
    ensures { Recognises (Row grammar.date_time) (chars text.now) result }
{
    full_date(text)
        .and_then(letter_t)
        .and_then(partial_time)
        .and_then(time_offset)
}

#[tactic(auto, using(crate::proofs::GrammarLemmas::either_reads))]
#[inline(always)]
pub(super) fn timestamp(text: &str) -> Option<&str>
    ensures { Recognises grammar.timestamp (chars text.now) result }
{
    literal(text, '-').or_else(|| date_time(text))
}
