//! Messages that have no program's name before them: they are recognised by what they begin with.
ghost use Rattle.std.specs.Borrow.{Bor};
ghost use Rattle.std.specs.Prelude.{◌≡◌, ◌∷◌, [], ◌||◌, ℕ, List, MatchOption, Option, Some, chars, codes};
ghost use Rattle.syslog_text.specs.Pieces.Class.{Front, Row, after, exactly, optional};
ghost use Rattle.syslog_text.specs.Pieces.View.{Recognises, shown};
ghost use Rattle.syslog_pieces.specs.Timestamp.Rfc3339.{pair as pair_class, year as year_class};
ghost use Rattle.syslog_sent.specs.Date.{unless};
ghost use Rattle.syslog_named_forms.specs.declared.untagged.Mark.TheVariants.{Bracket, Dated, Level, Repeated};
ghost use Rattle.syslog_sent.specs.Named.{◌otherwise◌};
ghost use Rattle.syslog_named_forms.specs.Untagged as spec;

use syslog_pieces::timestamp::pairs::{pair, pair_after, year};
use syslog_sent::dialect::Dialect;
use syslog_sent::named::{is_word, past};
use syslog_sent::runs::{Run, split};
use syslog_sent::skips::{
    bracket, close_tag, comma, digits, dot, gap, name_word, open_angle, past_blanks, plain_word,
    space,
};
use syslog_text::text::{CharClass, blanks, first, literal, split_run};

/// What a message without a program begins with.
#[derive(Clone, Copy)]
pub enum Mark {
    /// `CEF:0|`.
    Cef,
    /// `LEEF:1.0|`.
    Leef,
    /// `last message repeated 3 times`, `-- MARK --`.
    Repeated,
    /// `1,2026/03/02 06:33:04,`.
    PaloAlto,
    /// `key=`.
    Pair,
    /// `{"`, or `{}`, with blanks between the two or none.
    Json,
    /// `Severity: `.
    Idrac,
    /// `INFO`.
    Level,
    /// `system,info`.
    Topics,
    /// `[`, `<` or a quote.
    Bracket,
    /// `2026-03-02 06:33`, or `Mar  2 06:33`.
    Dated,
}

/// All marks, in the order in which they are tried.
pub(crate) const MARKS: [Mark; 11] = [
    Mark::Repeated,
    Mark::Cef,
    Mark::Leef,
    Mark::PaloAlto,
    Mark::Pair,
    Mark::Json,
    Mark::Idrac,
    Mark::Level,
    Mark::Topics,
    Mark::Bracket,
    Mark::Dated,
];

/// Returns the text after a piece that the first reader takes, or else after one that the second takes.
#[inline(always)]
pub(crate) fn either<'a, F, G>(text: &'a str, first: F, second: G) -> Option<&'a str>
where
    F: FnOnce(&'a str) -> Option<&'a str>,
    G: FnOnce(&'a str) -> Option<&'a str>,
    requires one { F.IsAlwaysCallable first }
    requires other { G.IsAlwaysCallable second }
    ensures { (r : Option (Bor (List ℕ))) × F.post first text.entry r
        × MatchOption r (G.post second text.entry result) (λ rest. result ≡ Some rest) }
{
    match first(text) {
        Some(rest) => Some(rest),
        None => second(text),
    }
}

fn bar(text: &str) -> Option<&str>
    ensures { Recognises (exactly (124 ∷ [])) (chars text.now) result }
{
    literal(text, '|')
}

fn cef_word(text: &str) -> Option<&str>
    ensures { Recognises (exactly (codes "CEF:")) (chars text.now) result }
{
    past(text, "CEF:")
}

fn leef_word(text: &str) -> Option<&str>
    ensures { Recognises (exactly (codes "LEEF:")) (chars text.now) result }
{
    past(text, "LEEF:")
}

fn repeated_words(text: &str) -> Option<&str>
    ensures { Recognises (exactly (codes "message repeated ")) (chars text.now) result }
{
    past(text, "message repeated ")
}

fn times(text: &str) -> Option<&str>
    ensures { Recognises (exactly (codes " time")) (chars text.now) result }
{
    past(text, " time")
}

// Returns the text after `last `, and all of it if it does not begin so.
fn past_last(text: &str) -> &str
    ensures { (v : Option (Unit {0})) × Front (optional (exactly (codes "last "))) (chars text.now) (shown result) v }
{
    match past(text, "last ") {
        Some(rest) => rest,
        None => text,
    }
}

fn cef(text: &str) -> Option<&str>
    ensures { Recognises (Row spec.cef_row) (chars text.now) result }
{
    cef_word(text)
        .map(past_blanks)
        .and_then(digits)
        .and_then(bar)
}

fn leef(text: &str) -> Option<&str>
    ensures { Recognises (Row spec.leef_row) (chars text.now) result }
{
    leef_word(text)
        .map(past_blanks)
        .and_then(digits)
        .and_then(dot)
        .and_then(digits)
        .and_then(bar)
}

fn last_repeated(text: &str) -> Option<&str>
    ensures { Recognises (Row spec.repeated_row) (chars text.now) result }
{
    repeated_words(past_last(text))
        .and_then(digits)
        .and_then(times)
}

fn last_words(text: &str) -> Option<&str>
    ensures { Recognises (exactly (codes "--- last message repeated ")) (chars text.now) result }
{
    past(text, "--- last message repeated ")
}

fn above_words(text: &str) -> Option<&str>
    ensures { Recognises (exactly (codes "above message repeats ")) (chars text.now) result }
{
    past(text, "above message repeats ")
}

#[tactic(auto, using(crate::proofs::ReaderLemmas::either_reads))]
fn repeats_words(text: &str) -> Option<&str>
    ensures { Recognises spec.repeats (chars text.now) result }
{
    either(text, last_words, above_words)
}

fn repeats(text: &str) -> Option<&str>
    ensures { Recognises (Row spec.repeats_row) (chars text.now) result }
{
    repeats_words(text).and_then(digits).and_then(times)
}

fn here(text: &str) -> Option<&str>
    ensures { Recognises spec.here (chars text.now) result }
{
    past(text, "-- MARK --")
}

#[tactic(auto, using(crate::proofs::ReaderLemmas::either_reads))]
fn repeats_or_here(text: &str) -> Option<&str>
    ensures { Recognises (Row spec.repeats_row otherwise spec.here) (chars text.now) result }
{
    either(text, repeats, here)
}

// Returns the text after what a daemon says of itself.
#[tactic(auto, using(crate::proofs::ReaderLemmas::either_reads))]
fn repeated(text: &str) -> Option<&str>
    ensures { Recognises (spec.mark_class Repeated) (chars text.now) result }
{
    either(text, last_repeated, repeats_or_here)
}

fn four_digits(text: &str) -> Option<&str>
    ensures { Recognises year_class (chars text.now) result }
{
    let (_, rest) = year(text)?;
    Some(rest)
}

fn two_digits(text: &str) -> Option<&str>
    ensures { Recognises (pair_class 100) (chars text.now) result }
{
    let (_, rest) = pair(text, 100)?;
    Some(rest)
}

fn after_slash(text: &str) -> Option<&str>
    ensures { Recognises (after 47 (pair_class 100)) (chars text.now) result }
{
    let (_, rest) = pair_after(text, '/', 100)?;
    Some(rest)
}

fn after_colon(text: &str) -> Option<&str>
    ensures { Recognises (after 58 (pair_class 100)) (chars text.now) result }
{
    let (_, rest) = pair_after(text, ':', 100)?;
    Some(rest)
}

fn palo_alto(text: &str) -> Option<&str>
    ensures { Recognises (Row spec.palo_alto_row) (chars text.now) result }
{
    digits(text)
        .and_then(comma)
        .and_then(four_digits)
        .and_then(after_slash)
        .and_then(after_slash)
        .and_then(space)
        .and_then(two_digits)
        .and_then(after_colon)
        .and_then(after_colon)
        .and_then(comma)
}

fn after_dash(text: &str) -> Option<&str>
    ensures { Recognises (after 45 (pair_class 100)) (chars text.now) result }
{
    let (_, rest) = pair_after(text, '-', 100)?;
    Some(rest)
}

fn dashed(text: &str) -> Option<&str>
    ensures { Recognises (Row spec.dashed_row) (chars text.now) result }
{
    four_digits(text).and_then(after_dash).and_then(after_dash)
}

fn slashed(text: &str) -> Option<&str>
    ensures { Recognises (Row spec.slashed_row) (chars text.now) result }
{
    four_digits(text)
        .and_then(after_slash)
        .and_then(after_slash)
}

// Returns the text after a year, a month and a day with dashes or slashes between them.
#[tactic(auto, using(crate::proofs::ReaderLemmas::either_reads))]
fn day(text: &str) -> Option<&str>
    ensures { Recognises spec.day (chars text.now) result }
{
    either(text, dashed, slashed)
}

fn letter_t(text: &str) -> Option<&str>
    ensures { Recognises (exactly (84 ∷ [])) (chars text.now) result }
{
    literal(text, 'T')
}

#[tactic(auto, using(crate::proofs::ReaderLemmas::either_reads))]
fn day_end(text: &str) -> Option<&str>
    ensures { Recognises spec.day_end (chars text.now) result }
{
    either(text, letter_t, space)
}

fn clock(text: &str) -> Option<&str>
    ensures { Recognises (Row spec.clock_row) (chars text.now) result }
{
    day(text)
        .and_then(day_end)
        .and_then(two_digits)
        .and_then(after_colon)
}

fn is_month(word: &str) -> bool
    ensures { result ≡ spec.is_month (chars word.now) }
{
    is_word(word, "Jan")
        || (is_word(word, "Feb")
            || (is_word(word, "Mar")
                || (is_word(word, "Apr")
                    || (is_word(word, "May")
                        || (is_word(word, "Jun")
                            || (is_word(word, "Jul")
                                || (is_word(word, "Aug")
                                    || (is_word(word, "Sep")
                                        || (is_word(word, "Oct")
                                            || (is_word(word, "Nov")
                                                || (is_word(word, "Dec"))))))))))))
}

fn month_word(text: &str) -> Option<&str>
    ensures { Recognises spec.month_word (chars text.now) result }
{
    let (word, rest) = split(text, Run::Plain);
    is_month(word).then_some(rest)
}

fn month(text: &str) -> Option<&str>
    ensures { Recognises (Row spec.month_row) (chars text.now) result }
{
    month_word(text)
        .and_then(gap)
        .and_then(digits)
        .and_then(gap)
        .and_then(two_digits)
        .and_then(after_colon)
}

// Returns the text after a date and the time to the minute.
#[tactic(auto, using(crate::proofs::ReaderLemmas::either_reads))]
fn dated(text: &str) -> Option<&str>
    ensures { Recognises (spec.mark_class Dated) (chars text.now) result }
{
    either(text, clock, month)
}

pub(crate) fn equals(text: &str) -> Option<&str>
    ensures { Recognises (exactly (61 ∷ [])) (chars text.now) result }
{
    literal(text, '=')
}

fn pair_start(text: &str) -> Option<&str>
    ensures { Recognises (Row spec.pair_row) (chars text.now) result }
{
    name_word(text).and_then(equals)
}

fn name_or_end(text: &str) -> Option<&str>
    ensures { Recognises spec.name_or_end (chars text.now) result }
{
    if let Some(rest) = quote(text) {
        return Some(rest);
    }
    literal(text, '}')
}

// Returns the text after the brace of an object, and the quote or the brace that comes first in it.
fn json(text: &str) -> Option<&str>
    ensures { Recognises (Row spec.object_row) (chars text.now) result }
{
    let inner = literal(text, '{')?;
    name_or_end(blanks(inner))
}

fn idrac(text: &str) -> Option<&str>
    ensures { Recognises (exactly (codes "Severity: ")) (chars text.now) result }
{
    past(text, "Severity: ")
}

fn is_log4j_level(word: &str) -> bool
    ensures { result ≡ spec.is_log4j_level (chars word.now) }
{
    is_word(word, "TRACE")
        || (is_word(word, "DEBUG")
            || (is_word(word, "INFO")
                || (is_word(word, "WARN") || (is_word(word, "ERROR") || is_word(word, "FATAL")))))
}

fn is_level(word: &str) -> bool
    ensures { result ≡ spec.is_level (chars word.now) }
{
    is_log4j_level(word)
        || (is_word(word, "WARNING")
            || (is_word(word, "CRITICAL") || (is_word(word, "SEVERE") || is_word(word, "NOTICE"))))
}

/// Returns the text after a level.
pub(crate) fn level(text: &str) -> Option<&str>
    ensures { Recognises (spec.mark_class Level) (chars text.now) result }
{
    let (word, rest) = split_run(text, CharClass::Visible);
    is_level(word).then_some(rest)
}

/// Returns the text after such a word and a comma.
pub(crate) fn topic(text: &str) -> Option<&str>
    ensures { Recognises (Row spec.topic_row) (chars text.now) result }
{
    plain_word(text).and_then(comma)
}

fn is_main_topic(word: &str) -> bool
    ensures { result ≡ spec.is_main_topic (chars word.now) }
{
    is_word(word, "critical")
        || (is_word(word, "error")
            || (is_word(word, "warning")
                || (is_word(word, "info") || (is_word(word, "debug") || is_word(word, "packet")))))
}

fn main_topic(text: &str) -> Option<&str>
    ensures { Recognises spec.main_topic (chars text.now) result }
{
    let (word, rest) = split(text, Run::Plain);
    is_main_topic(word).then_some(rest)
}

fn later_topic(text: &str) -> Option<&str>
    ensures { Recognises (Row spec.later_topic_row) (chars text.now) result }
{
    topic(text).and_then(main_topic)
}

// The text after such a topic, or after a topic and such a one.
#[tactic(auto, using(crate::proofs::ReaderLemmas::either_reads))]
fn either_topic(text: &str) -> Option<&str>
    ensures { Recognises (spec.main_topic otherwise Row spec.later_topic_row) (chars text.now) result }
{
    either(text, main_topic, later_topic)
}

fn topics(text: &str) -> Option<&str>
    ensures { Recognises (Row spec.topics_row) (chars text.now) result }
{
    topic(text).and_then(either_topic)
}

// The text after a number in brackets and a colon.
fn number(text: &str) -> Option<&str>
    ensures { Recognises (Row spec.number_row) (chars text.now) result }
{
    bracket(text).and_then(digits).and_then(close_tag)
}

// The text after a bracket that begins no such number.
fn square(text: &str) -> Option<&str>
    ensures { Recognises (unless (Row spec.number_row) (exactly (91 ∷ []))) (chars text.now) result }
{
    if let Some(_) = number(text) {
        return None;
    }
    bracket(text)
}

fn quote(text: &str) -> Option<&str>
    ensures { Recognises (exactly (34 ∷ [])) (chars text.now) result }
{
    literal(text, '"')
}

#[tactic(auto, using(crate::proofs::ReaderLemmas::either_reads))]
fn angle(text: &str) -> Option<&str>
    ensures { Recognises spec.angle (chars text.now) result }
{
    either(text, open_angle, quote)
}

// The text after such a bracket, after `<`, or after a quote.
#[tactic(auto, using(crate::proofs::ReaderLemmas::either_reads))]
fn open_bracket(text: &str) -> Option<&str>
    ensures { Recognises (spec.mark_class Bracket) (chars text.now) result }
{
    either(text, square, angle)
}

impl Mark {
    /// Returns the dialect of messages that the mark begins.
    pub(crate) fn dialect(self) -> Dialect
        ensures { result ≡ spec.dialect_of self }
    {
        match self {
            Mark::Cef => Dialect::Cef,
            Mark::Leef => Dialect::Leef,
            Mark::Repeated => Dialect::Repeated,
            Mark::PaloAlto => Dialect::PaloAlto,
            Mark::Pair => Dialect::KeyValue,
            Mark::Json => Dialect::Json,
            Mark::Idrac => Dialect::Idrac,
            Mark::Level => Dialect::Log4j,
            Mark::Topics => Dialect::MikroTik,
            Mark::Bracket => Dialect::Bracketed,
            Mark::Dated => Dialect::DatedMessage,
        }
    }

    /// Returns the bit of the mark in a set of marks.
    #[inline(always)]
    pub(crate) fn bit(self) -> u16
        ensures { result ≡ spec.bit_of self }
    {
        match self {
            Mark::Cef => 1,
            Mark::Leef => 2,
            Mark::Repeated => 4,
            Mark::PaloAlto => 8,
            Mark::Pair => 16,
            Mark::Json => 32,
            Mark::Idrac => 64,
            Mark::Level => 128,
            Mark::Topics => 256,
            Mark::Bracket => 512,
            Mark::Dated => 1024,
        }
    }
}

/// Returns the text after the mark, where it begins the text.
pub(crate) fn read_mark(text: &str, mark: Mark) -> Option<&str>
    ensures { Recognises (spec.mark_class mark) (chars text.now) result }
{
    match mark {
        Mark::Cef => cef(text),
        Mark::Leef => leef(text),
        Mark::Repeated => repeated(text),
        Mark::PaloAlto => palo_alto(text),
        Mark::Pair => pair_start(text),
        Mark::Json => json(text),
        Mark::Idrac => idrac(text),
        Mark::Level => level(text),
        Mark::Topics => topics(text),
        Mark::Bracket => open_bracket(text),
        Mark::Dated => dated(text),
    }
}
