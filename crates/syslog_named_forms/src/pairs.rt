//! Lines that are pairs of a key and a value, time and host among them: the whole text is the message.
//!
//! **Rule.** FortiGate (FortiOS Log Message Reference) and FortiMail have `date=2026-03-02 time=06:33:04`, FortiGate
//! also an offset, `tz="+0100"`. Sophos (SFOS syslog guide) has date and time in the same way. SonicWall (SonicOS Log
//! Events Reference) has both in `time="2026-03-02 06:33:04"`, with ` UTC` if it is so configured. SFOS from 18 on has
//! both and the offset in `timestamp="2026-03-02T06:33:04+0100"`. The first pair of a key counts. The name of a zone is
//! left out. With `set format csv` FortiGate separates its pairs by commas.
ghost use Rattle.std.specs.Prelude.{◌≡◌, ◌<◌, ◌∷◌, [], IfSome, IsUtf8, List, MatchOption, Some, chars};
ghost use Rattle.syslog_text.specs.Pieces.Class.{Division, Front, NoDivision, Row, Text, exactly, optional};
ghost use Rattle.syslog_text.specs.Pieces.Lists.{many};
ghost use Rattle.syslog_text.specs.Pieces.View.{Reads, Recognises, seen, shown};
ghost use Rattle.syslog_pieces.specs.Timestamp.Rfc3339.{seconds_of, sign as sign_class};
ghost use Rattle.syslog_named_forms.specs.PairViews.{clock_values, day_values, notes_value, pair_value};
ghost use Rattle.syslog_named_forms.specs.Pairs as spec;
ghost use Rattle.syslog_sent.specs.Sent.{Sends};
ghost use Rattle.syslog_sent.specs.declared.sent.SentDate.{SentDate as Date};

use crate::untagged::equals;
use syslog_pieces::timestamp::MonthDate;
use syslog_pieces::timestamp::pairs::{pair, pair_after, year};
use syslog_sent::date::{iso_date, optional_fraction};
use syslog_sent::named::is_word;
use syslog_sent::runs::{Run, split};
use syslog_sent::sent::{Sent, SentDate};
use syslog_sent::skips::{colon, comma, name_word};
use syslog_text::text::verbatim::before;
use syslog_text::text::{CharClass, blanks, first, literal, split_run};

/// A key and its value, without quotes.
#[derive(Clone, Copy)]
pub(crate) struct Pair<'a> {
    key: &'a str,
    value: &'a str,
}

/// What is noted of the pairs of a line.
#[derive(Clone, Copy)]
pub(crate) struct Notes<'a> {
    date: Option<&'a str>,
    time: Option<&'a str>,
    stamp: Option<&'a str>,
    zone: Option<&'a str>,
    hostname: Option<&'a str>,
}

/// A day as it is shown.
#[derive(Clone, Copy)]
pub(crate) struct Day {
    year: u16,
    month: u32,
    day: u32,
}

/// A time of day as it is shown.
#[derive(Clone, Copy)]
pub(crate) struct Clock {
    hour: u32,
    minute: u32,
    second: u32,
    nanosecond: Option<u32>,
}

// Returns the text after a quote. It is no `literal`, so that its clauses say that the text is UTF-8.
fn past_quote(text: &str) -> Option<&str>
    ensures reads { Recognises (exactly (34 ∷ [])) (chars text.now) result }
    ensures utf8 { IfSome result (λ rest. IsUtf8 rest.now) }
{
    let (c, rest) = first(text)?;
    if c == '"' { Some(rest) } else { None }
}

// Returns a value in quotes, and the text after it.
fn quoted(text: &str) -> Option<(&str, &str)>
    ensures reads { Reads spec.quoted (λ t. shown t) (chars text.now) result }
    ensures utf8 { IfSome result (λ x. IsUtf8 x.1.now) }
{
    let after_quote = past_quote(text)?;
    let (value, after_value) = split(after_quote, Run::Unquoted);
    let rest = past_quote(after_value)?;
    Some((value, rest))
}

fn part(text: &str) -> Option<&str>
    ensures { Recognises (Row spec.part_row) (chars text.now) result }
{
    colon(text).and_then(name_word)
}

// Returns the text after a colon and a word, and all of it if it does not begin so.
fn past_part(text: &str) -> &str
    ensures { (v : (optional (Row spec.part_row)).Value)
        × Front (optional (Row spec.part_row)) (chars text.now) (shown result) v }
{
    match part(text) {
        Some(rest) => rest,
        None => text,
    }
}

// Returns the text after a word, or after a time of day.
fn listed_end(text: &str) -> Option<&str>
    ensures reads { Recognises (Row spec.listed_row) (chars text.now) result }
    ensures utf8 { IfSome result (λ rest. IsUtf8 rest.now) }
{
    let (run, rest) = split(text, Run::Word);
    if run.is_empty() {
        return None;
    }
    Some(past_part(past_part(rest)))
}

// Returns the text after a comma, a key and its sign.
fn next(text: &str) -> Option<&str>
    ensures { Recognises (Row spec.next_row) (chars text.now) result }
{
    comma(text).and_then(name_word).and_then(equals)
}

// Returns a value that another pair follows after a comma, and the text after it.
fn listed(text: &str) -> Option<(&str, &str)>
    ensures reads { Reads spec.listed (λ t. shown t) (chars text.now) result }
    ensures utf8 { IfSome result (λ x. IsUtf8 x.1.now) }
{
    let rest = listed_end(text)?;
    let _ = next(rest)?;
    let value = before(text, rest);
    Some((value, rest))
}

// Returns such a value, or otherwise one without white space, and the text after it.
fn unquoted(text: &str) -> (&str, &str)
    ensures reads { Front spec.unquoted (chars text.now) (shown result.1) (shown result.0) }
    ensures utf8 { IsUtf8 result.1.now }
{
    match listed(text) {
        Some((value, rest)) => (value, rest),
        None => split_run(text, CharClass::Visible),
    }
}

// Returns a value in quotes, or otherwise one without them, and the text after it.
fn any_value(text: &str) -> (&str, &str)
    ensures reads { Front spec.value (chars text.now) (shown result.1) (shown result.0) }
    ensures utf8 { IsUtf8 result.1.now }
{
    match quoted(text) {
        Some((value, rest)) => (value, rest),
        None => unquoted(text),
    }
}

// Returns the text after a comma, and all of it if it begins with none.
fn past_comma(text: &str) -> &str
    ensures { (v : (optional (exactly (44 ∷ []))).Value)
        × Front (optional (exactly (44 ∷ []))) (chars text.now) (shown result) v }
{
    match comma(text) {
        Some(rest) => rest,
        None => text,
    }
}

// Returns a key and its value, and the text after them.
fn read_pair(text: &str) -> Option<(Pair<'_>, &str)>
    ensures reads { Reads spec.pair pair_value (chars text.now) result }
    ensures utf8 { IfSome result (λ x. IsUtf8 x.1.now) }
{
    let (key, after_key) = split(past_comma(blanks(text)), Run::Word);
    if key.is_empty() {
        return None;
    }
    let after_sign = literal(after_key, '=')?;
    let (value, rest) = any_value(after_sign);
    Some((Pair { key, value }, rest))
}

// Whether the value of the key is the host.
fn is_host_key(key: &str) -> bool
    ensures { result ≡ spec.is_host_key (chars key.now) }
{
    is_word(key, "devname")
        || (is_word(key, "device_name") || (is_word(key, "fw") || is_word(key, "device_id")))
}

// Returns the value that was noted, and otherwise this value if `passes` is true.
fn or_value<'a>(noted: Option<&'a str>, passes: bool, value: &'a str) -> Option<&'a str>
    ensures { seen result ≡ spec.or_value (seen noted.entry) passes (shown value.entry) }
{
    if noted.is_some() {
        return noted;
    }
    if passes { Some(value) } else { None }
}

// Whether a key that is noted may begin as this one does. Most keys of a line begin otherwise.
fn may_be_noted(key: &str) -> bool
    ensures { result ≡ spec.may_be_noted (chars key.now) }
{
    match first(key) {
        Some((c, _)) => c == 'd' || (c == 'f' || c == 't'),
        None => false,
    }
}

// The notes, with one more pair.
fn noted_more<'a>(notes: Notes<'a>, pair: Pair<'a>) -> Notes<'a>
    ensures { notes_value result
        ≡ spec.noted_more (notes_value notes.entry) (shown pair.entry.key) (shown pair.entry.value) }
{
    if !may_be_noted(pair.key) {
        return notes;
    }
    Notes {
        date: or_value(notes.date, is_word(pair.key, "date"), pair.value),
        time: or_value(notes.time, is_word(pair.key, "time"), pair.value),
        stamp: or_value(notes.stamp, is_word(pair.key, "timestamp"), pair.value),
        zone: or_value(notes.zone, is_word(pair.key, "tz"), pair.value),
        hostname: or_value(notes.hostname, is_host_key(pair.key), pair.value),
    }
}

// Returns what is noted of the pairs at the front.
fn read_notes(text: &str) -> Notes<'_>
    ensures { (ps : List (Text × Text)) × (r : Text) × Front (many spec.pair) (chars text.now) r ps
        × (notes_value result ≡ spec.noted ps) }
{
    let mut notes = Notes {
        date: None,
        time: None,
        stamp: None,
        zone: None,
        hostname: None,
    };
    let mut rest = text;
    'pairs: while let Some((pair, after)) = read_pair(rest) {
        notes = noted_more(notes, pair);
        rest = after;
    }
    notes
}

fn read_day(text: &str) -> Option<(Day, &str)>
    ensures { Reads (Row spec.day_row) day_values (chars text.now) result }
{
    let (year, after_year) = year(text)?;
    let (month, after_month) = pair_after(after_year, '-', 100)?;
    let (day, rest) = pair_after(after_month, '-', 100)?;
    Some((Day { year, month, day }, rest))
}

fn read_clock(text: &str) -> Option<(Clock, &str)>
    ensures { Reads (Row spec.clock_row) clock_values (chars text.now) result }
{
    let (hour, after_hour) = pair(text, 100)?;
    let (minute, after_minute) = pair_after(after_hour, ':', 100)?;
    let (second, after_second) = pair_after(after_minute, ':', 61)?;
    let (nanosecond, rest) = optional_fraction(after_second);
    let clock = Clock {
        hour,
        minute,
        second,
        nanosecond,
    };
    Some((clock, rest))
}

// The day that the whole text shows.
fn whole_day(text: &str) -> Option<Day>
    ensures { MatchOption result (NoDivision spec.day_row (chars text.now))
        (λ d. Division spec.day_row (chars text.now) (day_values d)) }
{
    let (day, rest) = read_day(text)?;
    match first(rest) {
        Some(_) => None,
        None => Some(day),
    }
}

// The time of day that the whole text shows.
fn whole_clock(text: &str) -> Option<Clock>
    ensures { MatchOption result (NoDivision spec.clock_row (chars text.now))
        (λ c. Division spec.clock_row (chars text.now) (clock_values c)) }
{
    let (clock, rest) = read_clock(text)?;
    match first(rest) {
        Some(_) => None,
        None => Some(clock),
    }
}

// The date at this day and time.
fn date_at(day: Day, clock: Clock) -> SentDate
    ensures { result ≡ spec.date_at (day_values day) (clock_values clock) }
{
    let date = MonthDate {
        year: Some(u32::from(day.year)),
        month: day.month,
        day: day.day,
        hour: clock.hour,
        minute: clock.minute,
        second: clock.second.min(59),
    };
    SentDate {
        date,
        nanosecond: clock.nanosecond.unwrap_or(0),
        offset: None,
    }
}

// The date that two values show.
fn apart(date: &str, time: &str) -> Option<SentDate>
    ensures { MatchOption result ((d : Date) → spec.IsApart (chars date.now) (chars time.now) d → ⊥)
        (spec.IsApart (chars date.now) (chars time.now)) }
{
    let day = whole_day(date)?;
    let clock = whole_clock(time)?;
    Some(date_at(day, clock))
}

// The date that one value shows.
fn together(text: &str) -> Option<SentDate>
    ensures { MatchOption result ((d : Date) → spec.IsTogether (chars text.now) d
        → ⊥) (spec.IsTogether (chars text.now)) }
{
    let (date, rest) = iso_date(text)?;
    match first(rest) {
        Some(_) => None,
        None => Some(date),
    }
}

// Returns the date that a time shows, with the value of the date if there is one.
fn timed(time: &str, date: Option<&str>) -> Option<SentDate>
    ensures { MatchOption result ((d : Date) → spec.IsTimed (chars time.now) (seen date.entry) d → ⊥)
        (spec.IsTimed (chars time.now) (seen date.entry)) }
{
    match date {
        Some(date) => apart(date, time),
        None => together(time),
    }
}

fn stamped(stamp: Option<&str>) -> Option<SentDate>
    ensures { MatchOption result ((d : Date) → spec.IsStamped (seen stamp.entry) d
        → ⊥) (spec.IsStamped (seen stamp.entry)) }
{
    match stamp {
        Some(stamp) => together(stamp),
        None => None,
    }
}

// Returns the date that is noted, without an offset that is noted apart from it.
fn moment(time: Option<&str>, date: Option<&str>, stamp: Option<&str>) -> Option<SentDate>
    ensures { MatchOption result
        ((d : Date) → spec.IsMoment (seen time.entry) (seen date.entry) (seen stamp.entry) d → ⊥)
        (spec.IsMoment (seen time.entry) (seen date.entry) (seen stamp.entry)) }
{
    match time {
        Some(time) => timed(time, date),
        None => stamped(stamp),
    }
}

fn read_sign(text: &str) -> Option<(bool, &str)>
    ensures { Reads sign_class (λ behind. behind) (chars text.now) result }
{
    if let Some(rest) = literal(text, '-') {
        return Some((true, rest));
    }
    let rest = literal(text, '+')?;
    Some((false, rest))
}

// Returns hours and minutes in seconds, negative if the clock is slow of UTC.
fn offset_seconds(is_behind: bool, hours: u32, minutes: u32) -> i32
    requires hours { hours < 24 }
    requires minutes { minutes < 60 }
    ensures { result ≡ seconds_of (is_behind, (hours, (minutes, tt))) }
{
    let seconds = ((hours * 60 + minutes) * 60) as i32;
    if is_behind { -seconds } else { seconds }
}

// The offset that the whole text shows, in seconds.
fn read_offset(text: &str) -> Option<i32>
    ensures { spec.IsOffset (Some (chars text.now)) result }
{
    let (is_behind, at_hours) = read_sign(text)?;
    let (hours, at_minutes) = pair(at_hours, 24)?;
    let (minutes, rest) = pair(at_minutes, 60)?;
    match first(rest) {
        Some(_) => None,
        None => Some(offset_seconds(is_behind, hours, minutes)),
    }
}

// The offset that is noted.
fn offset(zone: Option<&str>) -> Option<i32>
    ensures { spec.IsOffset (seen zone.entry) result }
{
    match zone {
        Some(text) => read_offset(text),
        None => None,
    }
}

// Returns the date, at this offset if it shows none of its own.
fn at_offset(date: SentDate, offset: Option<i32>) -> SentDate
    ensures { result ≡ spec.at_offset date offset }
{
    SentDate {
        offset: match date.offset {
            Some(shown) => Some(shown),
            None => offset,
        },
        ..date
    }
}

// The date that is noted.
fn shown_date(notes: Notes<'_>) -> Option<SentDate>
    ensures { MatchOption result ((d : Date) → spec.IsShown (notes_value notes.entry) d → ⊥)
        (λ d. spec.IsShown (notes_value notes.entry) d) }
{
    let date = moment(notes.time, notes.date, notes.stamp)?;
    Some(at_offset(date, offset(notes.zone)))
}

/// Returns what a line of pairs says.
pub(crate) fn read_pairs(text: &str) -> Option<Sent<'_>>
    ensures { Sends spec.pairs_form (chars text.now) result }
{
    let msg = blanks(text);
    let notes = read_notes(msg);
    let date = shown_date(notes)?;
    Some(Sent {
        version: None,
        date: Some(date),
        hostname: notes.hostname,
        appname: None,
        process: None,
        msgid: None,
        msg,
    })
}
