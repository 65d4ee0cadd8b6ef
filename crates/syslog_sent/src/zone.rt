//! The zone that a sender shows after the time: an offset in digits, as `+01:00`, `+0100` or `+01`, or a name.
//!
//! **Rule.** `UTC`, `GMT` and `Z` are offset 0. Any other name of the IANA time zone database is left out, since most
//! names mean several zones, and so is `DST`, which Huawei's devices show in summer (VRP, "Log format"). Then the date
//! is in the zone of dates that show none.
ghost use Rattle.std.specs.Prelude.{◌≡◌, ◌<◌, ◌∷◌, [], chars, ℕ, List, Option, true, MatchBool, map, unwrap_or};
ghost use Rattle.syslog_text.specs.Pieces.Class.{Ends, Front};
ghost use Rattle.syslog_text.specs.Pieces.View.{Reads, shown};
ghost use Rattle.syslog_text.specs.Text.{is_tag_char};
ghost use Rattle.syslog_pieces.specs.Timestamp.Rfc3339 as rfc3339;
ghost use Rattle.syslog_sent.specs.Named.{BeginsWith};
ghost use Rattle.syslog_sent.specs.Zone as spec;

use syslog_pieces::timestamp::pairs::pair;
use syslog_text::as_str::is_same_text;
use syslog_text::text::{CharClass, blanks, first, literal, past_colon, split_run};

/// The names of zones that are recognised: first those of offset 0, then those that are left out.
const ZONE_NAMES: [&str; 52] = [
    "UTC", "GMT", "Z", "CET", "CEST", "EST", "EDT", "CST", "CDT", "MST", "MDT", "PST", "PDT",
    "AKST", "AKDT", "HST", "HDT", "AST", "ADT", "NST", "NDT", "WET", "WEST", "BST", "IST", "MET",
    "MEST", "EET", "EEST", "MSK", "SAST", "WAT", "CAT", "EAT", "IDT", "PKT", "WIB", "WITA", "WIT",
    "HKT", "KST", "JST", "AWST", "ACST", "ACDT", "AEST", "AEDT", "NZST", "NZDT", "ChST", "SST",
    "DST",
];

const UNIVERSAL_NAMES: [&str; 3] = ["UTC", "GMT", "Z"];

/// Returns the maximal run without white space and colons at the front, if it is not empty, and the text after it.
pub fn bare_word(text: &str) -> Option<(&str, &str)>
    ensures { Reads spec.bare_word (λ word. shown word) (chars text.now) result }
{
    let (word, rest) = split_run(text, CharClass::Tag);
    if word.is_empty() {
        return None;
    }
    Some((word, rest))
}

/// Returns whether a word without white space and colons has ended before the text.
pub fn ends_word(text: &str) -> bool
    ensures { MatchBool result (Ends is_tag_char (chars text.now)) (Ends is_tag_char (chars text.now) → ⊥) }
{
    match first(text) {
        Some((c, _)) => !CharClass::Tag.has(c),
        None => true,
    }
}

/// Returns whether the word is one of these.
pub fn is_one_of(words: &[&str], word: &str) -> bool
    ensures { result ≡ spec.is_among (chars word.now) (map (λ s. shown s) words.now) }
{
    for other in words {
        if is_same_text(other, &word) {
            return true;
        }
    }
    false
}

// Reads `+` or `-`, and returns whether it is `-`.
fn sign(text: &str) -> Option<(bool, &str)>
    ensures { Reads rfc3339.sign (λ behind. behind) (chars text.now) result }
{
    if let Some(rest) = literal(text, '-') {
        return Some((true, rest));
    }
    let rest = literal(text, '+')?;
    Some((false, rest))
}

fn minutes(text: &str) -> Option<(u32, &str)>
    ensures { Reads spec.minutes (λ minutes. minutes) (chars text.now) result }
{
    pair(past_colon(text), 60)
}

fn some_minutes(text: &str) -> (u32, &str)
    ensures reads { Front spec.some_minutes (chars text.now) (shown result.1) result.0 }
    ensures small { result.0 < 60 }
{
    match minutes(text) {
        Some((minutes, rest)) => (minutes, rest),
        None => (0, text),
    }
}

// Returns hours and minutes in seconds, negative if the clock is slow of UTC.
fn seconds(is_behind: bool, hours: u32, minutes: u32) -> i32
    requires hours { hours < 24 }
    requires minutes { minutes < 60 }
    ensures { result ≡ rfc3339.seconds_of (is_behind, (hours, (minutes, tt))) }
{
    let seconds = ((hours * 60 + minutes) * 60) as i32;
    if is_behind { -seconds } else { seconds }
}

// Returns the offset in digits at the front, in seconds, and the text after it.
fn numeric_offset(text: &str) -> Option<(i32, &str)>
    ensures { Reads spec.numeric_offset (λ seconds. seconds) (chars text.now) result }
{
    let (is_behind, rest) = sign(text)?;
    let (hours, rest) = pair(rest, 24)?;
    let (minutes, rest) = some_minutes(rest);
    if !ends_word(rest) {
        return None;
    }
    Some((seconds(is_behind, hours, minutes), rest))
}

/// Returns whether the bytes are as few as those of a zone's name, and begin as one does, so that few words are looked
/// up.
pub fn has_shape(name: &[u8]) -> bool
    ensures { result ≡ spec.has_shape name.now }
{
    0 < name.len() && (name.len() <= 4 && (b'A' <= name[0] && name[0] <= b'Z'))
}

fn is_zone_name(name: &str) -> bool
    ensures { MatchBool result (spec.IsZoneName (chars name.now)) (spec.IsZoneName (chars name.now) → ⊥) }
{
    if !has_shape(name.as_bytes()) {
        return false;
    }
    is_one_of(&ZONE_NAMES, name)
}

fn is_universal(name: &str) -> bool
    ensures { result ≡ spec.is_among (chars name.now) spec.universal_names }
{
    is_one_of(&UNIVERSAL_NAMES, name)
}

/// Returns whether a capital letter begins the text. No name of a zone or a day begins otherwise, so few words are read
/// whole.
#[inline(always)]
pub fn begins_with_capital(text: &str) -> bool
    ensures { MatchBool result (BeginsWith spec.is_capital (chars text.now))
        (BeginsWith spec.is_capital (chars text.now) → ⊥) }
{
    match first(text) {
        Some((c, _)) => 'A' <= c && c <= 'Z',
        None => false,
    }
}

// The name of a zone at the front.
fn zone_name(text: &str) -> Option<(&str, &str)>
    ensures { Reads spec.zone_name (λ name. shown name) (chars text.now) result }
{
    if !begins_with_capital(text) {
        return None;
    }
    let (name, rest) = bare_word(text)?;
    if !is_zone_name(name) {
        return None;
    }
    Some((name, rest))
}

// The offset of a name, where it is known.
fn name_offset(name: &str) -> Option<i32>
    ensures { result ≡ spec.name_offset (chars name.now) }
{
    if is_universal(name) { Some(0) } else { None }
}

// Whether a sign or a capital letter begins the text. No zone begins otherwise, so few texts are read further.
#[inline(always)]
fn begins_zone(text: &str) -> bool
    ensures { MatchBool result (BeginsWith spec.begins_zone (chars text.now))
        (BeginsWith spec.begins_zone (chars text.now) → ⊥) }
{
    match first(text) {
        Some((c, _)) => c == '+' || (c == '-' || ('A' <= c && c <= 'Z')),
        None => false,
    }
}

// The offset or the name of a zone at the front.
fn zone_mark(text: &str) -> Option<(Option<i32>, &str)>
    ensures { Reads spec.zone_mark (λ offset. offset) (chars text.now) result }
{
    if let Some((seconds, rest)) = numeric_offset(text) {
        return Some((Some(seconds), rest));
    }
    let (name, rest) = zone_name(text)?;
    Some((name_offset(name), rest))
}

/// Returns the zone at the front, after blanks or none, and the text after it. The zone is its offset in seconds, if
/// that is known.
#[inline(always)]
pub fn zone(text: &str) -> Option<(Option<i32>, &str)>
    ensures { Reads spec.zone (λ offset. offset) (chars text.now) result }
{
    let mark = blanks(text);
    if !begins_zone(mark) {
        return None;
    }
    zone_mark(mark)
}
