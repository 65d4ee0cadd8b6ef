//! The lines of the port that keep their reading.
//!
//! **Rule.** A line of RFC 5424 is read as the port reads it. So is a line of RFC 3164 with a date, a host and a tag
//! that a colon or a process id ends, as section 5.4 has them, and one with a strict element. A word follows the colon
//! of no tag at once. So no dialect is tried for most lines, and none can change them.
ghost use Rattle.std.specs.Prelude.{◌≡◌, ◌∷◌, [], None, IsTrue, MatchBool, chars};
ghost use Rattle.syslog_text.specs.Pieces.Class.{Row, exactly};
ghost use Rattle.syslog_text.specs.Pieces.View.{Skips, seen, shown};
ghost use Rattle.syslog_loose.specs.Line.{KnowsForm};
ghost use Rattle.syslog_sent.specs.Zone.{ended};
ghost use Rattle.syslog_dialects.specs.Ordinary.{IsOrdinary, IsTag, IsTagged, mark, tag_row};
ghost use Rattle.syslog_dialects.specs.Ordinary as spec;
ghost use Rattle.syslog_named_forms.specs.Devices.{opens_address as opens_address_text};

use crate::paired::is_paired;
use syslog_loose::Line;
use syslog_named_forms::devices::opens_address;
use syslog_sent::named::{is_number, is_word};
use syslog_sent::zone::ends_word;
use syslog_text::text::{first, literal};

// Returns the text after `front`, if that begins it.
#[tactic(auto, using(crate::proofs::OrdinaryLemmas::prefix_told))]
fn past<'a>(text: &'a str, front: &str) -> Option<&'a str>
    ensures { Skips (exactly (chars front.now)) tt (chars text.entry.now) result }
{
    text.strip_prefix(front)
}

// Returns the text after a colon that no word follows at once.
#[inline(always)]
fn past_colon(text: &str) -> Option<&str>
    ensures { Skips (ended (exactly (58 ∷ []))) tt (chars text.now) result }
{
    let rest = literal(text, ':')?;
    if !ends_word(rest) {
        return None;
    }
    Some(rest)
}

// Returns the text after such a colon or a bracket.
#[inline(always)]
fn past_mark(text: &str) -> Option<&str>
    ensures { Skips mark tt (chars text.now) result }
{
    match past_colon(text) {
        Some(rest) => Some(rest),
        None => literal(text, '['),
    }
}

// Returns the text after a space, the host, a space, the app name, and what ends a tag.
fn past_tag<'a>(text: &'a str, host: &str, app: &str) -> Option<&'a str>
    ensures { Skips (Row (tag_row (chars host.now) (chars app.now))) (tt, (tt, (tt, (tt, (tt, tt)))))
        (chars text.entry.now) result }
{
    let rest = literal(text, ' ')?;
    let rest = past(rest, host)?;
    let rest = literal(rest, ' ')?;
    let rest = past(rest, app)?;
    past_mark(rest)
}

// Whether host and app name begin the text as a tag. It is a call of its own, since most lines are in printed form.
#[tactic(auto, using(crate::proofs::OrdinaryLemmas::tag_told))]
#[cold]
#[inline(never)]
fn begins_with_tag(text: &str, host: &str, app: &str) -> bool
    ensures { MatchBool result (IsTag (chars host.now) (chars app.now) (chars text.now))
        (IsTag (chars host.now) (chars app.now) (chars text.now) → ⊥) }
{
    past_tag(text, host, app).is_some()
}

fn is_nothing(app: &str) -> bool
    ensures { result ≡ spec.is_nothing (chars app.now) }
{
    match first(app) {
        Some(_) => false,
        None => true,
    }
}

// Whether the text begins as an object of JSON, with a bracket of either kind or with a quote.
fn opens_brackets(app: &str) -> bool
    ensures { result ≡ spec.opens_brackets (chars app.now) }
{
    match first(app) {
        Some((c, _)) => c == '{' || (c == '[' || (c == '"' || c == '<')),
        None => false,
    }
}

// Whether the text begins with a year and `-` or a slash, as a date does.
fn opens_day(app: &str) -> bool
    ensures { result ≡ spec.opens_day (chars app.now) }
{
    let Some((a, after_a)) = first(app) else {
        return false;
    };
    let Some((b, after_b)) = first(after_a) else {
        return false;
    };
    let Some((c, after_c)) = first(after_b) else {
        return false;
    };
    let Some((d, after_d)) = first(after_c) else {
        return false;
    };
    match first(after_d) {
        Some((e, _)) => {
            ((a.is_ascii_digit() && b.is_ascii_digit())
                && (c.is_ascii_digit() && d.is_ascii_digit()))
                && (e == '-' || e == '/')
        }
        None => false,
    }
}

// Whether the app name is no program's: nothing, a number, or what begins a message. It is a call of its own, since few
// begin so.
#[cold]
#[inline(never)]
fn is_odd_word(app: &str) -> bool
    ensures { result ≡ spec.is_odd_app (chars app.now) }
{
    is_nothing(app)
        || (is_number(app)
            || (opens_brackets(app)
                || (opens_day(app)
                    || (is_word(app, "CEF")
                        || (is_word(app, "LEEF") || is_word(app, "Severity"))))))
}

// 1 for each byte with which an app name that is no program's may begin. The clause of `begins_oddly` says that each
// entry is right.
static ODD: [u8; 256] = [
    0, 0, 0, 0, 0, 0, 0, 0, 0, 0, 0, 0, 0, 0, 0, 0, 0, 0, 0, 0, 0, 0, 0, 0, 0, 0, 0, 0, 0, 0, 0, 0,
    0, 0, 1, 0, 0, 0, 0, 0, 0, 0, 0, 0, 0, 0, 0, 0, 1, 1, 1, 1, 1, 1, 1, 1, 1, 1, 0, 0, 1, 0, 0, 0,
    0, 0, 0, 1, 0, 0, 0, 0, 0, 0, 0, 0, 1, 0, 0, 0, 0, 0, 0, 1, 0, 0, 0, 0, 0, 0, 0, 1, 0, 0, 0, 0,
    0, 0, 0, 0, 0, 0, 0, 0, 0, 0, 0, 0, 0, 0, 0, 0, 0, 0, 0, 0, 0, 0, 0, 0, 0, 0, 0, 1, 0, 0, 0, 0,
    0, 0, 0, 0, 0, 0, 0, 0, 0, 0, 0, 0, 0, 0, 0, 0, 0, 0, 0, 0, 0, 0, 0, 0, 0, 0, 0, 0, 0, 0, 0, 0,
    0, 0, 0, 0, 0, 0, 0, 0, 0, 0, 0, 0, 0, 0, 0, 0, 0, 0, 0, 0, 0, 0, 0, 0, 0, 0, 0, 0, 0, 0, 0, 0,
    0, 0, 0, 0, 0, 0, 0, 0, 0, 0, 0, 0, 0, 0, 0, 0, 0, 0, 0, 0, 0, 0, 0, 0, 0, 0, 0, 0, 0, 0, 0, 0,
    0, 0, 0, 0, 0, 0, 0, 0, 0, 0, 0, 0, 0, 0, 0, 0, 0, 0, 0, 0, 0, 0, 0, 0, 0, 0, 0, 0, 0, 0, 0, 0,
];

// Whether an app name that is no program's may begin with the byte.
#[inline(always)]
fn begins_oddly(byte: u8) -> bool
    ensures { result ≡ spec.begins_oddly byte }
{
    ODD[byte as usize] != 0
}

// Whether the first byte is that of `CEF`, `LEEF` or `Severity`, and the second is not that of the same word.
#[inline(always)]
fn begin_no_word(first: u8, second: u8) -> bool
    ensures { result ≡ spec.begin_no_word first second }
{
    ((first == b'C' || first == b'L') && second != b'E') || (first == b'S' && second != b'e')
}

// Whether no odd app name begins with the two bytes at the front. Most app names begin so, and need no further look.
#[inline(always)]
fn begins_plainly(app: &[u8]) -> bool
    ensures { IsTrue result → spec.BeginsPlainly app.now }
{
    match app {
        [first, second, ..] => !begins_oddly(*first) || begin_no_word(*first, *second),
        _ => false,
    }
}

#[inline(always)]
fn is_odd_app(app: &str) -> bool
    ensures { result ≡ spec.is_odd_app (chars app.now) }
{
    if begins_plainly(app.as_bytes()) {
        false
    } else {
        is_odd_word(app)
    }
}

// Whether the text is no host, but the level of a line of ESXi. It is a call of its own, since few hosts have a bracket
// there.
#[cold]
#[inline(never)]
fn opens_level(host: &str) -> bool
    ensures { result ≡ spec.is_level_mark (chars host.now) }
{
    let Some((a, more)) = first(host) else {
        return false;
    };
    let Some((b, last)) = first(more) else {
        return false;
    };
    match first(last) {
        Some((c, _)) => (a.is_ascii_alphabetic() && b.is_ascii_alphabetic()) && c == '(',
        None => false,
    }
}

// Whether this byte is at this place. Where a text of the kinds below has another, it needs no further look.
#[inline(always)]
fn has_byte(text: &str, place: usize, byte: u8) -> bool
    ensures { result ≡ spec.has_byte place byte text.now }
{
    let bytes = text.as_bytes();
    place < bytes.len() && bytes[place] == byte
}

#[tactic(auto, using(crate::proofs::OddLemmas::no_level))]
#[inline(always)]
fn is_level_mark(host: &str) -> bool
    ensures { result ≡ spec.is_level_mark (chars host.now) }
{
    if has_byte(host, 2, b'(') {
        opens_level(host)
    } else {
        false
    }
}

// Whether the app name begins with the address of an access point. It is a call of its own, since few have a comma
// after twelve digits.
#[cold]
#[inline(never)]
fn is_point(app: &str) -> bool
    ensures { result ≡ opens_address_text (chars app.now) }
{
    opens_address(app)
}

#[tactic(auto, using(crate::proofs::OddLemmas::no_address))]
#[inline(always)]
fn is_address(app: &str) -> bool
    ensures { result ≡ opens_address_text (chars app.now) }
{
    if has_byte(app, 12, b',') {
        is_point(app)
    } else {
        false
    }
}

// Whether `%` begins the text, as it begins a mnemonic of Cisco's and a unit of Dell's, and no host. It is a call of
// its own, since few hosts begin so.
#[cold]
#[inline(never)]
fn opens_mnemonic(host: &str) -> bool
    ensures { result ≡ spec.opens_mnemonic (chars host.now) }
{
    match first(host) {
        Some((c, _)) => c == '%',
        None => false,
    }
}

#[tactic(auto, using(crate::proofs::OddLemmas::no_percent))]
#[inline(always)]
fn is_mnemonic(host: &str) -> bool
    ensures { result ≡ spec.opens_mnemonic (chars host.now) }
{
    if has_byte(host, 0, b'%') {
        opens_mnemonic(host)
    } else {
        false
    }
}

// Whether the two are not a host and a tag.
#[inline(always)]
fn is_odd(host: &str, app: &str) -> bool
    ensures { result ≡ spec.is_odd (chars host.now) (chars app.now) }
{
    is_odd_app(app) || (is_address(app) || (is_mnemonic(host) || is_level_mark(host)))
}

// Whether the line of RFC 3164 has a timestamp, a host and a tag.
#[inline(always)]
fn is_tagged(line: &Line<'_>) -> bool
    requires form { KnowsForm line.now }
    requires loose { line.now.version ≡ None }
    ensures { MatchBool result (IsTagged line.now) (IsTagged line.now → ⊥) }
{
    if line.timestamp.is_none() {
        return false;
    }
    let Some(host) = line.hostname else {
        return false;
    };
    let Some(app) = line.appname else {
        return false;
    };
    if is_odd(host, app) {
        return false;
    }
    line.is_printed || begins_with_tag(line.rest, host, app)
}

/// Returns whether a line that `syslog_loose` parsed by RFC 5424 or RFC 3164 keeps that reading, so that no dialect is
/// tried for it.
#[inline(always)]
pub fn is_ordinary(line: &Line<'_>) -> bool
    requires { KnowsForm line.now }
    ensures { MatchBool result (IsOrdinary line.now) (IsOrdinary line.now → ⊥) }
{
    if line.version.is_some() {
        return line.list.unparsed().is_none() || !is_paired(line);
    }
    !line.list.is_empty() || is_tagged(line)
}
