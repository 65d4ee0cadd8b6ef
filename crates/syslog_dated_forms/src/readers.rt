//! Readers made of other readers: of words that pass a test, and of pieces that may be absent.
ghost use Rattle.std.specs.Prelude.{◌≡◌, ◌⊎◌, MatchOption, chars, false, true};
ghost use Rattle.syslog_text.specs.Pieces.Class.{Front, NoFront, Text, run};
ghost use Rattle.syslog_text.specs.Pieces.View.{shown};
ghost use Rattle.syslog_text.specs.Text.{is_blank};
ghost use Rattle.syslog_sent.specs.Date.{iso_date};
ghost use Rattle.syslog_sent.specs.Led.{IsLed};
ghost use Rattle.syslog_sent.specs.Zone.{bare_word as any_word};

use syslog_sent::led::{LeadingDate, Led};
use syslog_sent::sent::SentDate;
use syslog_sent::zone::bare_word;

/// Returns the word at the front, if it passes the test, and the text after it.
#[inline(always)]
pub(crate) fn word_if<'a, F: FnOnce(&'a str) -> bool>(
    text: &'a str,
    passes: F,
) -> Option<(&'a str, &'a str)>
    requires { (word : _) → F.pre passes word }
    ensures { MatchOption result
        (NoFront any_word (chars text.entry.now) ⊎ ((w : _) × (q : _)
        × Front any_word (chars text.entry.now) q (shown w) × F.post passes w false))
        (λ x. Front any_word (chars text.entry.now) (shown x.1) (shown x.0) × F.post passes x.0 true) }
{
    let (word, rest) = bare_word(text)?;
    if passes(word) {
        Some((word, rest))
    } else {
        None
    }
}

/// Returns the text after the word at the front, if that passes the test.
#[inline(always)]
pub(crate) fn past_word_if<'a, F: FnOnce(&'a str) -> bool>(
    text: &'a str,
    passes: F,
) -> Option<&'a str>
    requires { (word : _) → F.pre passes word }
    ensures { MatchOption result
        (NoFront any_word (chars text.entry.now) ⊎ ((w : _) × (q : _)
        × Front any_word (chars text.entry.now) q (shown w) × F.post passes w false))
        (λ rest. (w : _) × Front any_word (chars text.entry.now) (shown rest) (shown w) × F.post passes w true) }
{
    let (_, rest) = word_if(text, passes)?;
    Some(rest)
}

/// Returns the text after a piece, and all of it if it begins with none.
#[inline(always)]
pub(crate) fn past_any<'a, F: FnOnce(&'a str) -> Option<&'a str>>(text: &'a str, read: F) -> &'a str
    requires { F.pre read text }
    ensures { (m : _) × F.post read text.entry m × MatchOption m (result ≡ text.entry) (λ rest. result ≡ rest) }
{
    match read(text) {
        Some(rest) => rest,
        None => text,
    }
}

/// Returns the date that begins a line, if it is one of RFC 3339 or nearly one, and the text after it.
pub(crate) fn iso<'a>(led: &Led<'a>) -> Option<(SentDate, &'a str)>
    ensures { (text : Text) → IsLed text led.now → (at : Text) × Front (run is_blank) text at tt
        × MatchOption result (NoFront iso_date at) (λ x. Front iso_date at (shown x.1) x.0) }
{
    match led.date {
        LeadingDate::Month(_) => None,
        LeadingDate::Iso(date) => Some((date, led.rest)),
    }
}
