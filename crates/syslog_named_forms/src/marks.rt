//! Which marks may begin a text, told by its first character and by what ends its first word, and the messages that
//! begin with one. So few marks are looked for.
ghost use Rattle.std.specs.Prelude.{◌≡◌, ◌||◌, MatchOption, chars, false, true};
ghost use Rattle.syslog_text.specs.Pieces.Class.{NoFront, Row};
ghost use Rattle.syslog_text.specs.Pieces.View.{Recognises, shown};
ghost use Rattle.syslog_named_forms.specs.Hosts.{ReadsHost};
ghost use Rattle.syslog_named_forms.specs.Untagged as spec;
ghost use Rattle.syslog_sent.specs.Views.{Names, named_value};

use crate::hosts::AfterHost;
use crate::untagged::{Mark, read_mark};
use syslog_sent::named::{Named, untagged};
use syslog_sent::runs::{Run, split};
use syslog_text::text::first;

// Whether the character ends a key, a number or a topic.
#[inline(always)]
fn ends_list(c: char) -> bool
    ensures { result ≡ spec.ends_list c }
{
    c == '=' || c == ','
}

// Whether `=` or a comma follows the characters that keys, numbers and topics are made of.
fn may_be_list(text: &str) -> bool
    ensures { (result ≡ false) → NoFront (Row spec.pair_row) (chars text.now)
        × (NoFront (Row spec.topics_row) (chars text.now) × NoFront (Row spec.palo_alto_row) (chars text.now)) }
{
    let (_, rest) = split(text, Run::Either);
    match first(rest) {
        Some((c, _)) => ends_list(c),
        None => false,
    }
}

// The bits of the marks that may begin with each character of ASCII. The clause of `bits_in_list` says that each
// entry is right.
static IN_LIST: [u16; 128] = [
    0, 0, 0, 0, 0, 0, 0, 0, 0, 0, 0, 0, 0, 0, 0, 0, 0, 0, 0, 0, 0, 0, 0, 0, 0, 0, 0, 0, 0, 0, 0, 0,
    0, 256, 512, 0, 0, 0, 0, 0, 0, 0, 0, 0, 0, 276, 16, 16, 1304, 1304, 1304, 1304, 1304, 1304,
    1304, 1304, 1304, 1304, 0, 0, 512, 0, 0, 0, 0, 1296, 1296, 1425, 1424, 1424, 1424, 1424, 1424,
    1424, 1424, 1424, 1426, 1424, 1424, 1424, 1424, 1424, 1424, 1488, 400, 400, 400, 400, 272, 272,
    272, 512, 0, 0, 0, 16, 0, 276, 272, 272, 272, 272, 272, 272, 272, 272, 272, 272, 276, 276, 272,
    272, 272, 272, 272, 272, 272, 272, 272, 272, 272, 272, 272, 32, 0, 0, 0, 0,
];

// Those of the marks that are no key, no number and no topic. The clause of `other_bits` says that each entry is right.
static OTHERS: [u16; 128] = [
    0, 0, 0, 0, 0, 0, 0, 0, 0, 0, 0, 0, 0, 0, 0, 0, 0, 0, 0, 0, 0, 0, 0, 0, 0, 0, 0, 0, 0, 0, 0, 0,
    0, 0, 512, 0, 0, 0, 0, 0, 0, 0, 0, 0, 0, 4, 0, 0, 1024, 1024, 1024, 1024, 1024, 1024, 1024,
    1024, 1024, 1024, 0, 0, 512, 0, 0, 0, 0, 1024, 1024, 1153, 1152, 1152, 1152, 1152, 1152, 1152,
    1152, 1152, 1154, 1152, 1152, 1152, 1152, 1152, 1152, 1216, 128, 128, 128, 128, 0, 0, 0, 512,
    0, 0, 0, 0, 0, 4, 0, 0, 0, 0, 0, 0, 0, 0, 0, 0, 4, 4, 0, 0, 0, 0, 0, 0, 0, 0, 0, 0, 0, 0, 0,
    32, 0, 0, 0, 0,
];

// Returns the bits of the marks that may begin with the character.
#[inline(always)]
fn bits_in_list(c: char) -> u16
    ensures { (m : Mark) → spec.holds result m ≡ spec.begins m c }
{
    if c < '\u{80}' { IN_LIST[c as usize] } else { 0 }
}

// Returns the bits of those that are no key, no number and no topic.
#[inline(always)]
fn other_bits(c: char) -> u16
    ensures { (m : Mark) → spec.holds result m ≡ spec.begins_other m c }
{
    if c < '\u{80}' { OTHERS[c as usize] } else { 0 }
}

/// The marks that may begin a text.
#[derive(Clone, Copy)]
pub(crate) struct Marks {
    pub(crate) bits: u16,
}

impl Marks {
    // No mark.
    const NONE: Marks = Marks { bits: 0 };

    /// Returns whether the mark is one of them.
    #[inline(always)]
    fn has(self, mark: Mark) -> bool
        ensures { result ≡ spec.holds self.bits mark }
    {
        self.bits & mark.bit() != 0
    }

    /// Returns whether there is none.
    #[inline(always)]
    pub(crate) fn is_empty(self) -> bool
        ensures { (result ≡ true) → (m : Mark) → spec.holds self.bits m ≡ false }
    {
        self.bits == 0
    }

    /// Returns the marks that may begin the text, by its first character and by what ends its first word.
    #[inline(always)]
    fn of(text: &str) -> Marks
        ensures { spec.AreAll result.bits (chars text.now) }
    {
        let Some((c, _)) = first(text) else {
            return Marks::NONE;
        };
        let bits = bits_in_list(c);
        let others = other_bits(c);
        if bits == others {
            return Marks { bits };
        }
        if may_be_list(text) {
            return Marks { bits };
        }
        Marks { bits: others }
    }
}

/// The marks that may begin a text, and those that may begin what follows its host.
#[derive(Clone, Copy)]
pub(crate) struct MessageMarks {
    pub(crate) own: Marks,
    pub(crate) later: Marks,
}

// Returns the marks that may begin what follows a host; none if there is no host.
#[inline(always)]
fn later_marks<'a>(after_host: Option<AfterHost<'a>>) -> Marks
    ensures { MatchOption after_host.entry ((m : Mark) → spec.holds result.bits m ≡ false)
        (λ h. spec.AreAll result.bits (shown h.text)) }
{
    match after_host {
        Some(host) => Marks::of(host.text),
        None => Marks::NONE,
    }
}

impl MessageMarks {
    /// Returns the marks of a text. `after_host` is what `past_host` returned for it. Of most texts only two words are
    /// looked at.
    #[inline(always)]
    pub(crate) fn of<'a>(text: &'a str, after_host: Option<AfterHost<'a>>) -> MessageMarks
        ensures { spec.AreMarks result (chars text.entry.now) after_host.entry }
    {
        MessageMarks {
            own: Marks::of(text),
            later: later_marks(after_host),
        }
    }

    /// Returns whether the mark is one of either.
    #[inline(always)]
    pub(crate) fn has(self, mark: Mark) -> bool
        ensures { result ≡ (spec.holds self.own.bits mark || spec.holds self.later.bits mark) }
    {
        self.own.has(mark) || self.later.has(mark)
    }

    /// Returns whether there is none.
    #[inline(always)]
    pub(crate) fn is_empty(self) -> bool
        ensures { (result ≡ true) → ((m : Mark) → spec.holds self.own.bits m ≡ false)
            × ((m : Mark) → spec.holds self.later.bits m ≡ false) }
    {
        self.own.is_empty() && self.later.is_empty()
    }
}

/// Returns the text after the mark, where it begins the text.
#[inline(always)]
pub(crate) fn mark_end(text: &str, mark: Mark) -> Option<&str>
    ensures { Recognises (spec.mark_class mark) (chars text.now) result }
{
    let (c, _) = first(text)?;
    let marks = Marks {
        bits: bits_in_list(c),
    };
    if marks.has(mark) {
        read_mark(text, mark)
    } else {
        None
    }
}

// The text after the mark, which is looked for only if it is one of these.
#[inline(always)]
fn end_of(text: &str, marks: Marks, mark: Mark) -> Option<&str>
    ensures { spec.AreAll marks.bits (chars text.now) → Recognises (spec.mark_class mark) (chars text.now) result }
{
    if marks.has(mark) {
        read_mark(text, mark)
    } else {
        None
    }
}

/// Returns a message that the mark begins, or a host and such a message. `marks` is what `MessageMarks::of` returned
/// for the text.
#[inline(always)]
pub(crate) fn message<'a>(
    text: &'a str,
    after_host: Option<AfterHost<'a>>,
    marks: MessageMarks,
    mark: Mark,
) -> Option<Named<'a>>
    ensures { ReadsHost (chars text.entry.now) after_host.entry
        → spec.AreMarks marks (chars text.entry.now) after_host.entry
        → Names (spec.message mark) named_value (chars text.entry.now) result }
{
    if let Some(_) = end_of(text, marks.own, mark) {
        return Some(untagged(None, text));
    }
    let host = after_host?;
    let _ = end_of(host.text, marks.later, mark)?;
    Some(untagged(host.hostname, host.text))
}
