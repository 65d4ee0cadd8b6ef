//! White space, blanks, numbers, words and fields.
//!
//! **Rule.** Hosts and words are those of RFC 5424 (section 6), read loosely: a run without white space, of any length,
//! where `-` is an absent one. Fields and tag words are those of RFC 3164 (section 4) as the Rust crate reads them.
//!
//! One scanner cuts the maximal run of a class of characters from the front of a text, and every reader of a word rests
//! on it. A reader returns what its class in `specs/Text.antt` means and the rest, or none if no front of the text is
//! of the class. Nothing here allocates, and no text is copied.
ghost use Rattle.std.specs.Prelude.{◌≡◌, ◌<◌, [], ◌∷◌, IfSome, IsTrue, Option, MatchOption, bytes_eq, chars, IsUtf8};
ghost use Rattle.syslog_text.specs.Words.{has, Front, exactly, optional, run, some_run, spaced, field_seen, seen};
ghost use Rattle.syslog_text.specs.Words.{shown, Reads, Skips};
ghost use Rattle.syslog_text.specs.declared.text.CharClass.TheVariants.{Blank, Digit};
ghost use Rattle.syslog_text.specs.Bodies.Scan.{EndsRun, IsBare, SplitsRun};
ghost use Rattle.syslog_text.specs.Text as spec;

pub mod bounded;
pub mod canonical;
mod lanes;
mod looks;
mod numerals;
mod scan;
pub mod verbatim;
pub mod write_ascii;

use lanes::visible_front;
use looks::{begins_visibly, begins_with, begins_with_gap};
pub use looks::{begins_negative, begins_with_digit, ends_in_colon, leads_bare};
use numerals::{number_of_digits, small_digits};
use scan::{ascii_run, is_cut, is_in};

/// A class of characters, of which runs are read.
#[derive(Clone, Copy)]
pub enum CharClass {
    /// ASCII digits.
    Digit,
    /// A space or a tab.
    Blank,
    /// Anything but white space.
    Visible,
    /// Anything but white space, `]` and `=`: the characters of an element's id.
    Id,
    /// Anything but `]` and `=`: the characters of a parameter's name.
    Name,
    /// Anything but a backslash and a quote: what a value is mostly made of.
    Unescaped,
    /// Anything but `]`: what a broken element is made of.
    Open,
    /// Anything but a backslash, a quote and `]`.
    Inert,
    /// Anything but a backslash.
    Bare,
    /// Anything but white space and a colon: the characters of a tag word.
    Tag,
    /// Anything but white space, a colon and `[`: the characters of the tag in `tag[id]`.
    Label,
    /// PRINTUSASCII of RFC 5424: `!` to `~`.
    Printable,
    /// PRINTUSASCII without `=`, `]` and `"`: the characters of an SD-NAME of RFC 5424.
    SdName,
}

impl CharClass {
    /// Returns whether the character is of the class.
    #[inline(always)]
    pub fn has(self, c: char) -> bool
        ensures { result ≡ has self c }
    {
        match self {
            CharClass::Digit => c.is_ascii_digit(),
            CharClass::Blank => c == ' ' || c == '\t',
            CharClass::Visible => !c.is_whitespace(),
            CharClass::Id => !c.is_whitespace() && (c != ']' && c != '='),
            CharClass::Name => c != ']' && c != '=',
            CharClass::Unescaped => c != '\\' && c != '"',
            CharClass::Open => c != ']',
            CharClass::Inert => (c != '\\' && c != '"') && c != ']',
            CharClass::Bare => c != '\\',
            CharClass::Tag => !c.is_whitespace() && c != ':',
            CharClass::Label => (!c.is_whitespace() && c != ':') && c != '[',
            CharClass::Printable => '!' <= c && c <= '~',
            CharClass::SdName => ('!' <= c && c <= '~') && !(c == '=' || (c == ']' || c == '"')),
        }
    }
}

/// Returns the maximal run of the class at the front of the text, which may be empty, and the text after it.
#[tactic(auto, using(crate::proofs::TextLemmas::Runs::split_at_end))]
#[inline(always)]
pub fn split_run(text: &str, class: CharClass) -> (&str, &str)
    ensures { SplitsRun (has class) text.now result.0.now result.1.now }
{
    text.split_at(run_end(text, class))
}

/// Returns how many bytes the maximal run of the class at the front of the text has.
#[inline(always)]
pub fn run_end(text: &str, class: CharClass) -> usize
    ensures { EndsRun (has class) text.now result }
{
    let end = ascii_run(text.as_bytes(), class);
    if is_cut(text.as_bytes(), end) {
        end
    } else {
        mixed_run_end(text, class)
    }
}

// Returns the place after a run that reaches a character past ASCII. Most visible ones are skipped by their bytes, and
// all others are looked at one by one.
#[cold]
#[inline(never)]
fn mixed_run_end(text: &str, class: CharClass) -> usize
    ensures { EndsRun (has class) text.now result }
{
    if let CharClass::Visible = class {
        if let Some(end) = visible_front(text.as_bytes()) {
            return end;
        }
    }
    match text.find(|c: char| !class.has(c)) {
        Some(end) => end,
        None => text.len(),
    }
}

/// Returns the first character, and the text after it; none if the text is empty.
#[tactic(auto, using(std::proofs::lemmas::Str::chars_past_char))]
#[inline(always)]
pub fn first(text: &str) -> Option<(char, &str)>
    ensures { MatchOption result (chars text.now ≡ []) (λ x. (chars text.now ≡ x.0 ∷ shown x.1) × IsUtf8 x.1.now) }
{
    let mut all = text.chars();
    let c = all.next()?;
    Some((c, all.as_str()))
}

/// Returns the text after this ASCII character; none if the text does not begin with it.
#[inline(always)]
pub fn literal(text: &str, c: char) -> Option<&str>
    requires { c < 128 }
    ensures { Skips (exactly (c ∷ [])) tt (chars text.now) result }
{
    if begins_with(text.as_bytes(), c as u8) {
        Some(text.split_at(1).1)
    } else {
        None
    }
}

/// Returns the text after a colon at its front, and the whole text if there is none.
#[inline(always)]
pub fn past_colon(text: &str) -> &str
    ensures { (more : Option (Unit {0})) × Front (optional (exactly spec.colon)) (chars text.now) (shown result) more }
{
    match literal(text, ':') {
        Some(rest) => rest,
        None => text,
    }
}

/// Returns the text after the blanks at its front, if there are any.
#[tactic(auto, using(crate::proofs::TextLemmas::Runs::no_blanks, crate::proofs::TextLemmas::Runs::split_at_end))]
#[inline(always)]
pub fn blanks(text: &str) -> &str
    ensures { Front (run spec.is_blank) (chars text.now) (shown result) tt }
{
    if begins_visibly(text.as_bytes()) {
        return text;
    }
    if let Some(rest) = past_space(text) {
        return rest;
    }
    text.split_at(blanks_end(text)).1
}

/// Returns the text after the blanks at its front; none if there are none.
#[tactic(auto, using(crate::proofs::TextLemmas::Runs::some_read))]
#[inline(always)]
pub fn some_blanks(text: &str) -> Option<&str>
    ensures { Skips (some_run spec.is_blank) tt (chars text.now) result }
{
    if let Some(rest) = past_space(text) {
        return Some(rest);
    }
    let (front, rest) = text.split_at(blanks_end(text));
    if front.is_empty() { None } else { Some(rest) }
}

/// Returns the text after a space that no blank follows; none otherwise. Most gaps are so, and need no scan.
#[inline(always)]
pub fn past_space(text: &str) -> Option<&str>
    ensures { IfSome result (λ rest. Front (some_run spec.is_blank) (chars text.now) (shown rest) tt
        × (chars text.now ≡ 32 ∷ shown rest)) }
{
    if begins_with_gap(text.as_bytes()) {
        Some(text.split_at(1).1)
    } else {
        None
    }
}

// Returns the place after the blanks at the front. It is a function of its own, since few gaps need a scan. It returns
// a place and not a text, so that no text goes through memory.
#[cold]
#[inline(never)]
fn blanks_end(text: &str) -> usize
    ensures { EndsRun (has Blank) text.now result }
{
    run_end(text, CharClass::Blank)
}

/// Returns the number at the front and the text after it; none if there is no digit, or the number is above `limit`.
/// Leading zeros are allowed.
#[tactic(auto, using(crate::proofs::TextLemmas::Words::number_past))]
#[inline(always)]
pub fn number(text: &str, limit: u32) -> Option<(u32, &str)>
    ensures { Reads (spec.number limit) (λ n. n) (chars text.now) result }
{
    let (value, rest) = any_number(text)?;
    (value <= limit).then_some((value, rest))
}

// Returns the number of 32 bits at the front, and the text after it. One of one to three digits, as most are, needs no
// scan.
#[inline(always)]
fn any_number(text: &str) -> Option<(u32, &str)>
    ensures { Reads (spec.number 4294967295) (λ n. n) (chars text.now) result }
{
    if !begins_with_digit(text.as_bytes()) {
        return None;
    }
    if let Some((value, after)) = small_digits(text.as_bytes()) {
        let (_, rest) = text.split_at(text.len() - after.len());
        return Some((value, rest));
    }
    let (digits, rest) = text.split_at(digits_end(text));
    let value = number_of_digits(digits)?;
    Some((value, rest))
}

// Returns the place after the digits at the front. It is a function of its own, since few numbers need a scan.
#[cold]
#[inline(never)]
fn digits_end(text: &str) -> usize
    ensures { EndsRun (has Digit) text.now result }
{
    run_end(text, CharClass::Digit)
}

// Whether the text is this one byte.
#[inline(always)]
fn is_byte(text: &str, byte: u8) -> bool
    ensures { result ≡ bytes_eq text.now (byte ∷ []) }
{
    matches!(text.as_bytes(), [only] if *only == byte)
}

// Returns the name that a run of characters is: none for `-`.
#[tactic(auto, using(crate::proofs::TextLemmas::Words::dash_told))]
#[inline(always)]
fn named(run: &str) -> Option<&str>
    ensures { spec.Names (chars run.now) (seen result) }
{
    if is_byte(run, b'-') { None } else { Some(run) }
}

/// Returns the word of RFC 5424 at the front, absent if it is `-`, and the text after it; none if there is no word. App
/// name, process id and message id are words.
#[inline(always)]
pub fn word(text: &str) -> Option<(Option<&str>, &str)>
    ensures { Reads spec.word seen (chars text.now) result }
{
    let (run, rest) = split_run(text, CharClass::Visible);
    if run.is_empty() {
        return None;
    }
    if is_byte(run, b':') {
        return None;
    }
    Some((named(run), rest))
}

/// Returns the host at the front, absent if it is `-`, and the text after it; none if there is no host. If the host
/// ends in colons, the last one is left to the text after it.
#[tactic(auto, using(crate::proofs::TextLemmas::Words::host_reads))]
#[inline(always)]
pub fn host(text: &str) -> Option<(Option<&str>, &str)>
    ensures { Reads spec.host seen (chars text.now) result }
{
    let (run, rest) = split_run(text, CharClass::Visible);
    if run.is_empty() {
        return None;
    }
    if !ends_in_colon(run.as_bytes()) {
        return Some((named(run), rest));
    }
    let (front, after) = text.split_at(run.len() - 1);
    if front.is_empty() {
        return None;
    }
    Some((Some(front), after))
}

/// Returns the tag word of RFC 3164 at the front, empty if it is `-`, and the text after it; none if there is no tag
/// word.
#[inline(always)]
pub fn tag_word(text: &str) -> Option<(Option<&str>, &str)>
    ensures { Reads spec.tag_word seen (chars text.now) result }
{
    let (run, rest) = split_run(text, CharClass::Tag);
    if run.is_empty() {
        return None;
    }
    Some((named(run), rest))
}

/// A field of RFC 3164: a space, and a host or a tag word.
#[derive(Clone, Copy)]
pub enum Field<'a> {
    /// There is no such field.
    Missing,
    /// The field is `-`, which names nothing.
    Dash,
    /// The field is this name.
    Name(&'a str),
}

impl<'a> Field<'a> {
    ghost use Rattle.std.specs.Prelude.{◌≡◌, Some};
    ghost use Rattle.std.specs.Option.{is_some, option_flatten};
    ghost use Rattle.syslog_text.specs.Words.{field_seen, seen};

    // Returns the field with this name, which is absent for `-`.
    #[inline(always)]
    fn of(name: Option<&'a str>) -> Field<'a>
        ensures { field_seen result ≡ Some (seen name.entry) }
    {
        match name {
            Some(name) => Field::Name(name),
            None => Field::Dash,
        }
    }

    /// Returns whether there is such a field.
    #[inline(always)]
    pub fn is_there(self) -> bool
        ensures { result ≡ is_some (field_seen self.entry) }
    {
        !matches!(self, Field::Missing)
    }

    /// Returns the name; none if the field is `-` or missing.
    #[inline(always)]
    pub fn name(self) -> Option<&'a str>
        ensures { seen result ≡ option_flatten (field_seen self.entry) }
    {
        match self {
            Field::Name(name) => Some(name),
            _ => None,
        }
    }
}

/// Returns the host field of RFC 3164, and the text after it. The field is there if a space and a host begin the text.
#[inline(always)]
pub fn host_field(text: &str) -> (Field<'_>, &str)
    ensures { Front (optional (spaced spec.host)) (chars text.now) (shown result.1) (field_seen result.0) }
{
    let Some(after_space) = literal(text, ' ') else {
        return (Field::Missing, text);
    };
    match host(after_space) {
        Some((name, rest)) => (Field::of(name), rest),
        None => (Field::Missing, text),
    }
}

/// Returns the tag field of RFC 3164, and the text after it. The field is there if a space and a tag word begin the
/// text.
#[inline(always)]
pub fn tag_field(text: &str) -> (Field<'_>, &str)
    ensures { Front (optional (spaced spec.tag_word)) (chars text.now) (shown result.1) (field_seen result.0) }
{
    let Some(after_space) = literal(text, ' ') else {
        return (Field::Missing, text);
    };
    match tag_word(after_space) {
        Some((tag, rest)) => (Field::of(tag), rest),
        None => (Field::Missing, text),
    }
}

/// Returns the text without the white space at its two ends.
#[tactic(auto, using(crate::proofs::TextLemmas::Runs::bare_trimmed))]
#[inline(always)]
pub fn trimmed(text: &str) -> &str
    ensures { shown result ≡ spec.trimmed (chars text.now) }
{
    if is_bare(text.as_bytes()) {
        text
    } else {
        trim(text)
    }
}

// Trims any text. It is a call, since few lines have white space or a character past ASCII at an end. White space of
// ASCII is left out first, since few lines have any other there.
#[tactic(auto, using(crate::proofs::TextLemmas::Runs::trimmed_chars))]
#[inline(never)]
fn trim(text: &str) -> &str
    ensures { shown result ≡ spec.trimmed (chars text.now) }
{
    let inner = text.trim_ascii();
    if is_bare(inner.as_bytes()) {
        inner
    } else {
        text.trim()
    }
}

// Whether the first and the last byte are ASCII and not white space.
#[inline(always)]
fn is_bare(bytes: &[u8]) -> bool
    ensures { IsTrue result → IsBare bytes.now }
{
    matches!(bytes, [first, .., last] if is_in(*first, CharClass::Visible) && is_in(*last, CharClass::Visible))
}
