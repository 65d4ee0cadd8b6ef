//! Lines of Cisco's systems: IOS, IOS-XE, NX-OS, ASA, FTD and WLC. Dell's OS9 writes as IOS does, and names a unit.
//!
//! **Rule.** The app name is `%FACILITY-SEVERITY-MNEMONIC`, and the message is what follows its colon. Counters,
//! sequence numbers, tasks, the virtual device of NX-OS and the mark of a clock that is not right are left out. The
//! host is the name before the date, or otherwise the one after it; a line that has neither has no host. A name is a
//! word up to its first colon, or an address of IPv6 with `::`. (Cisco, "System Message Format": IOS System Messages
//! Guide; NX-OS System Messages Reference; ASA Syslog Messages.)
//!
//! `<189>29: *Mar  1 18:48:50.483: %SYS-5-CONFIG_I: text`, `<187>4211: core-sw1: Mar  1 18:48:50 CET: %LINK-3-UPDOWN:
//! text`, `<189>: 2026 Mar  1 18:48:50 CET: %ETHPORT-5-IF_DOWN: text`, `<166>Mar 01 2026 18:48:50 asa1 : %ASA-6-302013:
//! text`, `<189>Mar  2 06:33:04 s4810 %STKUNIT0-M:CP %SEC-5-LOGIN_SUCCESS: text`, `<189>: 2026 Mar  1 18:48:50 UTC: %$
//! VDC-1 %$ %ETHPORT-5-IF_UP: text`.
ghost use Rattle.std.specs.Prelude.{◌≡◌, ◌++◌, ◌∷◌, [], chars, IsTrue, MatchBool, MatchOption, Option, Some};
ghost use Rattle.std.specs.Char.{is_ascii_digit};
ghost use Rattle.syslog_text.specs.Pieces.Class.{Front, NoFront, Row, Text, exactly, optional, run};
ghost use Rattle.syslog_text.specs.Pieces.View.{Reads, Recognises, seen, shown};
ghost use Rattle.syslog_text.specs.Text.{is_blank};
ghost use Rattle.syslog_sent.specs.Date.{any_date as date_class};
ghost use Rattle.syslog_dated_forms.specs.CiscoViews.{cisco_values, message_values};
ghost use Rattle.syslog_sent.specs.Forms.{Finds};
ghost use Rattle.syslog_sent.specs.Led.{IsLed};
ghost use Rattle.syslog_sent.specs.Named.{◌otherwise◌, BeginsWith};
ghost use Rattle.syslog_sent.specs.Runs.{are_ascii};
ghost use Rattle.syslog_sent.specs.Sent.{sent_value};
ghost use Rattle.syslog_sent.specs.Zone.{bare_word as any_word};
ghost use Rattle.syslog_dated_forms.specs.Cisco as spec;

use crate::address::address;
use crate::readers::{past_any, word_if};
use syslog_pieces::timestamp::MonthDate;
use syslog_pieces::timestamp::pairs::year;
use syslog_sent::date::any_date;
use syslog_sent::dialect::Dialect;
use syslog_sent::led::{LeadingDate, Led};
use syslog_sent::named::past;
use syslog_sent::sent::{Sent, SentDate};
use syslog_sent::skips::{colon, digits, gap, plain_word, space};
use syslog_sent::zone::bare_word;
use syslog_text::text::{begins_with_digit, blanks, first, literal, past_colon};

// Whether a host's name may begin with this character: a letter or a digit.
fn begins_host(c: char) -> bool
    ensures { result ≡ spec.begins_host c }
{
    c.is_ascii_digit() || c.is_ascii_alphabetic()
}

/// Returns whether the word begins as a host does.
pub(crate) fn is_host(word: &str) -> bool
    ensures { MatchBool result (BeginsWith spec.begins_host (chars word.now))
        (BeginsWith spec.begins_host (chars word.now) → ⊥) }
{
    match first(word) {
        Some((c, _)) => begins_host(c),
        None => false,
    }
}

// Whether the word begins with `%` or `#`, and then a letter.
fn is_mnemonic(word: &str) -> bool
    ensures { MatchBool result (spec.IsMnemonic (chars word.now)) (spec.IsMnemonic (chars word.now) → ⊥) }
{
    let Some((mark, more)) = first(word) else {
        return false;
    };
    match first(more) {
        Some((letter, _)) => (mark == '%' || mark == '#') && letter.is_ascii_alphabetic(),
        None => false,
    }
}

// Whether the text begins with these ASCII words.
pub(crate) fn starts(text: &str, words: &str) -> bool
    requires { IsTrue (are_ascii words.now) }
    ensures { MatchBool result (spec.Starts words.now (chars text.now)) (spec.Starts words.now (chars text.now) → ⊥) }
{
    match past(text, words) {
        Some(_) => true,
        None => false,
    }
}

fn is_asa_tag(tag: &str) -> bool
    ensures { MatchBool result (spec.IsAsaTag (chars tag.now)) (spec.IsAsaTag (chars tag.now) → ⊥) }
{
    starts(tag, "%ASA-") || starts(tag, "%FTD-")
}

// Returns a word at the front that begins as a host's name does, and the text after it.
#[tactic(auto, using(crate::proofs::ReaderLemmas::such_word))]
fn word_origin(text: &str) -> Option<(&str, &str)>
    ensures { Reads spec.word_origin (λ word. shown word) (chars text.now) result }
{
    word_if(text, is_host)
}

/// Returns a host's name at the front, or its address of IPv6, and the text after it.
pub(crate) fn origin(text: &str) -> Option<(&str, &str)>
    ensures { Reads spec.origin (λ word. shown word) (chars text.now) result }
{
    if let Some(found) = address(text) {
        return Some(found);
    }
    word_origin(text)
}

fn optional_origin(text: &str) -> (Option<&str>, &str)
    ensures { Front (optional spec.origin) (chars text.now) (shown result.1) (seen result.0) }
{
    match origin(text) {
        Some((host, rest)) => (Some(host), rest),
        None => (None, text),
    }
}

// Whether `%` or `#` begins the text.
#[inline(always)]
fn begins_with_mark(text: &str) -> bool
    ensures { MatchBool result (BeginsWith spec.begins_mnemonic (chars text.now))
        (BeginsWith spec.begins_mnemonic (chars text.now) → ⊥) }
{
    match first(text) {
        Some((c, _)) => c == '%' || c == '#',
        None => false,
    }
}

// Returns `%FACILITY-SEVERITY-MNEMONIC` at the front, and the text after it.
fn mnemonic(text: &str) -> Option<(&str, &str)>
    ensures { Reads spec.mnemonic (λ word. shown word) (chars text.now) result }
{
    if !begins_with_mark(text) {
        return None;
    }
    word_if(text, is_mnemonic)
}

/// Returns the text after a counter, a colon and blanks.
pub(crate) fn counter(text: &str) -> Option<&str>
    ensures { Recognises (Row spec.counter_row) (chars text.now) result }
{
    if !begins_with_digit(text.as_bytes()) {
        return None;
    }
    digits(text).and_then(colon).and_then(gap)
}

/// Returns the name of a device before a colon and blanks, and the text after these.
pub(crate) fn label(text: &str) -> Option<(&str, &str)>
    ensures { Reads spec.label (λ word. shown word) (chars text.now) result }
{
    let (host, rest) = origin(text)?;
    let rest = colon(rest)?;
    let rest = gap(rest)?;
    Some((host, rest))
}

/// Returns such a name, if the text begins with one, and the text after it.
pub(crate) fn optional_label(text: &str) -> (Option<&str>, &str)
    ensures { Front (optional spec.label) (chars text.now) (shown result.1) (seen result.0) }
{
    match label(text) {
        Some((host, rest)) => (Some(host), rest),
        None => (None, text),
    }
}

fn star(text: &str) -> Option<&str>
    ensures { Recognises (exactly (42 ∷ [])) (chars text.now) result }
{
    literal(text, '*')
}

fn task_name(text: &str) -> Option<&str>
    ensures { Recognises any_word (chars text.now) result }
{
    let (_, rest) = bare_word(text)?;
    Some(rest)
}

fn task(text: &str) -> Option<&str>
    ensures { Recognises (Row spec.task_row) (chars text.now) result }
{
    star(text).and_then(task_name).and_then(colon).and_then(gap)
}

fn mark(text: &str) -> Option<&str>
    ensures { Recognises spec.mark (chars text.now) result }
{
    match literal(text, '*') {
        Some(rest) => Some(rest),
        None => literal(text, '.'),
    }
}

// Reads what comes before the date: returns the host, if it comes there, and the text from the date on.
fn start(text: &str) -> (Option<&str>, &str)
    ensures { Front spec.start (chars text.now) (shown result.1) (seen result.0) }
{
    let after_gap = blanks(text);
    let after_colon = past_colon(after_gap);
    let begun = blanks(after_colon);
    let after_counter = past_any(begun, counter);
    let after_number = past_any(after_counter, counter);
    let (host, after_host) = optional_label(after_number);
    let numbered = past_any(after_host, counter);
    let after_task = past_any(numbered, task);
    let rest = past_any(after_task, mark);
    (host, rest)
}

// Returns a year before blanks, and the text after these.
pub(crate) fn front_year(text: &str) -> Option<(u16, &str)>
    ensures { Reads spec.front_year (λ y. y) (chars text.now) result }
{
    let (year, rest) = year(text)?;
    let rest = gap(rest)?;
    Some((year, rest))
}

pub(crate) fn optional_front_year(text: &str) -> (Option<u16>, &str)
    ensures { Front (optional spec.front_year) (chars text.now) (shown result.1) result.0 }
{
    match front_year(text) {
        Some((year, rest)) => (Some(year), rest),
        None => (None, text),
    }
}

fn percent(text: &str) -> Option<&str>
    ensures { Recognises (exactly (37 ∷ [])) (chars text.now) result }
{
    literal(text, '%')
}

fn dollar(text: &str) -> Option<&str>
    ensures { Recognises (exactly (36 ∷ [])) (chars text.now) result }
{
    literal(text, '$')
}

// Returns the text after Dell's unit and blanks.
fn dell_end(text: &str) -> Option<&str>
    ensures { Recognises (Row spec.dell_row) (chars text.now) result }
{
    plain_word(text)
        .and_then(colon)
        .and_then(plain_word)
        .and_then(gap)
}

// Returns the text after a virtual device context and blanks.
fn context_end(text: &str) -> Option<&str>
    ensures { Recognises (Row spec.context_row) (chars text.now) result }
{
    dollar(text)
        .and_then(space)
        .and_then(plain_word)
        .and_then(space)
        .and_then(percent)
        .and_then(dollar)
        .and_then(gap)
}

// Returns the text after a unit or a virtual device context, but for its `%`.
fn unit_name(text: &str) -> Option<&str>
    ensures { Recognises (Row spec.dell_row otherwise Row spec.context_row) (chars text.now) result }
{
    if let Some(rest) = dell_end(text) {
        return Some(rest);
    }
    context_end(text)
}

// Returns the text after either.
fn unit_end(text: &str) -> Option<&str>
    ensures { Recognises (Row spec.unit_row) (chars text.now) result }
{
    percent(text).and_then(unit_name)
}

// Returns the text after either, where a mnemonic may follow it.
fn unit(text: &str) -> Option<&str>
    ensures { Recognises spec.unit (chars text.now) result }
{
    let rest = unit_end(text)?;
    if !begins_with_mark(rest) {
        return None;
    }
    Some(rest)
}

// Reads what comes after the date: returns the host, if it comes there, and the text after it.
fn place(text: &str) -> (Option<&str>, &str)
    ensures { Front spec.place (chars text.now) (shown result.1) (seen result.0) }
{
    let (host, rest) = optional_origin(blanks(text));
    (host, past_any(blanks(past_colon(blanks(rest))), unit))
}

/// Reads a mnemonic, a colon and the message: returns the mnemonic and the message.
pub(crate) fn message(text: &str) -> Option<(&str, &str)>
    ensures { MatchOption result (NoFront (Row spec.message_row) (chars text.now))
        (λ x. Front (Row spec.message_row) (chars text.now) [] (message_values (shown x.0) (shown x.1))) }
{
    let (tag, rest) = mnemonic(text)?;
    let rest = colon(blanks(rest))?;
    Some((tag, blanks(rest)))
}

/// Returns the date, in the year that is shown before it if one is.
pub(crate) fn dated_in(year: Option<u16>, shown: SentDate) -> SentDate
    ensures { result ≡ spec.dated_in year shown }
{
    match year {
        Some(year) => SentDate {
            date: MonthDate {
                year: Some(u32::from(year)),
                ..shown.date
            },
            ..shown
        },
        None => shown,
    }
}

/// What a line of Cisco's systems shows.
#[derive(Clone, Copy)]
pub(crate) struct Cisco<'a> {
    pub(crate) first_host: Option<&'a str>,
    pub(crate) year: Option<u16>,
    pub(crate) date: SentDate,
    pub(crate) second_host: Option<&'a str>,
    pub(crate) tag: &'a str,
    pub(crate) msg: &'a str,
}

// Returns what a line shows, from what comes up to its date and what comes after it.
fn shown_after<'a>(
    first_host: Option<&'a str>,
    year: Option<u16>,
    date: SentDate,
    rest: &'a str,
) -> Option<Cisco<'a>>
    ensures { (text : Text) → spec.IsDated text (seen first_host.entry) year date (chars rest.entry.now)
        → MatchOption result (NoFront (Row spec.cisco_row) text)
        (λ x. Front (Row spec.cisco_row) text [] (cisco_values x)) }
{
    let (second_host, after_place) = place(rest);
    let (tag, msg) = message(after_place)?;
    Some(Cisco {
        first_host,
        year,
        date,
        second_host,
        tag,
        msg,
    })
}

/// Returns what the line shows, if it is one of theirs with a date.
pub(crate) fn shown_line(text: &str) -> Option<Cisco<'_>>
    ensures { MatchOption result (NoFront (Row spec.cisco_row) (chars text.now))
        (λ x. Front (Row spec.cisco_row) (chars text.now) [] (cisco_values x)) }
{
    let (first_host, after_start) = start(text);
    let (year, at_date) = optional_front_year(after_start);
    let (date, rest) = any_date(at_date)?;
    shown_after(first_host, year, date, rest)
}

// Whether the two texts have one length. Two ends of the same text are the same then.
fn are_one_end(a: &str, b: &str) -> bool
    ensures { IsTrue result → (p q : Text) → p ++ chars a.now ≡ q ++ chars b.now → chars a.now ≡ chars b.now }
{
    a.len() == b.len()
}

// Returns what a line shows that begins with this date, after blanks or none. A date of RFC 3339 is read again only if
// a name or a counter comes before it; neither comes before a month date.
fn shown_led<'a>(text: &'a str, led: &Led<'a>) -> Option<Cisco<'a>>
    ensures { IsLed (chars text.entry.now) led.now
        → MatchOption result (NoFront (Row spec.cisco_row) (chars text.entry.now))
        (λ x. Front (Row spec.cisco_row) (chars text.entry.now) [] (cisco_values x)) }
{
    match led.date {
        LeadingDate::Month(date) => shown_after(None, None, date.sent(), led.rest),
        LeadingDate::Iso(date) => shown_from(text, led.text, date, led.rest),
    }
}

// Returns what a line shows, of which `text` is the part from the date on.
fn shown_from<'a>(text: &'a str, begun: &'a str, date: SentDate, rest: &'a str) -> Option<Cisco<'a>>
    ensures { Front (run is_blank) (chars text.entry.now) (chars begun.entry.now) tt
        → Front date_class (chars begun.entry.now) (chars rest.entry.now) date
        → MatchOption result (NoFront (Row spec.cisco_row) (chars text.entry.now))
        (λ x. Front (Row spec.cisco_row) (chars text.entry.now) [] (cisco_values x)) }
{
    let (first_host, after_start) = start(text);
    let (year, at_date) = optional_front_year(after_start);
    if are_one_end(at_date, begun) {
        return shown_after(first_host, year, date, rest);
    }
    let (date, rest) = any_date(at_date)?;
    shown_after(first_host, year, date, rest)
}

impl<'a> Cisco<'a> {
    fn sent(&self) -> Sent<'a>
        ensures { sent_value result ≡ spec.cisco_sent (cisco_values self.now) }
    {
        Sent {
            version: None,
            date: Some(dated_in(self.year, self.date)),
            hostname: match self.first_host {
                Some(host) => Some(host),
                None => self.second_host,
            },
            appname: Some(self.tag),
            process: None,
            msgid: None,
            msg: self.msg,
        }
    }

    pub(crate) fn is_nx_os(&self) -> bool
        ensures { MatchBool result (spec.IsNxOs (cisco_values self.now)) (spec.IsNxOs (cisco_values self.now) → ⊥) }
    {
        self.year.is_some()
    }

    pub(crate) fn is_asa(&self) -> bool
        ensures { MatchBool result (spec.IsAsa (cisco_values self.now)) (spec.IsAsa (cisco_values self.now) → ⊥) }
    {
        is_asa_tag(self.tag)
    }
}

// Returns the system of a line, and what the line says. It is ASA or FTD by its facility, NX-OS by a year before the
// month, and otherwise IOS.
fn by_system<'a>(line: &Cisco<'a>) -> (Dialect, Sent<'a>)
    ensures { (text : Text) → Front (Row spec.cisco_row) text [] (cisco_values line.now)
        → Finds spec.cisco_forms text (Some result) }
{
    let sent = line.sent();
    if line.is_asa() {
        return (Dialect::CiscoAsa, sent);
    }
    if line.is_nx_os() {
        return (Dialect::CiscoNxOs, sent);
    }
    (Dialect::CiscoIos, sent)
}

/// Returns the system of a line with a date that it does not begin with, and what the line says.
pub(crate) fn read_cisco(text: &str) -> Option<(Dialect, Sent<'_>)>
    ensures { Finds spec.cisco_forms (chars text.now) result }
{
    let line = shown_line(text)?;
    Some(by_system(&line))
}

/// Returns the system of a line that begins with this date, and what the line says.
pub(crate) fn read_led<'a>(text: &'a str, led: &Led<'a>) -> Option<(Dialect, Sent<'a>)>
    ensures { IsLed (chars text.entry.now) led.now → Finds spec.cisco_forms (chars text.entry.now) result }
{
    let line = shown_led(text, led)?;
    Some(by_system(&line))
}
