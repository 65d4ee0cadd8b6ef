//! Lines of programs that are recognised by what is between the date and the program's name. A message that begins with
//! a number after the host has no program.
ghost use Rattle.std.specs.Prelude.{◌≡◌, ◌∷◌, ◌||◌, [], IfSome, IsUtf8, List, MatchBool, Some, chars, codes};
ghost use Rattle.std.specs.Option.{option_map};
ghost use Rattle.syslog_text.specs.Pieces.Class.{Front, Row, Text, exactly, optional, some_run, spaced, texted};
ghost use Rattle.syslog_text.specs.Pieces.Lists.{many};
ghost use Rattle.syslog_text.specs.Pieces.View.{Reads, Recognises, seen, shown};
ghost use Rattle.syslog_text.specs.Text.{is_tag_char};
ghost use Rattle.syslog_sent.specs.Named.{◌otherwise◌, program as program_class};
ghost use Rattle.syslog_sent.specs.Selector.{is_severity as is_severity_text, selector_row};
ghost use Rattle.syslog_sent.specs.Runs.{is_word_char};
ghost use Rattle.syslog_named_forms.specs.Programs as spec;
ghost use Rattle.syslog_named_forms.specs.Hosts.{ReadsHost, TellsBehind, host_row};
ghost use Rattle.syslog_sent.specs.Date.{iso_date as iso_date_class};
ghost use Rattle.syslog_sent.specs.Views.{Names, named_value, program_seen};

use crate::hosts::{AfterHost, process_from, program_from, untagged_from};
use crate::untagged::{either, topic};
use syslog_sent::date::iso_date;
use syslog_sent::named::{
    Named, Program, is_letter, is_number, is_word, name, past, process_id, read_program, tagged,
    untagged,
};
use syslog_sent::runs::{Run, split};
use syslog_sent::selector::{is_severity, selector, severity};
use syslog_sent::skips::{colon, gap, plain_word, space};
use syslog_text::text::verbatim::before;
use syslog_text::text::{CharClass, blanks, first, literal, some_blanks, split_run};

// Reads a program and the message after it.
#[inline(always)]
fn program_first(text: &str) -> Option<Named<'_>>
    ensures { Names spec.hostless named_value (chars text.now) result }
{
    let (program, rest) = read_program(text)?;
    let msg = some_blanks(rest)?;
    Some(tagged(None, program, msg))
}

/// Reads a line without a host. `after_host` is what `past_host` returned for the line: no host ends in the colon of a
/// program's name, so where there is one, nothing is read.
#[inline(always)]
pub(crate) fn hostless<'a>(text: &'a str, after_host: Option<AfterHost<'a>>) -> Option<Named<'a>>
    ensures { ReadsHost (chars text.entry.now) after_host.entry
        → Names spec.hostless named_value (chars text.entry.now) result }
{
    match after_host {
        Some(_) => None,
        None => program_first(text),
    }
}

// Returns the text after `|security`, and all of it if it does not begin so.
fn past_security(text: &str) -> &str
    ensures { (v : (optional (exactly (codes "|security"))).Value)
        × Front (optional (exactly (codes "|security"))) (chars text.now) (shown result) v }
{
    match past(text, "|security") {
        Some(rest) => rest,
        None => text,
    }
}

fn is_double_severity(word: &str) -> bool
    ensures { result ≡ spec.is_double_severity (chars word.now) }
{
    is_word(word, "emerg|panic")
        || (is_word(word, "err|error")
            || (is_word(word, "warn|warning") || is_word(word, "warning|warn")))
}

fn is_aix_severity(word: &str) -> bool
    ensures { result ≡ (is_severity_text (chars word.now) || spec.is_double_severity (chars word.now)) }
{
    is_severity(word) || is_double_severity(word)
}

// Returns the text after a severity of AIX.
fn aix_severity(text: &str) -> Option<&str>
    ensures { Recognises spec.aix_severity (chars text.now) result }
{
    let (word, rest) = split_run(text, CharClass::Visible);
    is_aix_severity(word).then_some(rest)
}

// Returns the text after facility and severity of AIX.
fn aix(text: &str) -> Option<&str>
    ensures { Recognises (Row spec.aix_row) (chars text.now) result }
{
    plain_word(text)
        .map(past_security)
        .and_then(colon)
        .and_then(aix_severity)
}

// Returns the text after a facility and a severity.
#[tactic(auto, using(crate::proofs::ReaderLemmas::either_reads))]
fn pair(text: &str) -> Option<&str>
    ensures { Recognises (Row selector_row otherwise Row spec.aix_row) (chars text.now) result }
{
    either(text, selector, aix)
}

// Returns the text after a severity, or after a facility and a severity.
fn grade(text: &str) -> Option<&str>
    ensures { Recognises spec.grade (chars text.now) result }
{
    if let Some((_, rest)) = severity(text) {
        return Some(rest);
    }
    pair(text)
}

/// Reads a line with the severity before the program.
#[inline(always)]
pub(crate) fn severity_first<'a>(after_host: Option<AfterHost<'a>>) -> Option<Named<'a>>
    ensures { TellsBehind spec.severity_row spec.severity_of after_host.entry result }
{
    let host = after_host?;
    program_from(host.hostname, grade(host.text).and_then(gap))
}

fn open_parenthesis(text: &str) -> Option<&str>
    ensures { Recognises (exactly (40 ∷ [])) (chars text.now) result }
{
    literal(text, '(')
}

fn time(text: &str) -> Option<&str>
    ensures { Recognises iso_date_class (chars text.now) result }
{
    let (_, rest) = iso_date(text)?;
    Some(rest)
}

// Reads a line from the serial number of a Firebox on, which follows a host.
#[inline(always)]
fn with_host<'a>(host: AfterHost<'a>) -> Option<Named<'a>>
    ensures { TellsBehind spec.serial_row spec.serial_of (Some host.entry) result }
{
    let at_program = plain_word(host.text)
        .and_then(space)
        .and_then(open_parenthesis)
        .and_then(time)
        .and_then(closing)
        .and_then(gap);
    program_from(host.hostname, at_program)
}

// Whether the text has only characters of a serial number.
fn is_serial(text: &str) -> bool
    ensures { result ≡ spec.is_serial (chars text.now) }
{
    let mut rest = text;
    'characters: while let Some((c, more)) = first(rest) {
        if !Run::Plain.has(c) {
            return false;
        }
        rest = more;
    }
    true
}

// Whether the word after the date is a serial number.
#[tactic(auto, using(crate::proofs::ProgramLemmas::test_told))]
fn is_serial_word(word: Option<&str>) -> bool
    ensures { MatchBool result (spec.IsSerial (seen word.entry)) (spec.IsSerial (seen word.entry) → ⊥) }
{
    match word {
        Some(text) => is_serial(text),
        None => false,
    }
}

// Reads a line from the date of a Firebox on, whose serial number is this word. It is a call of its own, since few
// lines have a parenthesis there.
#[cold]
#[inline(never)]
fn without_host<'a>(word: Option<&'a str>, before_date: &'a str) -> Option<Named<'a>>
    ensures { (text rest : Text) → Front (Row host_row) text rest (seen word.entry, (tt, tt))
        → Front (exactly (40 ∷ [])) rest (chars before_date.entry.now) tt → Names spec.box named_value text result }
{
    if !is_serial_word(word) {
        return None;
    }
    program_from(None, time(before_date).and_then(closing).and_then(gap))
}

/// Reads a line with the serial number and the time of a Firebox before the program, after a host or without one.
/// `after_host` is what `past_host` returned for the line.
#[inline(always)]
pub(crate) fn after_serial<'a>(after_host: Option<AfterHost<'a>>) -> Option<Named<'a>>
    ensures { (text : Text) → ReadsHost text after_host.entry → Names spec.after_serial named_value text result }
{
    let host = after_host?;
    match open_parenthesis(host.text) {
        Some(before_date) => without_host(host.hostname, before_date),
        None => with_host(host),
    }
}

// Returns the text after a word.
fn word(text: &str) -> Option<&str>
    ensures reads { Recognises (some_run is_word_char) (chars text.now) result }
    ensures utf8 { IfSome result (λ rest. IsUtf8 rest.now) }
{
    let (run, rest) = split(text, Run::Word);
    if run.is_empty() { None } else { Some(rest) }
}

// Returns the text after a closing parenthesis.
fn closing(text: &str) -> Option<&str>
    ensures reads { Recognises (exactly (41 ∷ [])) (chars text.now) result }
    ensures utf8 { IfSome result (λ rest. IsUtf8 rest.now) }
{
    match first(text) {
        Some((')', rest)) => Some(rest),
        _ => None,
    }
}

// Returns the text after a word in parentheses.
fn enclosed(text: &str) -> Option<&str>
    ensures reads { Recognises (Row spec.enclosed_row) (chars text.now) result }
    ensures utf8 { IfSome result (λ rest. IsUtf8 rest.now) }
{
    let inner = literal(text, '(')?;
    let end = word(inner)?;
    closing(end)
}

// Returns the text after a word, or after one in parentheses.
fn later_word(text: &str) -> Option<&str>
    ensures reads { Recognises spec.later_word (chars text.now) result }
    ensures utf8 { IfSome result (λ rest. IsUtf8 rest.now) }
{
    if let Some(rest) = word(text) {
        return Some(rest);
    }
    enclosed(text)
}

// Returns the text after a space and a word.
fn spaced_word(text: &str) -> Option<&str>
    ensures reads { Recognises (spaced spec.later_word) (chars text.now) result }
    ensures utf8 { IfSome result (λ rest. IsUtf8 rest.now) }
{
    let rest = literal(text, ' ')?;
    later_word(rest)
}

// Returns the text after any number of further words, each after a space.
fn more_words(text: &str) -> &str
    ensures { (vs : List spec.later_word.Value)
        × Front (many (spaced spec.later_word)) (chars text.now) (shown result) vs }
{
    let mut rest = text;
    'words: while let Some(more) = spaced_word(rest) {
        rest = more;
    }
    rest
}

// Returns the text after two or more words that have one space between each two.
fn words_end(text: &str) -> Option<&str>
    ensures { Recognises (Row spec.words_row) (chars text.now) result }
{
    word(text).and_then(spaced_word).map(more_words)
}

/// Returns a name of several words at the front, and the text after it.
pub(crate) fn words(text: &str) -> Option<(&str, &str)>
    ensures { Reads spec.words (λ t. shown t) (chars text.now) result }
{
    let rest = words_end(text)?;
    let name = before(text, rest);
    if is_letter(name) {
        Some((name, rest))
    } else {
        None
    }
}

/// Reads a line whose program has a name of several words.
#[inline(always)]
pub(crate) fn worded<'a>(after_host: Option<AfterHost<'a>>) -> Option<Named<'a>>
    ensures { TellsBehind spec.worded_row spec.worded_of after_host.entry result }
{
    let host = after_host?;
    process_from(host.hostname, words(host.text))
}

fn letter_v(text: &str) -> Option<&str>
    ensures { Recognises (exactly (118 ∷ [])) (chars text.now) result }
{
    literal(text, 'v')
}

fn version(text: &str) -> Option<&str>
    ensures { Recognises (some_run is_tag_char) (chars text.now) result }
{
    let (_, rest) = origin(text)?;
    Some(rest)
}

// Returns the text after the model, the address and the version of an access point.
fn point_end(text: &str) -> Option<&str>
    ensures { Recognises (Row spec.point_row) (chars text.now) result }
{
    topic(text)
        .and_then(topic)
        .and_then(letter_v)
        .and_then(version)
}

// Returns the three as one name, and the text after it.
fn point(text: &str) -> Option<(&str, &str)>
    ensures { Reads (texted (Row spec.point_row)) (λ t. shown t) (chars text.now) result }
{
    let rest = point_end(text)?;
    let name = before(text, rest);
    Some((name, rest))
}

// Reads a line of an access point from its model, address and version on.
#[inline(always)]
fn point_first(text: &str) -> Option<Named<'_>>
    ensures { Names spec.access_point named_value (chars text.now) result }
{
    let (host, after_host) = point(text)?;
    program_from(Some(host), colon(after_host).and_then(gap))
}

/// Reads a line of an access point, whose model, address and version are taken for the host. `after_host` is what
/// `past_host` returned for the line: a colon ends the version, so where there is a host, nothing is read.
#[inline(always)]
pub(crate) fn of_access_point<'a>(
    text: &'a str,
    after_host: Option<AfterHost<'a>>,
) -> Option<Named<'a>>
    ensures { ReadsHost (chars text.entry.now) after_host.entry
        → Names spec.access_point named_value (chars text.entry.now) result }
{
    match after_host {
        Some(_) => None,
        None => point_first(text),
    }
}

// Whether the text is digits, and a colon at its end.
fn is_counter(text: &str) -> bool
    ensures { result ≡ spec.is_counter (chars text.now) }
{
    let mut rest = text;
    'characters: while let Some((c, more)) = first(rest) {
        if first(more).is_none() {
            return c == ':';
        }
        if !c.is_ascii_digit() {
            return false;
        }
        rest = more;
    }
    false
}

// Whether the word is a number and no counter, and so no program's name.
fn names_none(word: &str) -> bool
    ensures { result ≡ spec.names_none (chars word.now) }
{
    is_number(word) && !is_counter(word)
}

// Whether a digit begins the text. No such word begins otherwise, so few are read.
fn opens_number(text: &str) -> bool
    ensures { result ≡ spec.opens_number (chars text.now) }
{
    match first(text) {
        Some((c, _)) => c.is_ascii_digit(),
        None => false,
    }
}

// Returns the text after such a word.
fn number_word(text: &str) -> Option<&str>
    ensures { Recognises spec.number_word (chars text.now) result }
{
    if !opens_number(text) {
        return None;
    }
    let (word, rest) = split_run(text, CharClass::Visible);
    names_none(word).then_some(rest)
}

/// Reads a message that begins with a number.
#[inline(always)]
pub(crate) fn untagged_message<'a>(after_host: Option<AfterHost<'a>>) -> Option<Named<'a>>
    ensures { TellsBehind spec.untagged_row spec.untagged_of after_host.entry result }
{
    let host = after_host?;
    untagged_from(host.hostname, host.text, number_word(host.text))
}

/// Reads a line of a program with a process id that has blanks where the port takes one space.
#[inline(always)]
pub(crate) fn spread<'a>(after_host: Option<AfterHost<'a>>) -> Option<Named<'a>>
    ensures { TellsBehind spec.spread_row spec.spread_of after_host.entry result }
{
    let host = after_host?;
    process_from(host.hostname, name(host.text))
}

// Returns a host before a colon, and the text after these.
fn origin(text: &str) -> Option<(&str, &str)>
    ensures { Reads (texted (some_run is_tag_char)) (λ t. shown t) (chars text.now) result }
{
    let (run, rest) = split_run(text, CharClass::Tag);
    if run.is_empty() {
        None
    } else {
        Some((run, rest))
    }
}

fn forwarded_words(text: &str) -> Option<&str>
    ensures { Recognises (exactly (codes "Message forwarded from ")) (chars text.now) result }
{
    let _ = literal(text, 'M')?;
    past(text, "Message forwarded from ")
}

// Returns the program at the front, if there is one, and the text after it.
fn optional_program(text: &str) -> (Option<Program<'_>>, &str)
    ensures { Front (optional program_class) (chars text.now) (shown result.1) (option_map program_seen result.0) }
{
    match read_program(text) {
        Some((program, rest)) => (Some(program), rest),
        None => (None, text),
    }
}

// Returns the message of this host's program, or of none.
fn sent_at<'a>(hostname: &'a str, program: Option<Program<'a>>, msg: &'a str) -> Named<'a>
    ensures { named_value result
        ≡ spec.sent_at (shown hostname.entry) (option_map program_seen program.entry) (shown msg.entry) }
{
    match program {
        Some(program) => tagged(Some(hostname), program, msg),
        None => untagged(Some(hostname), msg),
    }
}

// Reads a line that was forwarded, from `Message forwarded from` on.
#[inline(always)]
fn passed_on(text: &str) -> Option<Named<'_>>
    ensures { Names spec.passed_on named_value (chars text.now) result }
{
    let rest = forwarded_words(text)?;
    let (hostname, rest) = origin(rest)?;
    let rest = literal(rest, ':')?;
    let (program, rest) = optional_program(blanks(rest));
    Some(sent_at(hostname, program, blanks(rest)))
}

/// Reads a line that was forwarded, after the name of the host that forwarded it, if that is shown. `after_host` is
/// what `past_host` returned for the line.
#[inline(always)]
pub(crate) fn forwarded<'a>(text: &'a str, after_host: Option<AfterHost<'a>>) -> Option<Named<'a>>
    ensures { ReadsHost (chars text.entry.now) after_host.entry
        → Names spec.forwarded named_value (chars text.entry.now) result }
{
    if let Some(named) = passed_on(text) {
        return Some(named);
    }
    let host = after_host?;
    passed_on(host.text)
}
