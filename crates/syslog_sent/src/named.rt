//! What comes after a date: a host, a program's name and the message.
ghost use Rattle.std.specs.Prelude.{◌≡◌, ◌≢◌, ◌∷◌, [], IsTrue, MatchBool, Option, chars, false};
ghost use Rattle.std.specs.Char.{is_ascii_digit};
ghost use Rattle.syslog_text.specs.Pieces.Class.{Front, exactly, optional, some_run, texted};
ghost use Rattle.syslog_text.specs.Pieces.View.{Reads, Skips, seen, shown, text_eq};
ghost use Rattle.syslog_sent.specs.Runs.{are_ascii};
ghost use Rattle.syslog_sent.specs.Views.{named_value, program_seen};
ghost use Rattle.syslog_sent.specs.Named as spec;

use syslog_text::as_str::is_same_text;
use syslog_text::text::{CharClass, first, literal, split_run};

/// A program's name, and the id of its process if one is shown.
#[derive(Clone, Copy)]
pub struct Program<'a> {
    /// The name.
    pub name: &'a str,
    /// The id of the process.
    pub process: Option<&'a str>,
}

/// What follows a date: names and a message.
#[derive(Clone, Copy)]
pub struct Named<'a> {
    /// The host.
    pub hostname: Option<&'a str>,
    /// The name of the program.
    pub appname: Option<&'a str>,
    /// The text that names the process.
    pub process: Option<&'a str>,
    /// The message part.
    pub msg: &'a str,
}

/// Returns the message of a program, with this host or none.
#[inline(always)]
pub fn tagged<'a>(hostname: Option<&'a str>, program: Program<'a>, msg: &'a str) -> Named<'a>
    ensures { named_value result ≡ spec.tagged (seen hostname.entry) (program_seen program.entry) (shown msg.entry) }
{
    Named {
        hostname,
        appname: Some(program.name),
        process: program.process,
        msg,
    }
}

/// Returns a message without a program, with this host or none.
#[inline(always)]
pub fn untagged<'a>(hostname: Option<&'a str>, msg: &'a str) -> Named<'a>
    ensures { named_value result ≡ spec.untagged (seen hostname.entry) (shown msg.entry) }
{
    Named {
        hostname,
        appname: None,
        process: None,
        msg,
    }
}

/// Returns the text after these ASCII words, where they begin the text.
pub fn past<'a>(text: &'a str, words: &str) -> Option<&'a str>
    requires { IsTrue (are_ascii words.now) }
    ensures { Skips (exactly words.now) tt (chars text.entry.now) result }
{
    text.strip_prefix(words)
}

// Whether the two have one length and one first byte. Few words that are compared do.
#[inline(always)]
fn may_be_same(a: &[u8], b: &[u8]) -> bool
    ensures { (result ≡ false) → a.now ≢ b.now }
{
    if a.len() != b.len() {
        return false;
    }
    if a.is_empty() {
        return true;
    }
    a[0] == b[0]
}

/// Returns whether the text is this ASCII word.
#[inline(always)]
pub fn is_word(text: &str, word: &str) -> bool
    requires { IsTrue (are_ascii word.now) }
    ensures { result ≡ text_eq (chars text.now) word.now }
{
    if !may_be_same(text.as_bytes(), word.as_bytes()) {
        return false;
    }
    is_same_text(&text, &word)
}

// Whether the name of a program may begin with this character.
fn begins_name(c: char) -> bool
    ensures { result ≡ spec.begins_name c }
{
    c.is_ascii_alphabetic() || (c == '%' || (c == '(' || (c == '/' || c == '_')))
}

// Whether the text has only characters of ASCII that are no letters.
fn has_no_letter(text: &str) -> bool
    ensures { result ≡ spec.has_no_letter (chars text.now) }
{
    let mut rest = text;
    'characters: while let Some((c, more)) = first(rest) {
        if !(c < '\u{80}' && !c.is_ascii_alphabetic()) {
            return false;
        }
        rest = more;
    }
    true
}

/// Returns whether a digit begins the text, and only characters of ASCII that are no letters follow it.
pub fn is_number(text: &str) -> bool
    ensures { result ≡ spec.is_number (chars text.now) }
{
    match first(text) {
        Some((c, rest)) => c.is_ascii_digit() && has_no_letter(rest),
        None => false,
    }
}

/// Returns whether a letter begins the text.
pub fn is_letter(text: &str) -> bool
    ensures { MatchBool result (spec.BeginsWith spec.is_letter (chars text.now))
        (spec.BeginsWith spec.is_letter (chars text.now) → ⊥) }
{
    match first(text) {
        Some((c, _)) => c.is_ascii_alphabetic(),
        None => false,
    }
}

// Whether the text begins as a program's name does.
fn is_name(text: &str) -> bool
    ensures { MatchBool result (spec.BeginsWith spec.begins_name (chars text.now))
        (spec.BeginsWith spec.begins_name (chars text.now) → ⊥) }
{
    match first(text) {
        Some((c, _)) => begins_name(c),
        None => false,
    }
}

/// Returns the name of a program at the front, and the text after it.
pub fn name(text: &str) -> Option<(&str, &str)>
    ensures { Reads spec.name (λ t. shown t) (chars text.now) result }
{
    let (run, rest) = split_run(text, CharClass::Label);
    if is_name(run) {
        Some((run, rest))
    } else {
        None
    }
}

/// Returns an id in brackets at the front, and the text after it.
pub fn process_id(text: &str) -> Option<(&str, &str)>
    ensures { Reads spec.process_id (λ t. shown t) (chars text.now) result }
{
    let rest = literal(text, '[')?;
    let (id, rest) = split_run(rest, CharClass::Id);
    if id.is_empty() {
        return None;
    }
    let rest = literal(rest, ']')?;
    Some((id, rest))
}

// Returns an id in brackets at the front, if there is one, and the text after it.
fn optional_id(text: &str) -> (Option<&str>, &str)
    ensures { Front (optional spec.process_id) (chars text.now) (shown result.1) (seen result.0) }
{
    match process_id(text) {
        Some((id, rest)) => (Some(id), rest),
        None => (None, text),
    }
}

/// Returns the program at the front, up to its colon, and the text after that.
#[inline(always)]
pub fn read_program(text: &str) -> Option<(Program<'_>, &str)>
    ensures { Reads spec.program program_seen (chars text.now) result }
{
    let (name, rest) = name(text)?;
    let (process, rest) = optional_id(rest);
    let rest = literal(rest, ':')?;
    Some((Program { name, process }, rest))
}

/// Returns the number of a process at the front, and the text after it.
pub fn number(text: &str) -> Option<(&str, &str)>
    ensures { Reads (texted (some_run is_ascii_digit)) (λ run. shown run) (chars text.now) result }
{
    let (run, rest) = split_run(text, CharClass::Digit);
    if run.is_empty() {
        return None;
    }
    Some((run, rest))
}
