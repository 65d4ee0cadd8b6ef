//! Lines with something in angles or in brackets before the message.
//!
//! **Rule.** FreeBSD's syslogd writes facility and severity before the host if it runs with `-v` (syslogd(8)), by
//! number, or by name if it is given twice; so does Isilon's OneFS: `<auth.info> gate sshd[811]: text`. Axis cameras
//! write the severity in brackets, filled up with spaces (AXIS OS, "Remote syslog"): `axis-accc8e1a2b3c [ INFO    ]
//! systemd[1]: text`. NetApp's ONTAP writes node, event and severity (its format `legacy-netapp`):
//! `[cluster1-01:wafl.vol.full:notice]: text`; the event is the app name, as a mnemonic of Cisco's is. Aruba Instant
//! writes its address and that of its hardware after its name (Aruba Instant Syslog Messages): `192.0.2.2 <192.0.2.2
//! 02:00:00:00:00:01> stm[2112]: text`. Phones of Yealink write process and thread after a blank, and no host: `sua
//! [768:871]: text`. The log of fail2ban has the process after a name that is filled up with spaces, and no host:
//! `fail2ban.actions        [2188]: text`. The error logs of PostgreSQL begin with the process after the date
//! (`log_line_prefix` is `%m [%p] `): `[1133] LOG:  text`; those of MySQL with the number of a thread: `0 [System]
//! [MY-010931] [Server] text`. Those of OpenStack have the process there, and then a level (oslo.log): `2345 INFO
//! nova.compute.manager text`. Logback and log4j write a thread in brackets there (`%d [%thread] %-5level`): `[main]
//! INFO  com.example.App - text`.
ghost use Rattle.std.specs.Prelude.{◌≡◌, chars, codes};
ghost use Rattle.syslog_text.specs.Pieces.Class.{Row, exactly, texted};
ghost use Rattle.syslog_text.specs.Pieces.View.{Reads, Recognises, shown};
ghost use Rattle.syslog_named_forms.specs.Graded as spec;
ghost use Rattle.syslog_named_forms.specs.Untagged as untagged_spec;
ghost use Rattle.syslog_named_forms.specs.Hosts.{ReadsHost, TellsBehind};
ghost use Rattle.syslog_sent.specs.Views.{Names, named_value};

use crate::hosts::{AfterHost, program_from, untagged_from};
use crate::marks::mark_end;
use crate::untagged::{Mark, either, level as level_word};
use syslog_sent::named::{Named, Program, name, number, past, read_program, tagged};
use syslog_sent::runs::{Run, split_some};
use syslog_sent::skips::{
    bracket, close_angle, close_bracket, close_tag, colon, digits, dot, gap, name_word, open_angle,
    past_blanks, plain_word, two_spaces,
};
use syslog_text::text::verbatim::before;
use syslog_text::text::{blanks, first, host, literal, some_blanks};

// Returns the text after facility and severity in angles.
fn grade(text: &str) -> Option<&str>
    ensures { Recognises (Row spec.grade_row) (chars text.now) result }
{
    open_angle(text)
        .and_then(plain_word)
        .and_then(dot)
        .and_then(plain_word)
        .and_then(close_angle)
}

/// Reads a line with facility and severity before the host.
#[inline(always)]
pub(crate) fn graded(text: &str) -> Option<Named<'_>>
    ensures { Names spec.graded named_value (chars text.now) result }
{
    let after_grade = grade(text)?;
    let at_host = some_blanks(after_grade)?;
    let (hostname, after_host) = host(at_host)?;
    let at_program = some_blanks(after_host)?;
    let (program, rest) = read_program(at_program)?;
    Some(tagged(hostname, program, blanks(rest)))
}

fn open_square(text: &str) -> Option<&str>
    ensures { Recognises (exactly (codes "[ ")) (chars text.now) result }
{
    past(text, "[ ")
}

// Returns the text after a severity in brackets.
fn level(text: &str) -> Option<&str>
    ensures { Recognises (Row spec.level_row) (chars text.now) result }
{
    open_square(text)
        .and_then(plain_word)
        .map(past_blanks)
        .and_then(close_bracket)
}

/// Reads a line with the severity in brackets after the host.
#[inline(always)]
pub(crate) fn leveled<'a>(after_host: Option<AfterHost<'a>>) -> Option<Named<'a>>
    ensures { TellsBehind spec.leveled_row spec.leveled_of after_host.entry result }
{
    let host = after_host?;
    program_from(host.hostname, level(host.text).and_then(gap))
}

// Returns the text after the severity of an event and the bracket that ends it.
fn event_end(text: &str) -> Option<&str>
    ensures { Recognises (Row spec.event_end_row) (chars text.now) result }
{
    colon(text).and_then(plain_word).and_then(close_tag)
}

/// Reads an event of a node.
#[inline(always)]
pub(crate) fn event(text: &str) -> Option<Named<'_>>
    ensures { Names spec.event named_value (chars text.now) result }
{
    let at_node = literal(text, '[')?;
    let (node, after_node) = split_some(at_node, Run::Plain)?;
    let after_colon = literal(after_node, ':')?;
    let (name, after_name) = split_some(blanks(after_colon), Run::Word)?;
    let rest = event_end(after_name)?;
    let program = Program {
        name,
        process: None,
    };
    Some(tagged(Some(node), program, blanks(rest)))
}

// Returns the text after the address of hardware.
fn hardware(text: &str) -> Option<&str>
    ensures { Recognises (Row spec.hardware_row) (chars text.now) result }
{
    plain_word(text)
        .and_then(colon)
        .and_then(plain_word)
        .and_then(colon)
        .and_then(plain_word)
        .and_then(colon)
        .and_then(plain_word)
        .and_then(colon)
        .and_then(plain_word)
        .and_then(colon)
        .and_then(plain_word)
}

// Returns the text after the two addresses of an access point in angles.
fn source(text: &str) -> Option<&str>
    ensures { Recognises (Row spec.source_row) (chars text.now) result }
{
    open_angle(text)
        .and_then(name_word)
        .and_then(gap)
        .and_then(hardware)
        .and_then(close_angle)
}

/// Reads a line of an access point that shows them after its name.
#[inline(always)]
pub(crate) fn sourced<'a>(after_host: Option<AfterHost<'a>>) -> Option<Named<'a>>
    ensures { TellsBehind spec.sourced_row spec.sourced_of after_host.entry result }
{
    let host = after_host?;
    program_from(host.hostname, source(host.text).and_then(gap))
}

// Returns the text after the numbers of a process and its thread.
fn threads_end(text: &str) -> Option<&str>
    ensures { Recognises (Row spec.threads_row) (chars text.now) result }
{
    digits(text).and_then(colon).and_then(digits)
}

// Returns the two as one text, and the text after them.
fn threads(text: &str) -> Option<(&str, &str)>
    ensures { Reads (texted (Row spec.threads_row)) (λ t. shown t) (chars text.now) result }
{
    let rest = threads_end(text)?;
    let id = before(text, rest);
    Some((id, rest))
}

// Whether a bracket begins the text.
fn opens_square(text: &str) -> bool
    ensures { result ≡ untagged_spec.opens_square (chars text.now) }
{
    match first(text) {
        Some((c, _)) => c == '[',
        None => false,
    }
}

// Whether a bracket follows the host and the blanks after it, as one follows a program's name in the next two forms. No
// name is looked for in other lines.
#[inline(always)]
fn opens_bracket<'a>(after_host: Option<AfterHost<'a>>) -> bool
    ensures { result ≡ untagged_spec.opens_bracket after_host.entry }
{
    match after_host {
        Some(host) => opens_square(host.text),
        None => false,
    }
}

/// Reads a line that has a blank between the program and its process. `after_host` is what `past_host` returned for the
/// line.
#[inline(always)]
pub(crate) fn threaded<'a>(text: &'a str, after_host: Option<AfterHost<'a>>) -> Option<Named<'a>>
    ensures { ReadsHost (chars text.entry.now) after_host.entry
        → Names spec.threaded named_value (chars text.entry.now) result }
{
    if !opens_bracket(after_host) {
        return None;
    }
    let (name, after_name) = name(text)?;
    let at_open = some_blanks(after_name)?;
    let at_id = literal(at_open, '[')?;
    let (id, after_id) = threads(at_id)?;
    let rest = close_tag(after_id)?;
    let program = Program {
        name,
        process: Some(id),
    };
    Some(tagged(None, program, blanks(rest)))
}

/// Reads a line whose program's name is filled up with spaces before the process. `after_host` is what `past_host`
/// returned for the line.
#[inline(always)]
pub(crate) fn padded<'a>(text: &'a str, after_host: Option<AfterHost<'a>>) -> Option<Named<'a>>
    ensures { ReadsHost (chars text.entry.now) after_host.entry
        → Names spec.padded named_value (chars text.entry.now) result }
{
    if !opens_bracket(after_host) {
        return None;
    }
    let (name, after_name) = name(text)?;
    let at_open = two_spaces(after_name)?;
    let at_id = literal(blanks(at_open), '[')?;
    let (id, after_id) = number(at_id)?;
    let rest = close_tag(after_id)?;
    let program = Program {
        name,
        process: Some(id),
    };
    Some(tagged(None, program, blanks(rest)))
}

/// Reads a line that shows the number of a process in brackets, and no program.
#[inline(always)]
pub(crate) fn numbered(text: &str) -> Option<Named<'_>>
    ensures { Names spec.numbered named_value (chars text.now) result }
{
    let at_id = literal(text, '[')?;
    let (id, after_id) = number(at_id)?;
    let after_close = literal(after_id, ']')?;
    let msg = some_blanks(after_close)?;
    Some(Named {
        hostname: None,
        appname: None,
        process: Some(id),
        msg,
    })
}

// Returns the text after a bracket or a level.
#[tactic(auto, using(crate::proofs::ReaderLemmas::either_reads))]
fn bracket_or_level(text: &str) -> Option<&str>
    ensures { Recognises spec.bracket_or_level (chars text.now) result }
{
    either(text, bracket, level_word)
}

// Returns the text after a number, blanks, and a bracket or a level.
fn counted_end(text: &str) -> Option<&str>
    ensures { Recognises (Row spec.counted_row) (chars text.now) result }
{
    digits(text).and_then(gap).and_then(bracket_or_level)
}

/// Reads a message that begins with a number, and a bracket or a level.
#[inline(always)]
pub(crate) fn counted(text: &str) -> Option<Named<'_>>
    ensures { Names spec.counted named_value (chars text.now) result }
{
    untagged_from(None, text, counted_end(text))
}

/// Reads a message that a bracket, `<` or a quote begins.
#[inline(always)]
pub(crate) fn opened(text: &str) -> Option<Named<'_>>
    ensures { Names spec.opened named_value (chars text.now) result }
{
    untagged_from(None, text, mark_end(text, Mark::Bracket))
}
