//! The header of RFC 5424 (section 6): sixteen pieces, from the priority to the message.
//!
//! `read_5424` returns the line of the one division of a trimmed text, or none if there is no division. It reads the
//! pieces from the left, by the readers of the crates below.
ghost use Rattle.std.specs.Prelude.{◌≡◌, ◌↔◌};
ghost use Rattle.syslog_loose.specs.Words.{[], ℕ, IfSome, IsTrue, MatchOption, Some, AllByRecursion, chars, IsUtf8};
ghost use Rattle.syslog_loose.specs.Words.{Text, seen, shown, list_elements, Visits, trimmed};
ghost use Rattle.syslog_pieces.specs.ProcId.{IsBareWord};
ghost use Rattle.syslog_loose.specs.Clauses.{KnowsForm, IsNot5424, IsLine5424, IsAfterPriority};
ghost use Rattle.syslog_loose.specs.Clauses.{FitsNames, FitsSpaced, ReadsHeader, ReadsNames5424, ReadsSpaced};
ghost use Rattle.syslog_text.specs.Text as spec;

use crate::line::Line;
use syslog_elements::structured_data::{ElementList, ElementVisitor, visit_forgiving_list};
use syslog_pieces::procid::is_bare_word;
use syslog_pieces::timestamp::{ClockStamp, header_stamp};
use syslog_text::text::verbatim::is_one_space;
use syslog_text::text::{blanks, host, number, some_blanks, word};

/// Whether all five are true, tested at once.
#[inline(always)]
pub(crate) fn are_all(tests: [bool; 5]) -> bool
    ensures { IsTrue result ↔ AllByRecursion IsTrue tests }
{
    let [a, b, c, d, e] = tests;
    a & b & c & d & e
}

/// Whether the text that names a process, if there is one, is printed as it is.
#[inline(always)]
pub(crate) fn is_bare(process: Option<&str>) -> bool
    ensures { IsTrue result ↔ IfSome (seen process.entry) IsBareWord }
{
    match process {
        None => true,
        Some(word) => is_bare_word(word),
    }
}

// Returns a host after blanks, the text after it, and whether the blanks are one space.
#[inline(always)]
fn spaced_host(text: &str) -> Option<(Option<&str>, &str, bool)>
    ensures reads { ReadsSpaced spec.host seen (chars text.now) result }
    ensures fits { FitsSpaced (chars text.now) result }
{
    let start = some_blanks(text)?;
    let (name, rest) = host(start)?;
    Some((name, rest, is_one_space(text, start)))
}

// Returns a word after blanks, the text after it, and whether the blanks are one space.
#[inline(always)]
fn spaced_word(text: &str) -> Option<(Option<&str>, &str, bool)>
    ensures reads { ReadsSpaced spec.word seen (chars text.now) result }
    ensures fits { FitsSpaced (chars text.now) result }
{
    let start = some_blanks(text)?;
    let (name, rest) = word(start)?;
    Some((name, rest, is_one_space(text, start)))
}

// Reads the names after the timestamp: returns a line that has no list and no message part yet, and the text after the
// names. Each visitor `C` has its own copy, which is compiled in: shared, it would be a call, and the line would go
// through memory.
#[inline(always)]
fn read_names<'a, C>(
    version: Option<u32>,
    priority: Option<u8>,
    timestamp: Option<ClockStamp>,
    rest: &'a str,
) -> Option<(Line<'a>, &'a str)>
    ensures reads { ReadsNames5424 version priority timestamp rest.entry result }
    ensures prints { IfSome result (λ x. FitsNames (chars rest.entry.now) x.0 (shown x.1)) }
{
    let (hostname, after_host, host_fits) = spaced_host(rest)?;
    let (appname, after_app, app_fits) = spaced_word(after_host)?;
    let (process, after_process, process_fits) = spaced_word(after_app)?;
    let (msgid, after_id, id_fits) = spaced_word(after_process)?;
    let is_printed = are_all([host_fits, app_fits, process_fits, is_bare(process), id_fits]);
    Some((
        Line {
            version,
            priority,
            timestamp,
            hostname,
            appname,
            process,
            msgid,
            list: ElementList::none(),
            msg: "",
            rest,
            is_printed,
        },
        after_id,
    ))
}

// Reads all fields before the structured data: returns a line that has no list and no message part yet, and the rest.
#[inline(always)]
fn read_header<'a, C>(priority: Option<u8>, text: &'a str) -> Option<(Line<'a>, &'a str)>
    ensures reads { (whole : Text) → IsAfterPriority whole priority (chars text.entry.now)
        → ReadsHeader whole result }
    ensures prints { IfSome result (λ x. FitsNames (shown x.0.rest) x.0 (shown x.1)) }
    ensures version { IfSome result (λ x. (version : ℕ) × (x.0.version ≡ Some version)) }
    ensures utf8 { IfSome result (λ x. IsUtf8 x.0.rest.now) }
{
    let (version, after_version) = number(text, u32::MAX)?;
    let start = some_blanks(after_version)?;
    let Some((timestamp, rest)) = header_stamp(start) else {
        return None;
    };
    read_names::<C>(Some(version), priority, timestamp, rest)
}

/// Returns the line of the one division of a trimmed text, from after its priority on; none if there is no division.
#[inline(always)]
pub(crate) fn read_5424<'a, C, E: ElementVisitor<'a>>(
    priority: Option<u8>,
    text: &'a str,
    elements: &mut E,
) -> Option<Line<'a>>
    ensures reads { (whole : Text) → IsAfterPriority (trimmed whole) priority (chars text.entry.now)
        → MatchOption result (IsNot5424 whole) (IsLine5424 whole) }
    ensures form { IfSome result KnowsForm }
    ensures visited { MatchOption result (Visits E.was_given elements.old [] elements.new)
        (λ line. Visits E.was_given elements.old (list_elements line.list) elements.new) }
{
    let Some((header, after_id)) = read_header::<C>(priority, text) else {
        return None;
    };
    let at_list = blanks(after_id);
    let Some((list, after_list)) = visit_forgiving_list(at_list, elements) else {
        return None;
    };
    let msg = blanks(after_list);
    let is_header_printed = header.is_printed;
    let is_printed = are_all([
        is_header_printed,
        is_one_space(after_id, at_list),
        list.is_printed(),
        is_one_space(after_list, msg),
        true,
    ]);
    let mut line = header;
    line.list = list;
    line.msg = msg;
    line.is_printed = is_printed;
    Some(line)
}
