//! Rounds that `settle` skips, so that no line takes more than a handful of passes.
//!
//! A host of RFC 3164 that ends in colons loses one of them in each round, and the message part has that colon from
//! then on. A message part that begins with dashes loses one dash in each round, since each reading takes the first for
//! an empty list. Each of these rounds follows from the one before it, so only the last of them is written.
ghost use Rattle.std.specs.Prelude.{◌≡◌, ◌+◌, ◌++◌, ◌<◌, ◌≤◌, ◌∷◌, ◌-◌};
ghost use Rattle.std.specs.List.{repeat};
ghost use Rattle.syslog_loose.specs.Words.{ℕ, [], IfSome, MatchOption, None, OnOk, Some, length, string_bytes, chars};
ghost use Rattle.syslog_loose.specs.Words.{encode_utf8_all, Text, shown, list_elements, EndsInColon, IsCanonicalStamp};
ghost use Rattle.syslog_loose.specs.{Clauses.EndsOnce, Clauses.IsLater, Clauses.IsRead, Clauses.Variant, Words.Dating};
ghost use Rattle.syslog_loose.specs.Clauses.{CutsColons, EndsColons, IsDashed, PassesDashes, colons, colons_before};
ghost use Rattle.syslog_loose.specs.Clauses.{message_end, past_colons, tail_text, with_msg, line_value, printed};

use crate::line::{Line, has_quiet_names, print_line};
use std::alloc::AllocError;
use std::fmt::Write;
use syslog_elements::structured_data::ElementList;
use syslog_pieces::timestamp::canonical::is_canonical_clock;
use syslog_text::text::{literal, some_blanks};

// What is passed, cut or written at once of a long run, thirty-two bytes each.
const COLONS: &str = "::::::::::::::::::::::::::::::::";

const SPACED_COLONS: &str = " : : : : : : : : : : : : : : : :";

const SPACED_DASHES: &str = "- - - - - - - - - - - - - - - - ";

/// Writes into `text` the next round of a line of RFC 3164, or a later one if no round before that is stable.
pub(crate) fn write_round(text: &mut String, line: &Line<'_>) -> Result<(), AllocError>
    ensures { (variant : Variant) (dating : Dating) (input : Text) → IsRead variant dating input (line_value line.now)
        → line.now.version ≡ None
        → OnOk result (IsLater variant dating input (line_value line.now) (chars (string_bytes text.new))) }
{
    match last_colons(line) {
        Some((host, cut)) => write_past_colons(text, line, host, cut),
        None => write_past_dashes(text, line),
    }
}

// Writes the line without the dashes that its next readings would drop.
fn write_past_dashes(text: &mut String, line: &Line<'_>) -> Result<(), AllocError>
    requires { IfSome (line_value line.now).timestamp IsCanonicalStamp
        → IfSome (line_value line.now).hostname EndsOnce }
    ensures { (variant : Variant) (dating : Dating) (input : Text) → IsRead variant dating input (line_value line.now)
        → line.now.version ≡ None
        → OnOk result (IsLater variant dating input (line_value line.now) (chars (string_bytes text.new))) }
{
    let later = Line {
        msg: msg_past_dashes(line),
        rest: "",
        is_printed: false,
        ..*line
    };
    print_line(text, &later)
}

// Returns the host with only one of the colons that it ends in, and how many were cut; none if that cuts nothing.
fn last_colons<'a>(line: &Line<'a>) -> Option<(&'a str, usize)>
    ensures { MatchOption result
        (IfSome (line_value line.now).timestamp IsCanonicalStamp → IfSome (line_value line.now).hostname EndsOnce)
        (λ x. EndsColons (line_value line.now) (shown x.0) x.1 × (0 < x.1) × EndsOnce (shown x.0)) }
{
    if !is_canonical_clock(line.timestamp) {
        return None;
    }
    let name = line.hostname?;
    let (host, cut) = cut_colons(name);
    if cut == 0 { None } else { Some((host, cut)) }
}

// Returns the name with only one of the colons that it ends in, and how many were cut: by thirty-two, then one by one.
#[tactic(auto, using(crate::proofs::SettlingLemmas::Settles::once_chars))]
fn cut_colons(name: &str) -> (&str, usize)
    ensures cuts { CutsColons (chars name.now) (chars result.0.now) result.1 }
    ensures once { EndsOnce (chars result.0.now) }
{
    let (shorter, many) = cut_runs(name, COLONS);
    let (host, few) = cut_runs(shorter, ":");
    (host, many + few)
}

// Cuts a run of colons off the name, as often as a colon is before it.
#[inline(always)]
fn cut_runs<'a>(name: &'a str, run: &str) -> (&'a str, usize)
    requires some { 0 < length run.now }
    requires colons { run.now ≡ colons (length run.now) }
    ensures cuts { CutsColons name.now result.0.now result.1 }
    ensures once { run.now ≡ 58 ∷ [] → EndsOnce result.0.now }
    ensures within { result.1 + length result.0.now ≤ length name.now }
{
    let mut host = name;
    let mut cut = 0;
    'cuts: while let Some(shorter) = before_run(host, run) {
        host = shorter;
        cut += run.len();
    }
    (host, cut)
}

// Returns the text before the run at its end, if that also ends in a colon.
#[inline(always)]
fn before_run<'a>(text: &'a str, run: &str) -> Option<&'a str>
    ensures { MatchOption result (run.now ≡ 58 ∷ [] → EndsOnce text.now)
        (λ x. (text.now ≡ x.now ++ run.now) × EndsInColon x.now) }
{
    let Some(shorter) = text.strip_suffix(run) else {
        return None;
    };
    match shorter.strip_suffix(':') {
        Some(_front) => Some(shorter),
        None => None,
    }
}

// Writes the round in which `count` colons of the line's host were cut, one in each round.
fn write_past_colons(
    text: &mut String,
    line: &Line<'_>,
    host: &str,
    cut: usize,
) -> Result<(), AllocError>
    requires { 0 < cut }
    ensures { OnOk result (string_bytes text.new ≡ encode_utf8_all (printed
        (past_colons (line_value line.now) (chars host.now) (cut - 1)))) }
{
    let front = Line {
        version: None,
        hostname: Some(host),
        appname: None,
        process: None,
        msgid: None,
        list: ElementList::none(),
        msg: ":",
        rest: "",
        is_printed: false,
        ..*line
    };
    print_line(text, &front)?;
    push_colons(text, cut - 1)?;
    push_tail(text, &line.list, line.msg)
}

// Appends ` :` `count` times: by sixteen, then one by one.
fn push_colons(text: &mut String, count: usize) -> Result<(), AllocError>
    ensures { OnOk result (string_bytes text.new ≡ string_bytes text.old ++ colons_before count []) }
{
    push_runs(text, SPACED_COLONS, count / 16)?;
    push_runs(text, " :", count % 16)
}

// Appends `run` `count` times.
#[inline(always)]
#[tactic(auto, using(crate::proofs::SettlingLemmas::Settles::pushed))]
fn push_runs(text: &mut String, run: &str, count: usize) -> Result<(), AllocError>
    ensures { OnOk result (string_bytes text.new ≡ string_bytes text.old ++ repeat count run.now) }
{
    for done in 0..count {
        text.push_str(run)?;
    }
    Ok(())
}

// Appends what comes after the colon of the names: elements and the message part, each after a space.
#[tactic(auto, using(crate::proofs::Names::on_ok_weaker, crate::proofs::SettlingLemmas::Settles::tail_pushed))]
fn push_tail(text: &mut String, list: &ElementList<'_>, msg: &str) -> Result<(), AllocError>
    ensures { OnOk result (string_bytes text.new ≡ string_bytes text.old
        ++ encode_utf8_all (tail_text (list_elements list.now) (chars msg.now))) }
{
    if list.is_empty() {
        return push_end(text, msg);
    }
    write!(text, " {list}")?;
    push_end(text, msg)
}

// Appends a space and the message part, or nothing if that is empty.
#[tactic(auto, using(crate::proofs::SettlingLemmas::Settles::ends_empty, crate::proofs::SettlingLemmas::Settles::ends_some))]
fn push_end(text: &mut String, msg: &str) -> Result<(), AllocError>
    ensures { OnOk result (string_bytes text.new ≡ string_bytes text.old
        ++ encode_utf8_all (message_end (chars msg.now))) }
{
    if msg.is_empty() {
        return Ok(());
    }
    text.push_str(" ")?;
    text.push_str(msg)
}

// Returns the message part without the dashes that the next readings drop, one in each round: from the last of them on
// that has a blank after it.
fn msg_past_dashes<'a>(line: &Line<'a>) -> &'a str
    requires { IfSome (line_value line.now).timestamp IsCanonicalStamp
        → IfSome (line_value line.now).hostname EndsOnce }
    ensures { (variant : Variant) (dating : Dating) (input : Text)
        → IsRead variant dating input (line_value line.now) → line.now.version ≡ None
        → IsLater variant dating input (line_value line.now) (printed (with_msg (line_value line.now) (shown result))) }
{
    if !has_quiet_names(line) {
        return line.msg;
    }
    if !line.list.is_empty() {
        return line.msg;
    }
    last_dash(line.msg)
}

// Returns the text from the last of its leading dashes on, where each of them has blanks after it; the text itself if
// it begins with no such dash. Dashes with one space after each are skipped by sixteen, the others one by one.
fn last_dash(text: &str) -> &str
    ensures passes { (n : ℕ) × PassesDashes n (chars text.now) (shown result) }
    ensures last { (p q : Text) → IsDashed (shown result) p → IsDashed p q → ⊥ }
{
    let mut from = past_many_dashes(text);
    let Some(after) = after_dash(from) else {
        return from;
    };
    let mut rest = after;
    'dashes: while let Some(next) = after_dash(rest) {
        from = rest;
        rest = next;
    }
    from
}

// Skips sixteen dashes with a space after each, as often as a further dash follows them.
fn past_many_dashes(text: &str) -> &str
    ensures { (n : ℕ) × PassesDashes n (chars text.now) (shown result) }
{
    let mut from = text;
    'many: while let Some(rest) = from.strip_prefix(SPACED_DASHES) {
        if after_dash(rest).is_none() {
            break 'many;
        }
        from = rest;
    }
    from
}

// Returns the text after a dash and one or more blanks.
fn after_dash(text: &str) -> Option<&str>
    ensures { MatchOption result ((rest : Text) → IsDashed (chars text.now) rest → ⊥)
        (λ rest. IsDashed (chars text.now) (shown rest)) }
{
    some_blanks(literal(text, '-')?)
}
