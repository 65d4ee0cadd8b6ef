//! A store of lines with queries by host and instant, as a caller of this crate writes it. `CALLING.md` names it.
ghost use Rattle.std.specs.Prelude.{◌≡◌, ◌↔◌, ◌≤ℤ◌, ◌<ℤ◌, false, IfOk, IsSomeAnd, IsTrue, None, Some};
ghost use Rattle.std.specs.Option.{option_map};
ghost use Rattle.std.specs.Str.{chars};
ghost use Rattle.syslog_text.specs.Pieces.View.{shown};
ghost use Rattle.syslog_pieces.specs.Timestamp.Zone.{dating_of};
ghost use Rattle.syslog_loose.specs.Message.{message_value};
ghost use Rattle.syslog_loose.specs.Reading.{OnReading};
ghost use Rattle.syslog_loose.specs.declared.variant.Variant.TheVariants.{Either};

use crate::tests::checks::check;
use std::alloc::{AllocError, Global};
use syslog_loose::{
    IncompleteDate, Message, OffsetTimestamp, ParseFault, TimeZone, Timestamp, Variant,
    parse_message_with_year_exact_tz,
};
use syslog_text::as_str::is_same_text;

/// What is asked for: messages of a host, from one instant on and before another.
#[derive(Clone, Copy)]
struct Query<'a> {
    host: &'a str,
    from: Timestamp,
    until: Timestamp,
}

fn is_of_host(host: Option<&str>, asked: &str) -> bool
    ensures { IsTrue result ↔ IsSomeAnd (option_map (λ s. shown s) host.entry) (λ h. h ≡ chars asked.now) }
{
    match host {
        Some(name) => is_same_text(&name, &asked),
        None => false,
    }
}

fn is_within(stamp: Option<OffsetTimestamp>, from: Timestamp, until: Timestamp) -> bool
    ensures { IsTrue result ↔ IsSomeAnd stamp (λ s. (from.nanosecond ≤ℤ s.instant.nanosecond)
        × (s.instant.nanosecond <ℤ until.nanosecond)) }
{
    match stamp {
        Some(stamp) => from <= stamp.instant && stamp.instant < until,
        None => false,
    }
}

fn answers(message: &Message<&str>, query: &Query<'_>) -> bool
    ensures { IsTrue result ↔ (IsSomeAnd (message_value (λ s. shown s) message.now).hostname
        (λ h. h ≡ chars query.now.host.now)
        × IsSomeAnd message.now.timestamp (λ s. (query.now.from.nanosecond ≤ℤ s.instant.nanosecond)
        × (s.instant.nanosecond <ℤ query.now.until.nanosecond))) }
{
    if !is_of_host(message.hostname, query.host) {
        return false;
    }
    is_within(message.timestamp, query.from, query.until)
}

/// Whether the line is a message that is asked for. An `Err` is only for memory.
fn is_asked_for(
    alloc: Global,
    line: &str,
    query: &Query<'_>,
    year: i32,
    local: &TimeZone<'_>,
) -> Result<bool, AllocError>
    ensures { IfOk result (λ found. OnReading Either (dating_of (Some year) None local.entry) (chars line.now)
        (found ≡ false) (λ m.
        IsTrue found ↔ (IsSomeAnd m.hostname (λ h. h ≡ chars query.now.host.now)
        × IsSomeAnd m.timestamp (λ s. (query.now.from.nanosecond ≤ℤ s.instant.nanosecond)
        × (s.instant.nanosecond <ℤ query.now.until.nanosecond))))) }
{
    let get_year = move |_: IncompleteDate| -> i32
        ensures { result ≡ year }
    { year };
    match parse_message_with_year_exact_tz(alloc, line, get_year, None, Variant::Either, local) {
        Ok(message) => Ok(answers(&message, query)),
        Err(ParseFault::Invalid) => Ok(false),
        Err(ParseFault::Memory) => Err(AllocError),
    }
}

#[test]
fn finds_lines(rt: HostRuntime) {
    let query = Query {
        host: "h",
        from: Timestamp::from_second(1_065_910_455).expect(&rt, "the first instant"),
        until: Timestamp::from_second(1_065_910_456).expect(&rt, "the last instant"),
    };
    for (line, want) in &[
        ("<34>1 2003-10-11T22:14:15Z h su - - - one", true),
        ("<34>1 2003-10-12T00:14:15.999+02:00 h su - - - one", true),
        ("<34>Oct 11 22:14:15 h su: one", true),
        ("<34>1 2003-10-11T22:14:16Z h su - - - later", false),
        ("<34>1 2003-10-11T22:14:14.999Z h su - - - earlier", false),
        ("<34>1 2003-10-11T22:14:15Z g su - - - another host", false),
        ("<34>1 - h su - - - no timestamp", false),
        ("gobbledegook", false),
    ] {
        let found = is_asked_for(rt.alloc(), line, &query, 2003, &TimeZone::UTC).expect(&rt, line);
        check(&rt, found == *want, line);
    }
}
