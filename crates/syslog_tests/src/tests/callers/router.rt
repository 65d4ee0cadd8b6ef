//! A router by severity and host, as a caller of this crate writes it: it takes no memory. `CALLING.md` shows it.
ghost use Rattle.std.specs.Prelude.{◌≡◌, ◌≢◌, ◌↔◌, ◌<◌, ◌≤◌, IfSome, IsSomeAnd, IsTrue, None, Some};
ghost use Rattle.std.specs.Str.{chars};
ghost use Rattle.syslog_text.specs.Pieces.View.{seen};
ghost use Rattle.syslog_pieces.specs.Pri.{severity_number};
ghost use Rattle.syslog_pieces.specs.Timestamp.Zone.{dating_of};
ghost use Rattle.syslog_loose.specs.Reading.{OnReading};
ghost use Rattle.syslog_loose.specs.declared.variant.Variant.TheVariants.{Either};
ghost use Rattle.syslog_tests.specs.declared.tests.callers.router.Destination.TheVariants.{Gateway, Pager};
ghost use Rattle.syslog_tests.specs.declared.tests.callers.router.Destination.TheVariants.{Refused};

use crate::tests::checks::check;
use syslog_loose::{IncompleteDate, SyslogSeverity, TimeZone, Variant, parse_line};
use syslog_text::as_str::is_same_text;

/// Where a line goes.
#[derive(Clone, Copy, Debug, PartialEq, Eq)]
enum Destination {
    /// Whoever is on call: the severity is critical or worse.
    Pager,
    /// Those who look after the gateway: it is from that host.
    Gateway,
    /// All other messages.
    Archive,
    /// No message.
    Refused,
}

fn is_named(host: &str, name: &str) -> bool
    ensures { IsTrue result ↔ (chars host.now ≡ chars name.now) }
{
    is_same_text(&host, &name)
}

/// Whether the host is this one.
fn is_host(host: Option<&str>, name: &str) -> bool
    ensures { IsTrue result ↔ (seen host.entry ≡ Some (chars name.now)) }
{
    match host {
        Some(host) => is_named(host, name),
        None => false,
    }
}

fn destination_of(
    severity: Option<SyslogSeverity>,
    host: Option<&str>,
    gateway: &str,
) -> Destination
    ensures pager { (result ≡ Pager) ↔ IsSomeAnd severity (λ s. severity_number s ≤ 2) }
    ensures gateway { (result ≡ Gateway)
        ↔ (IfSome severity (λ s. 2 < severity_number s) × (seen host.entry ≡ Some (chars gateway.now))) }
    ensures some { result ≢ Refused }
{
    match severity {
        Some(severity) if severity as u32 <= 2 => return Destination::Pager,
        _ => {}
    }
    if is_host(host, gateway) {
        Destination::Gateway
    } else {
        Destination::Archive
    }
}

/// Where the line goes, by the severity and the host of its message. `year` is that of dates that have none.
fn route(line: &str, gateway: &str, year: i32, local: &TimeZone<'_>) -> Destination
    ensures { OnReading Either (dating_of (Some year) None local.entry) (chars line.now) (result ≡ Refused) (λ m.
        ((result ≡ Pager) ↔ IsSomeAnd m.severity (λ s. severity_number s ≤ 2))
        × ((result ≡ Gateway)
        ↔ (IfSome m.severity (λ s. 2 < severity_number s) × (m.hostname ≡ Some (chars gateway.now))))
        × (result ≢ Refused)) }
{
    let get_year = move |_: IncompleteDate| -> i32
        ensures { result ≡ year }
    { year };
    match parse_line(line, get_year, None, Variant::Either, local) {
        Some(line) => destination_of(line.severity(), line.hostname, gateway),
        None => Destination::Refused,
    }
}

#[test]
fn routes_lines(rt: HostRuntime) {
    for (line, want) in &[
        ("<34>1 - host su - ID47 - su failed", Destination::Pager),
        (
            "<133>Jan 13 16:33:35 gateway haproxy[73411]: Proxy started.",
            Destination::Gateway,
        ),
        ("1 - gateway app - - - no priority", Destination::Gateway),
        (
            "<165>1 - host app - - [a b=\"c\"] event",
            Destination::Archive,
        ),
        (
            "<133>Jan 13 16:33:35 haproxy[73411]: Proxy started.",
            Destination::Archive,
        ),
        ("<256>1 - gateway app - - - too large", Destination::Refused),
    ] {
        let to = route(line, "gateway", 2026, &TimeZone::UTC);
        check(&rt, to == *want, line);
    }
}
