//! The texts and the numbers of the faults, and closures with a clause and without.
ghost use Rattle.std.specs.Prelude.{◌≡◌};

use super::checks::{check, prints};
use jiff::tz::TimeZone;
use std::alloc::AllocError;
use syslog_loose::{
    IncompleteDate, ParseFault, Protocol, SyslogSeverity, Variant, parse_message_with_year_exact_tz,
};

const TEXT: &str = "<200>1 - - - - - -";

#[test]
fn takes_closures_with_a_clause_and_without(rt: HostRuntime) {
    let (alloc, utc) = (rt.alloc(), TimeZone::UTC);
    let year = 2019;
    let stated = move |_: IncompleteDate| -> i32
        ensures { result ≡ year }
    { year };
    let variant = Variant::Either;
    let message = parse_message_with_year_exact_tz(alloc, TEXT, stated, None, variant, &utc).expect(
        &rt, TEXT,
    );
    let is_worst = matches!(message.severity, Some(SyslogSeverity::SEV_EMERG));
    check(&rt, is_worst, TEXT);
    let year = |date: IncompleteDate| if date.0 == 12 { 2019 } else { 2020 };
    let variant = Variant::RFC5424;
    let message = parse_message_with_year_exact_tz(
        alloc,
        TEXT,
        year,
        Some(&utc),
        variant,
        &utc,
    ).expect(&rt, TEXT);
    let is_first_version = matches!(message.protocol, Protocol::RFC5424(1));
    check(&rt, is_first_version, "the protocol");
    check(&rt, message.facility.is_none(), "the facility");
}

#[test]
fn says_what_the_faults_are_and_numbers_them(rt: HostRuntime) {
    for (fault, number, want) in &[
        (
            ParseFault::Invalid,
            1,
            "unable to parse input as valid syslog message",
        ),
        (ParseFault::Memory, 2, "out of memory"),
        (ParseFault::from(AllocError), 2, "out of memory"),
    ] {
        check(&rt, prints(fault, want), want);
        check(&rt, *fault as i32 == *number, want);
    }
    check(&rt, ParseFault::Invalid != ParseFault::Memory, "both");
}
