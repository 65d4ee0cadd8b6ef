//! The calls as tests make them, with UTC as the local zone.
use jiff::tz::TimeZone;
use std::alloc::Global;
use std::process::Abort;
use syslog_loose::{
    IncompleteDate, Message, ParseFault, Variant, normalise, parse_message_with_year_exact_tz,
    settle,
};

/// A zone at +01:00 in winter and at +02:00 in summer. In 2020 the gap lies at 02:00 to 03:00 on 29 March, and the fold
/// at 02:00 to 03:00 on 25 October.
pub(super) fn summer_rule(rt: &impl Abort) -> TimeZone<'static> {
    TimeZone::posix("CET-1CEST,M3.5.0,M10.5.0/3").expect(rt, "no such rule")
}

/// The message of the text, with UTC as both zones, in 2019 where a date shows no year.
pub(super) fn read<'a>(
    alloc: Global,
    text: &'a str,
    variant: Variant,
) -> Result<Message<&'a str>, ParseFault> {
    let utc = TimeZone::UTC;
    parse_message_with_year_exact_tz(
        alloc,
        text,
        |_: IncompleteDate| 2019,
        Some(&utc),
        variant,
        &utc,
    )
}

/// The text of the message, in this year where a date shows none.
pub(super) fn normalised(
    alloc: Global,
    text: &str,
    year: i32,
    tz: Option<&TimeZone<'_>>,
) -> Result<String, ParseFault> {
    normalise(
        alloc,
        text,
        move |_: IncompleteDate| year,
        tz,
        Variant::Either,
        &TimeZone::UTC,
    )
}

/// What the text settles as.
pub(super) fn settled(
    alloc: Global,
    text: &str,
    year: i32,
    tz: Option<&TimeZone<'_>>,
) -> Result<String, ParseFault> {
    settle(
        alloc,
        text,
        move |_: IncompleteDate| year,
        tz,
        Variant::Either,
        &TimeZone::UTC,
    )
}
