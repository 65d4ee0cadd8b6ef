//! Instants of lines that were written within the last year, as a caller of this crate finds them. `CALLING.md` names
//! it.
ghost use Rattle.std.specs.Prelude.{◌≡◌, IfOk, None, Some};
ghost use Rattle.std.specs.Str.{chars};
ghost use Rattle.syslog_pieces.specs.Timestamp.Zone.{dating_of};
ghost use Rattle.syslog_loose.specs.Reading.{InYear, OnReading};
ghost use Rattle.syslog_loose.specs.declared.variant.Variant.TheVariants.{Either};

use crate::tests::checks::check;
use std::alloc::{AllocError, Global};
use std::process::Abort;
use syslog_loose::{
    IncompleteDate, OffsetTimestamp, ParseFault, TimeZone, Timestamp, Variant,
    parse_message_with_year_exact_tz,
};

/// The year of a date that shows none, early in the year `now`: December was last year's.
fn year_of(date: IncompleteDate, now: i32, last: i32) -> i32
    ensures december { date.0 ≡ 12 → result ≡ last }
    ensures others { (date.0 ≡ 12 → ⊥) → result ≡ now }
{
    if date.0 == 12 { last } else { now }
}

/// The instant of the line, if it parses and has a timestamp. An `Err` is only for memory.
fn instant_of(
    alloc: Global,
    line: &str,
    now: i32,
    last: i32,
    local: &TimeZone<'_>,
) -> Result<Option<OffsetTimestamp>, AllocError>
    ensures { InYear (λ date year. (date.0 ≡ 12 → year ≡ last) × ((date.0 ≡ 12 → ⊥) → year ≡ now)) Either
        (chars line.now) (λ year. IfOk result (λ stamp.
        OnReading Either (dating_of year None local.entry) (chars line.now) (stamp ≡ None)
        (λ m. stamp ≡ m.timestamp))) }
{
    let get_year = move |date: IncompleteDate| -> i32
        ensures { (date.0 ≡ 12 → result ≡ last) × ((date.0 ≡ 12 → ⊥) → result ≡ now) }
    { year_of(date, now, last) };
    match parse_message_with_year_exact_tz(alloc, line, get_year, None, Variant::Either, local) {
        Ok(message) => Ok(message.timestamp),
        Err(ParseFault::Invalid) => Ok(None),
        Err(ParseFault::Memory) => Err(AllocError),
    }
}

// The second of the line's instant, if it has one, early in 2020.
fn check_second(rt: &impl Abort, alloc: Global, line: &str, second: Option<i64>) {
    let found = instant_of(alloc, line, 2020, 2019, &TimeZone::UTC).expect(rt, line);
    match (found, second) {
        (Some(found), Some(second)) => {
            let want = Timestamp::from_second(second).expect(rt, line);
            check(rt, found.instant == want, line);
        }
        (None, None) => {}
        _ => check(rt, false, line),
    }
}

#[test]
fn takes_december_for_last_year(rt: HostRuntime) {
    for (line, second) in &[
        ("<34>Dec 31 23:59:59 h su: one", Some(1_577_836_799)),
        ("<34>Jan  1 00:00:00 h su: one", Some(1_577_836_800)),
        ("<34>Dec 31 2018 23:59:59 h su: one", Some(1_546_300_799)),
        (
            "<34>1 2003-10-11T22:14:15Z h su - - - one",
            Some(1_065_910_455),
        ),
        // Without a timestamp.
        ("<34>1 - h su - - - one", None),
        ("gobbledegook", None),
    ] {
        check_second(&rt, rt.alloc(), line, *second);
    }
}
