//! Timestamps that no text has, printed and compared.
use super::checks::{check, prints};
use super::rows::{answer_of, text_of};
use jiff::Timestamp;
use jiff::tz::Offset;
use std::process::Abort;
use syslog_pieces::timestamp::OffsetTimestamp;
use syslog_pieces::timestamp::canonical::is_canonical_stamp;

// From nanoseconds since 1970-01-01T00:00:00Z and an offset in seconds.
fn stamp(rt: &impl Abort, nanosecond: i128, seconds: i32) -> OffsetTimestamp {
    OffsetTimestamp {
        instant: Timestamp::from_nanosecond(nanosecond).expect(rt, "an instant"),
        offset: Offset::from_seconds(seconds).expect(rt, "an offset"),
    }
}

// The text of the row is seconds since 1970 began at UTC, a blank, and an offset in seconds.
fn stamp_in(rt: &impl Abort, row: &str) -> OffsetTimestamp {
    let (seconds, offset) = text_of(row).split_once(' ').expect(rt, row);
    let seconds = seconds.parse::<i64>().expect(rt, row);
    let offset = offset.parse::<i32>().expect(rt, row);
    OffsetTimestamp {
        instant: Timestamp::from_second(seconds).expect(rt, row),
        offset: Offset::from_seconds(offset).expect(rt, row),
    }
}

#[test]
fn prints_outside_the_standard_form(rt: HostRuntime) {
    for row in &[
        "0 29¦1970-01-01T00:00:29+00:00",
        "0 30¦1970-01-01T00:00:30+00:01",
        "0 -20¦1969-12-31T23:59:40-00:00",
        "0 -29¦1969-12-31T23:59:31-00:00",
        "0 -30¦1969-12-31T23:59:30-00:01",
        "0 86400¦1970-01-02T00:00:00+24:00",
        "-62198755200 0¦-0001-01-01T00:00:00+00:00",
    ] {
        let want = answer_of(row).unwrap_or("");
        check(&rt, prints(&stamp_in(&rt, row), want), row);
    }
    // the first and the last
    let first = OffsetTimestamp {
        instant: Timestamp::MIN,
        offset: Offset::MIN,
    };
    check(&rt, prints(&first, "-9999-01-01T00:00:00-26:00"), "first");
    let last = OffsetTimestamp {
        instant: Timestamp::MAX,
        offset: Offset::MAX,
    };
    check(
        &rt,
        prints(&last, "9999-12-31T23:59:59.999999999+26:00"),
        "last",
    );
}

#[test]
fn compares_by_the_instant(rt: HostRuntime) {
    check(
        &rt,
        stamp(&rt, 5, 0) == stamp(&rt, 5, 3600),
        "at two offsets",
    );
    check(&rt, stamp(&rt, 5, 0) != stamp(&rt, 6, 0), "at two instants");
    check(&rt, stamp(&rt, 4, 3600) < stamp(&rt, 5, 0), "before");
    check(&rt, stamp(&rt, 5, -3600) <= stamp(&rt, 5, 0), "not after");
    check(&rt, stamp(&rt, 5, 0) > stamp(&rt, -5, 0), "after");
}

// The civil year counts at the timestamp's own offset: one second before 0000-01-01T00:00:00 at UTC, and that second at
// an hour ahead of UTC.
#[test]
fn tells_which_are_read_back(rt: HostRuntime) {
    for row in &[
        "0 0",
        "0 86340",
        "0 -86340",
        "-62167219200 0",
        "-62167219201 3600",
    ] {
        check(&rt, is_canonical_stamp(stamp_in(&rt, row)), row);
    }
    // those that are not
    for row in &[
        "0 86400",
        "0 -86400",
        "0 90",
        "0 -1",
        "-62167219201 0",
        "-62167219200 -3600",
    ] {
        check(&rt, !is_canonical_stamp(stamp_in(&rt, row)), row);
    }
}
