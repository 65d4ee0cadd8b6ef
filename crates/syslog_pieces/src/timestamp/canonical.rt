//! Whether a timestamp is read back from its printed text.
//!
//! **Rule.** It is a part of the written condition, which is this project's own (`docs/GRAMMAR.md`).
ghost use Rattle.std.specs.Prelude.{◌≡◌, ◌↔◌, ◌%◌, ◌<◌, ◌≤ℤ◌, pos, unsigned_abs, IfSome, IsTrue};
ghost use Rattle.syslog_pieces.specs.Words.{stamp_seen, IsCanonicalStamp};

use super::{ClockStamp, OffsetTimestamp};

/// Returns whether the timestamp is read back from its printed text. It is if a clock at its own offset shows a year
/// from 0 to 9999, and the offset is whole minutes and under 24 hours either way. Nothing is allocated.
pub fn is_canonical_stamp(stamp: OffsetTimestamp) -> bool
    ensures { IsTrue result ↔ IsCanonicalStamp stamp }
{
    let year = stamp.offset.to_datetime(stamp.instant).year();
    is_read_back(stamp.offset.seconds(), i32::from(year))
}

/// Returns whether the date and time that a clock showed, if there are any, are read back from their printed text.
pub fn is_canonical_clock(clock: Option<ClockStamp>) -> bool
    ensures { IsTrue result ↔ IfSome (stamp_seen clock) IsCanonicalStamp }
{
    match clock {
        Some(clock) => is_read_back(clock.offset.seconds(), clock.fields.year),
        None => true,
    }
}

// Whether an offset and a year are read back from print.
fn is_read_back(offset: i32, year: i32) -> bool
    ensures { IsTrue result ↔ (pos 0 ≤ℤ year) × (unsigned_abs offset % 60 ≡ 0) × (unsigned_abs offset < 86_400) }
{
    let seconds = offset.unsigned_abs();
    year >= 0 && seconds % 60 == 0 && seconds < 86_400
}
