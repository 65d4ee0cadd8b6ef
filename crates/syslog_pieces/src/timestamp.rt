//! An instant with an offset: read from an RFC 3339 text or from a month date, compared, and printed.
//!
//! **Rule.** Month dates are those of RFC 3164 (`month_date`), read in a zone (`zone`). The other texts are those of
//! RFC 3339 section 5.6, `date-time`. These are this project's own choices:
//!
//! - Second 60, in any minute, is read as second 59 with its fraction kept.
//! - Decimals past nine are cut off.
//! - `Z` and a zero offset of either sign are the offset 0.
//! - An instant outside the range of `jiff::Timestamp` does not parse.
//! - The printed form is the one that [`OffsetTimestamp`] describes.
//!
//! **For callers.** [`header_stamp`] reads exactly the class `header_stamp`, which begins with `-` or a digit, and
//! `month_date` exactly the class `month_date`, which begins with a letter. `zone::month_stamp` returns the timestamp
//! of a month date. Display writes `printed_stamp`. Equality and order look at the instant alone.
ghost use Rattle.std.proofs.Common.{rules};
ghost use Rattle.std.specs.Cmp.{partial_order_from_own_ties};
ghost use Rattle.std.specs.Cmp.Rules.{comparing};
ghost use Rattle.syslog_pieces.specs.Words.{on, int_eq, int_cmp, as_partial_cmp, stamp_seen, Reads};
ghost use Rattle.std.specs.Prelude.{Some, chars};
ghost use Rattle.syslog_pieces.specs.Timestamp as spec;

pub mod canonical;
mod clock;
mod digits;
pub(crate) mod fields;
mod instant;
pub mod month_date;
pub mod pairs;
mod rfc3339_text;
pub mod zone;

pub use clock::ClockStamp;
pub use fields::CivilFields;
pub use instant::{clock_stamp, stamp_of};
use jiff::Timestamp;
use jiff::tz::Offset;
pub use month_date::MonthDate;
use std::cmp::Ordering;
use syslog_text::text::literal;
pub use zone::year_at;

/// An instant, and how far the clock that showed it is ahead of UTC.
///
/// It is printed as the civil time at the offset, `YYYY-MM-DDTHH:MM:SS` (a negative year as `-` and four digits). Then
/// comes a fraction of 0, 3, 6 or 9 decimals, the least that is exact, and the offset as a sign and `HH:MM`. Zero is
/// `+00:00` and never `Z`. An offset with seconds is rounded to the nearest minute, 30 seconds going away from zero,
/// and keeps its own sign.
///
/// Equality and order look at the instant alone.
#[derive(Clone, Copy, Debug)]
pub struct OffsetTimestamp {
    /// The instant, in nanoseconds.
    pub instant: Timestamp,
    /// The offset from UTC, in seconds.
    pub offset: Offset,
}

/// Reads the timestamp at the front of a header's text. Returns it, absent if it is `-`, and the rest; none if no
/// timestamp begins the text. A text that begins with `-` is never read further than that.
#[inline(always)]
pub fn header_stamp(text: &str) -> Option<(Option<ClockStamp>, &str)>
    ensures { Reads spec.header_stamp stamp_seen (chars text.now) result }
{
    match rfc3339_text::read(text) {
        Some((written, rest)) => {
            let _ = literal(rest, ' ')?;
            let stamp = rfc3339_text::stamp(written)?;
            Some((Some(stamp), rest))
        }
        None => Some((None, literal(text, '-')?)),
    }
}

impl PartialEq for OffsetTimestamp {
    ghost eq = { on (λ s. s.instant.nanosecond) int_eq };

    ghost laws = { Prim.search (comparing, rules) };

    fn eq(&self, other: &OffsetTimestamp) -> bool {
        self.instant == other.instant
    }
}

impl Eq for OffsetTimestamp {
    ghost laws = { Prim.search (comparing, rules) };
}

impl Ord for OffsetTimestamp {
    ghost cmp = { on (λ s. s.instant.nanosecond) int_cmp };

    ghost total = { Prim.search (comparing, rules) };

    ghost matches_partial_cmp = { Prim.search (comparing, rules) };

    ghost matches_eq = { Prim.search (comparing, rules) };

    fn cmp(&self, other: &OffsetTimestamp) -> Ordering {
        self.instant.cmp(&other.instant)
    }
}

impl PartialOrd for OffsetTimestamp {
    ghost partial_cmp = { as_partial_cmp (on (λ s. s.instant.nanosecond) int_cmp) };

    ghost laws = { partial_order_from_own_ties (Prim.search (comparing, rules))
        (Prim.search (comparing, rules)) };

    fn partial_cmp(&self, other: &OffsetTimestamp) -> Option<Ordering> {
        Some(self.cmp(other))
    }
}
