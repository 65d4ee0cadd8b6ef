//! Whether civil fields on a clock have a timestamp, and its instant, by arithmetic of its own. Most dates need no
//! calendar lookup, and no datetime is made for an instant.
ghost use Rattle.std.specs.Prelude.{◌≡◌, ◌↔◌, ◌+◌, ◌*◌, ◌<◌, ◌≤◌, ◌+ℤ◌, ◌-ℤ◌, ◌*ℤ◌, ◌≤ℤ◌, ◌<ℤ◌, neg_ℤ, pos, IsTrue};
ghost use Rattle.syslog_pieces.specs.Words.{IsInRange, IsOffsetSeconds, IsTimestampNanos, nanos_of_seconds, IsAnswer};
ghost use Rattle.syslog_pieces.specs.Words.{clock_value, stamp_seen, AreCivil, nanos_of_fields};
ghost use Rattle.jiff_core.specs.Calendar.{day_count};
ghost use Rattle.jiff_core.specs.March.{march_days as days_of_march_years, march_months};
ghost use Rattle.syslog_pieces.specs.Timestamp.Fields.{IsStampOfClock};
ghost use Rattle.syslog_pieces.specs.declared.timestamp.fields.CivilFields.{CivilFields};

use super::fields::CivilFields;
use super::{ClockStamp, OffsetTimestamp};
use jiff::Timestamp;
use jiff::tz::Offset;

// Whether the date is one that each month has, in a year from 0 to 9998. Most are, and these need no calendar lookup.
fn is_early(fields: CivilFields) -> bool
    ensures civil { IsTrue result → AreCivil fields }
    ensures year { IsTrue result → (pos 0 ≤ℤ fields.year) × (fields.year <ℤ pos 9999) }
{
    let year = fields.year >= 0 && fields.year < 9999;
    let date = fields.month >= 1 && fields.month <= 12 && fields.day >= 1 && fields.day <= 28;
    let clock = fields.hour < 24 && fields.minute < 60 && fields.second < 60;
    year && date && clock && fields.nanosecond < 1_000_000_000
}

/// Returns the timestamp of the fields on a clock at this offset; none if there is no such date or time of day, or the
/// instant is out of range.
#[inline(always)]
pub fn clock_stamp(fields: CivilFields, offset: Offset) -> Option<ClockStamp>
    ensures { IsAnswer (IsStampOfClock fields offset) result }
{
    if is_early(fields) {
        return Some(ClockStamp { fields, offset });
    }
    if is_there(
        fields.year,
        fields.month,
        fields.day,
        fields.hour,
        fields.minute,
        fields.second,
        fields.nanosecond,
        offset,
    ) {
        Some(ClockStamp { fields, offset })
    } else {
        None
    }
}

// Whether there are such a date and time of day, and the instant is in range. The fields are passed one by one: as one
// value they would be in memory on each line, for a call that few lines make.
#[inline(never)]
fn is_there(
    year: i32,
    month: u32,
    day: u32,
    hour: u32,
    minute: u32,
    second: u32,
    nanosecond: u32,
    offset: Offset,
) -> bool
    ensures { let fields : CivilFields = record {
      year = year;
      month = month;
      day = day;
      hour = hour;
      minute = minute;
      second = second;
      nanosecond = nanosecond;
    } in
        IsTrue result ↔ AreCivil fields × IsTimestampNanos (nanos_of_fields fields -ℤ nanos_of_seconds offset.seconds) }
{
    let fields = CivilFields {
        year,
        month,
        day,
        hour,
        minute,
        second,
        nanosecond,
    };
    match fields.datetime() {
        Some(dt) => offset.to_timestamp(dt).is_ok(),
        None => false,
    }
}

impl ClockStamp {
    ghost use Rattle.syslog_pieces.specs.Words.{int_div_euclid, int_rem_euclid};

    /// Returns the timestamp: the instant at which the clock shows these fields, and its offset.
    pub fn stamp(self) -> OffsetTimestamp
        ensures { result ≡ clock_value self }
    {
        let Ok(instant) = Timestamp::from_nanosecond(nanosecond(self.fields, self.offset)) else {
            unreachable!()
        };
        OffsetTimestamp {
            instant,
            offset: self.offset,
        }
    }

    /// Returns the instant as Unix time: the whole seconds since 1970, rounded down, and the nanoseconds after them.
    pub fn unix_time(self) -> (i64, u32)
        ensures seconds { result.0 ≡ int_div_euclid (clock_value self).instant.nanosecond (pos 1_000_000_000) }
        ensures nanoseconds { pos result.1 ≡ int_rem_euclid (clock_value self).instant.nanosecond (pos 1_000_000_000) }
        ensures bound { result.1 < 1_000_000_000 }
    {
        (second_of(self.fields, self.offset), self.fields.nanosecond)
    }
}

/// Returns the instant and the offset of the date and time that a clock showed; none if there are none.
pub fn stamp_of(clock: Option<ClockStamp>) -> Option<OffsetTimestamp>
    ensures { result ≡ stamp_seen clock }
{
    Some(clock?.stamp())
}

// Returns the second of the instant, which its nanosecond is counted from.
fn second_of(fields: CivilFields, offset: Offset) -> i64
    requires { AreCivil fields }
    ensures { result *ℤ pos 1_000_000_000 +ℤ pos fields.nanosecond
        ≡ nanos_of_fields fields -ℤ nanos_of_seconds offset.seconds }
{
    let days = days(fields.year, fields.month, fields.day);
    let clock = fields.hour * 3_600 + fields.minute * 60 + fields.second;
    second_at(days, clock, offset.seconds())
}

// The nanosecond of the instant.
fn nanosecond(fields: CivilFields, offset: Offset) -> i128
    requires { AreCivil fields }
    ensures { result ≡ nanos_of_fields fields -ℤ nanos_of_seconds offset.seconds }
{
    i128::from(second_of(fields, offset)) * 1_000_000_000 + i128::from(fields.nanosecond)
}

// The seconds from 1 January of the year -10000 to 1970, counted as `days` counts.
const EPOCH: i64 = 377_736_739_200;

// Returns the second of the instant at which a clock at the offset shows this day and this second of the day.
#[inline(always)]
fn second_at(days: u32, clock: u32, offset: i32) -> i64
    requires days { days < 7_400_000 }
    requires clock { clock < 86_400 }
    requires offset { IsOffsetSeconds offset }
    ensures { result +ℤ offset +ℤ pos 377_736_739_200 ≡ pos (days * 86_400 + clock) }
{
    let shown = u64::from(days) * 86_400 + u64::from(clock);
    shown as i64 - EPOCH - i64::from(offset)
}

// Returns the days from 1 January of the year -10000 to the date.
fn days(year: i32, month: u32, day: u32) -> u32
    requires from { neg_ℤ (pos 9999) ≤ℤ year }
    requires to { year ≤ℤ pos 9999 }
    requires month { IsInRange 1 12 month }
    requires day { IsInRange 1 31 day }
    ensures value { result ≡ day_count year month day }
    ensures bound { result < 7_400_000 }
{
    let year = years(year);
    if month <= 2 {
        march_days(year - 1, month + 12, day)
    } else {
        march_days(year, month, day)
    }
}

// Returns the years since the year -10000. It is a function of its own, so that its clause speaks of a number where a
// cast has bits.
fn years(year: i32) -> u32
    requires from { neg_ℤ (pos 9999) ≤ℤ year }
    requires to { year ≤ℤ pos 9999 }
    ensures { pos result ≡ year +ℤ pos 10_000 }
{
    (year + 10_000) as u32
}

// Returns the day number of a date in a year that begins in March, and has the months 3 to 14.
#[inline(always)]
fn march_days(year: u32, month: u32, day: u32) -> u32
    requires year { year ≤ 20_000 }
    requires month { IsInRange 3 14 month }
    requires day { IsInRange 1 31 day }
    ensures value { result ≡ days_of_march_years year + march_months month + day + 59 }
    ensures bound { result < 7_400_000 }
{
    let century = year / 100;
    let of_years = 1_461 * year / 4 - century + century / 4;
    let of_months = (979 * month - 2_919) / 32;
    of_years + of_months + day + 59
}
