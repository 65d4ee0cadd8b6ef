//! The timestamp of civil fields in a zone, and the year of a moment there.
//!
//! **Rule.** If a clock in the zone shows the fields twice, the earlier instant counts. If it never shows them, there
//! is no timestamp of them in a zone that is given, and in the local zone they are taken as UTC. (This project's own
//! choice, as the documents of the Rust crate have it.) No conversion here allocates.
ghost use Rattle.std.specs.Prelude.{◌≡◌, Some, pos, ◌<ℤ◌, IfSome, IsNone, option_map};
ghost use Rattle.syslog_pieces.specs.Words.{plain_zone, ambiguous_at, IsAnswer, clock_value, fields_of};
ghost use Rattle.syslog_pieces.specs.Bodies.Clock.{year_of as shown_year};
ghost use Rattle.syslog_pieces.specs.Timestamp.Zone as spec;

use super::ClockStamp;
use super::fields::{CivilFields, datetime_fields};
use super::instant::clock_stamp;
use super::month_date::MonthDate;
use jiff::Timestamp;
use jiff::civil::DateTime;
use jiff::tz::{AmbiguousOffset, Offset, TimeZone};

/// How a date is completed: the year of a date that shows none, and the zone of one without an offset, which is the
/// given one or otherwise the local one.
#[derive(Clone, Copy)]
pub struct Dating<'a, 'z> {
    /// The year of a date that shows none. If it is absent, such a date has no timestamp.
    pub year: Option<i32>,
    /// The zone that is given; absent if the local one is used.
    pub tz: Option<&'a TimeZone<'z>>,
    /// The local zone, which is used if no zone is given.
    pub local: &'a TimeZone<'z>,
}

/// Returns the timestamp of a month date, in the zone that is given or otherwise in the local one. A date that shows no
/// year takes that of `dating`, and has no timestamp if that is absent.
#[inline(always)]
pub fn month_stamp(date: MonthDate, dating: &Dating<'_, '_>) -> Option<ClockStamp>
    ensures { IsAnswer (spec.IsMonthStamp (spec.dating_value dating.entry.now) date) result }
{
    let year = year_of(date, dating.year)?;
    let fields = CivilFields {
        year,
        month: date.month,
        day: date.day,
        hour: date.hour,
        minute: date.minute,
        second: date.second,
        nanosecond: 0,
    };
    civil_stamp(fields, dating.tz, dating.local)
}

/// Returns the timestamp of civil fields, in the zone that is given or otherwise in the local one.
#[inline(always)]
pub fn civil_stamp(
    fields: CivilFields,
    tz: Option<&TimeZone<'_>>,
    local: &TimeZone<'_>,
) -> Option<ClockStamp>
    ensures { IsAnswer (spec.IsStampOfFields (option_map (λ z. plain_zone z.now) tz.entry) (plain_zone local.entry.now)
        fields) result }
{
    // Most zones that a filter is given have one offset.
    match tz.unwrap_or(local).to_fixed_offset() {
        Ok(offset) => clock_stamp(fields, offset),
        Err(_) => of_fields(fields, tz, local),
    }
}

/// Returns the year that a clock in the zone shows at the moment, from -9999 to 9999.
pub fn year_at(now: Timestamp, local: &TimeZone<'_>) -> i32
    ensures { spec.IsYearAt (plain_zone local.now) now.nanosecond result }
{
    i32::from(local.to_datetime(now).year())
}

// Returns the year that the date shows, or otherwise the one that is given.
fn year_of(date: MonthDate, year: Option<i32>) -> Option<i32>
    ensures value { IfSome result (λ y. shown_year date year ≡ Some y) }
    ensures none { IsNone result → IfSome (shown_year date year) (λ y. pos 9999 <ℤ y) }
{
    match date.year {
        Some(shown) => i32::try_from(shown).ok(),
        None => year,
    }
}

#[inline(never)]
fn of_fields(
    fields: CivilFields,
    tz: Option<&TimeZone<'_>>,
    local: &TimeZone<'_>,
) -> Option<ClockStamp>
    ensures { IsAnswer (spec.IsStampOfFields (option_map (λ z. plain_zone z.now) tz.entry)
        (plain_zone local.now) fields) result }
{
    let dt = fields.datetime()?;
    match tz {
        Some(tz) => in_zone(fields, dt, tz),
        None => in_local(fields, dt, local),
    }
}

// Returns the offset of the clock in the zone when it shows the datetime: the earlier one if it shows it twice, and
// none if it never does.
fn offset_before(dt: DateTime, tz: &TimeZone<'_>) -> Option<Offset>
    ensures { result ≡ spec.earlier (ambiguous_at (plain_zone tz.now) dt) }
{
    match tz.to_ambiguous_timestamp(dt).offset() {
        AmbiguousOffset::Unambiguous { offset } => Some(offset),
        AmbiguousOffset::Fold { before, .. } => Some(before),
        AmbiguousOffset::Gap { .. } => None,
    }
}

// Returns the timestamp of the fields in a zone that is given; none in a gap.
fn in_zone(fields: CivilFields, dt: DateTime, tz: &TimeZone<'_>) -> Option<ClockStamp>
    requires { fields_of dt ≡ fields }
    ensures { IsAnswer (spec.IsStampOf (ambiguous_at (plain_zone tz.now) dt) dt (λ _. ⊥)) result }
{
    let offset = offset_before(dt, tz)?;
    clock_stamp(fields, offset)
}

// Returns the timestamp of the fields in the local zone; as UTC in a gap.
fn in_local(fields: CivilFields, dt: DateTime, local: &TimeZone<'_>) -> Option<ClockStamp>
    requires { fields_of dt ≡ fields }
    ensures { IsAnswer (spec.IsStampOf (ambiguous_at (plain_zone local.now) dt) dt
        (spec.IsStampInGap (plain_zone local.now) dt)) result }
{
    match offset_before(dt, local) {
        Some(offset) => clock_stamp(fields, offset),
        None => in_gap(dt, local),
    }
}

// Returns what a clock in the local zone shows when one in UTC shows the datetime.
fn in_gap(dt: DateTime, local: &TimeZone<'_>) -> Option<ClockStamp>
    ensures { IsAnswer (spec.IsStampInGap (plain_zone local.now) dt) result }
{
    match Offset::UTC.to_timestamp(dt) {
        Ok(instant) => Some(shown_at(instant, local.to_offset(instant))),
        Err(_) => None,
    }
}

// Returns the date and time that a clock at the offset shows at the instant.
fn shown_at(instant: Timestamp, offset: Offset) -> ClockStamp
    ensures { clock_value result ≡ record { instant = instant; offset = offset } }
{
    ClockStamp {
        fields: datetime_fields(offset.to_datetime(instant)),
        offset,
    }
}
