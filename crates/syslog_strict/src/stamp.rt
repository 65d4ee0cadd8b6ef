//! Writes the front of a line of strict RFC 5424: priority, version and timestamp.
ghost use Rattle.std.specs.Prelude.{◌≡◌, ◌+◌, ◌*◌, ◌<◌, ◌++◌, ◌∷◌, [], true, false, IfSome, IsTrue, MatchOption, OnOk};
ghost use Rattle.std.specs.Prelude.{Some, unwrap_or};
ghost use Rattle.std.specs.Fmt.{decimal};
ghost use Rattle.std.specs.Option.{option_and_then};
ghost use Rattle.syslog_pieces.specs.Pri.{facility_number, severity_number};
ghost use Rattle.syslog_pieces.specs.Timestamp.{stamp_seen};
ghost use Rattle.syslog_pieces.specs.declared.timestamp.OffsetTimestamp.{OffsetTimestamp as OffsetValue};
ghost use Rattle.syslog_pieces.specs.declared.pri.SyslogFacility.TheVariants.{LOG_USER};
ghost use Rattle.syslog_pieces.specs.declared.pri.SyslogSeverity.TheVariants.{SEV_NOTICE};
ghost use Rattle.syslog_loose.specs.Line.{line_value};
ghost use Rattle.syslog_loose.specs.Printed.{priority_of, timestamp_text};
ghost use Rattle.syslog_strict.specs.Conversion.{converted, converted_stamp, has_text, micros};
ghost use Rattle.syslog_strict.specs.Pushing.{Appends, IsCutAt, front_text};

use crate::text::{push_char, push_text};
use std::alloc::AllocError;
use syslog_loose::{
    ClockStamp, Line, Offset, OffsetTimestamp, SyslogFacility, SyslogSeverity, Timestamp,
};
use syslog_pieces::front::Ascii;
use syslog_pieces::timestamp::canonical::{is_canonical_clock, is_canonical_stamp};

// Returns the number of the priority: an absent facility is `user` and an absent severity `notice` (RFC 3164 section
// 4.3.3).
#[inline(always)]
fn strict_priority(facility: Option<SyslogFacility>, severity: Option<SyslogSeverity>) -> u32
    ensures number { result
        ≡ facility_number (unwrap_or facility LOG_USER) * 8 + severity_number (unwrap_or severity SEV_NOTICE) }
    ensures small { result < 192 }
{
    let facility = match facility {
        Some(facility) => facility as u32,
        None => 1,
    };
    let severity = match severity {
        Some(severity) => severity as u32,
        None => 5,
    };
    facility * 8 + severity
}

// Whether the timestamp, if there is one, has no more than microseconds.
#[tactic(auto, using(crate::proofs::StampLemmas::has_micros))]
#[inline(always)]
fn has_micros(clock: &Option<ClockStamp>) -> bool
    ensures { IsTrue result → IfSome (stamp_seen clock.now) (λ s. micros s.instant.nanosecond ≡ s.instant.nanosecond) }
{
    match clock {
        Some(stamp) => stamp.fields.nanosecond % 1_000 == 0,
        None => true,
    }
}

// Returns the instant without what is finer than microseconds.
fn cut_instant(instant: Timestamp) -> Timestamp
    ensures { result.nanosecond ≡ micros instant.nanosecond }
{
    let nanosecond = instant.as_nanosecond();
    match Timestamp::from_nanosecond(nanosecond - nanosecond.rem_euclid(1_000)) {
        Ok(cut) => cut,
        Err(_) => unreachable!(),
    }
}

// Whether RFC 5424 can write the timestamp.
fn is_strict(stamp: &OffsetTimestamp) -> bool
    ensures { result ≡ has_text stamp.now }
{
    is_canonical_stamp(OffsetTimestamp {
        instant: stamp.instant,
        offset: stamp.offset,
    })
}

// Returns the instant, cut to microseconds, at this offset; none if RFC 5424 can't write it.
fn cut_at(instant: Timestamp, offset: Offset) -> Option<OffsetTimestamp>
    ensures { (s : OffsetValue) → IsCutAt instant.nanosecond offset.seconds s
        → MatchOption result (has_text s ≡ false) (λ t. (has_text s ≡ true)
        × (timestamp_text result ≡ timestamp_text (Some s))) }
{
    let cut = cut_instant(instant);
    let stamp = OffsetTimestamp {
        instant: cut,
        offset,
    };
    if is_strict(&stamp) { Some(stamp) } else { None }
}

// Returns the timestamp cut to microseconds. If RFC 5424 can't write it, it is in UTC instead, or absent.
#[cold]
fn strict_stamp(stamp: &OffsetTimestamp) -> Option<OffsetTimestamp>
    ensures { timestamp_text result ≡ timestamp_text (converted_stamp stamp.now) }
{
    match cut_at(stamp.instant, stamp.offset) {
        Some(cut) => Some(cut),
        None => cut_at(stamp.instant, Offset::UTC),
    }
}

// Appends the priority, the version and a space.
fn push_priority(out: &mut String, priority: u32) -> Result<(), AllocError>
    ensures { OnOk result (Appends out.old (60 ∷ (decimal priority ++ (62 ∷ 49 ∷ 32 ∷ []))) out.new) }
{
    write!(out, "<{priority}>1 ")?;
    Ok(())
}

// Appends the front of a line whose timestamp is converted.
#[cold]
#[inline(never)]
fn push_converted(
    out: &mut String,
    priority: u32,
    stamp: Option<OffsetTimestamp>,
) -> Result<(), AllocError>
    ensures { OnOk result (Appends out.old
        (front_text priority (timestamp_text (option_and_then converted_stamp stamp))) out.new) }
{
    push_priority(out, priority)?;
    match stamp {
        Some(stamp) => push_stamp(out, strict_stamp(&stamp)),
        None => push_char(out, '-'),
    }
}

// Appends a timestamp in printed form, or `-` for an absent one.
fn push_stamp(out: &mut String, stamp: Option<OffsetTimestamp>) -> Result<(), AllocError>
    ensures { OnOk result (Appends out.old (timestamp_text stamp) out.new) }
{
    match stamp {
        Some(stamp) => {
            write!(out, "{stamp}")?;
            Ok(())
        }
        None => push_char(out, '-'),
    }
}

/// Appends the priority, the version and the timestamp of the line's message, as strict RFC 5424 has them.
#[inline(always)]
pub(crate) fn push_front(out: &mut String, line: &Line<'_>) -> Result<(), AllocError>
    ensures { OnOk result (Appends out.old (front_text (priority_of (converted (line_value line.now)))
        (timestamp_text (converted (line_value line.now)).timestamp)) out.new) }
{
    let priority = strict_priority(line.facility(), line.severity());
    if has_micros(&line.timestamp) && is_canonical_clock(line.timestamp) {
        let front = Ascii::front(priority, Some(1), line.timestamp);
        return push_text(out, front.as_str());
    }
    push_converted(out, priority, line.instant())
}
