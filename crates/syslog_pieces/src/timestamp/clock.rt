//! A timestamp as the date and time that a clock shows.
ghost use Rattle.std.specs.Prelude.{◌-ℤ◌};
ghost use Rattle.jiff.specs.Words.{IsTimestampNanos, nanos_of_seconds};
ghost use Rattle.syslog_pieces.specs.Timestamp.Fields.{AreCivil, nanos_of_fields};

use super::fields::CivilFields;
use jiff::tz::Offset;

/// The date and time that a clock at an offset shows. They are what is read and what is printed, so neither needs an
/// instant.
#[derive(Clone, Copy)]
pub struct ClockStamp {
    /// The date and time that the clock shows.
    pub fields: CivilFields,
    /// How far the clock is ahead of UTC.
    pub offset: Offset,
    pub ghost civil: { AreCivil fields },
    pub ghost in_range: { IsTimestampNanos (nanos_of_fields fields -ℤ nanos_of_seconds offset.seconds) },
}
