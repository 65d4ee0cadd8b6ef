//! A year, month, day, hour, minute, second and nanosecond as numbers, and the datetime that they name.
ghost use Rattle.std.specs.Prelude.{◌≡◌, ◌<◌, ◌^◌, pos, IsNone, IfSome, SomeIff, FitsSigned};
ghost use Rattle.syslog_pieces.specs.Words.{w16, AreCivil, fields_of};

use jiff::civil::DateTime;

/// A year, month, day, hour, minute, second and nanosecond as numbers. There may be no datetime that has them.
#[derive(Clone, Copy)]
pub struct CivilFields {
    pub year: i32,
    pub month: u32,
    pub day: u32,
    pub hour: u32,
    pub minute: u32,
    pub second: u32,
    pub nanosecond: u32,
}

impl CivilFields {
    /// Returns the datetime with these fields, if there is one.
    pub fn datetime(self) -> Option<DateTime>
        ensures value { IfSome result (λ dt. fields_of dt ≡ self) }
        ensures none { IsNone result → ¬ (AreCivil self) }
    {
        let year = year_number(self.year)?;
        let month = small(self.month)?;
        let day = small(self.day)?;
        let hour = small(self.hour)?;
        let minute = small(self.minute)?;
        let second = small(self.second)?;
        let nanosecond = nanosecond_number(self.nanosecond)?;
        DateTime::new(year, month, day, hour, minute, second, nanosecond).ok()
    }
}

/// Returns the fields of a datetime.
pub(crate) fn datetime_fields(dt: DateTime) -> CivilFields
    ensures { result ≡ fields_of dt }
{
    CivilFields {
        year: i32::from(dt.year()),
        month: dt.month() as u32,
        day: dt.day() as u32,
        hour: dt.hour() as u32,
        minute: dt.minute() as u32,
        second: dt.second() as u32,
        nanosecond: dt.subsec_nanosecond() as u32,
    }
}

// Returns the year as jiff has it. It and the two functions below are apart, since beside seven `Result`s the prover
// would not find that there is no datetime.
fn year_number(n: i32) -> Option<i16>
    ensures { SomeIff result (FitsSigned w16 n) n }
{
    i16::try_from(n).ok()
}

fn nanosecond_number(n: u32) -> Option<i32>
    ensures { SomeIff result (n < 2 ^ 31) (pos n) }
{
    i32::try_from(n).ok()
}

fn small(n: u32) -> Option<i8>
    ensures { SomeIff result (n < 128) (pos n) }
{
    i8::try_from(n).ok()
}
