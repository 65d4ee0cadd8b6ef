//! How a caller in C says by which protocol a line is read, and how its dates are completed.
//!
//! **Rule.** It is this project's own choice; `include/syslog_loose.h` declares it for C.

/// How a line is read.
#[repr(C)]
#[derive(Clone, Copy, Debug)]
pub struct Options {
    /// 0 for either protocol; 3164 or 5424 for that one alone.
    pub variant: u32,
    /// The year of dates that show none, from -9999 to 9999.
    pub year: i32,
    /// The current month, from 1 to 12: in January a date of December is of the year before. If it is 0, each date that
    /// shows no year is of `year`.
    pub month: u32,
    /// How many seconds the zone of dates that show none is ahead of UTC, from -93599 to 93599.
    pub offset: i32,
    /// If it is 0, a line that is in a dialect is read in it. Otherwise each line is read by the two protocols alone.
    pub no_dialects: u32,
    /// The current day of the month, from 1 to 31, which the calendar has: a date that shows no year is of the last
    /// year that puts it no more than a day past this day. If it is 0, only the year and the month are known.
    pub day: u32,
    /// The zone of dates that show none, as a POSIX rule such as `CET-1CEST,M3.5.0,M10.5.0/3`, beside which `offset` is
    /// 0. A zero byte ends it. If it is empty, `offset` counts.
    pub zone: [u8; 96],
}
