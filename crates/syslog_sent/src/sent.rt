//! What a sender said in a line, as the pieces of its dialect say it. No year and no zone is needed for it, so that no
//! reader of a dialect looks at a calendar. `syslog_dialects` makes the line from it.

use syslog_pieces::timestamp::MonthDate;

/// The numbers of a date that a line shows. There may be no such date.
#[derive(Clone, Copy)]
pub struct SentDate {
    /// The date, and the time of day to the second.
    pub date: MonthDate,
    /// The fraction of the second, in nanoseconds.
    pub nanosecond: u32,
    /// How many seconds the clock is ahead of UTC; absent if the line does not show it.
    pub offset: Option<i32>,
}

/// What a line says, without its priority.
#[derive(Clone, Copy)]
pub struct Sent<'a> {
    /// The version of RFC 5424; absent if the line shows none.
    pub version: Option<u32>,
    /// The date.
    pub date: Option<SentDate>,
    /// The host.
    pub hostname: Option<&'a str>,
    /// The app name.
    pub appname: Option<&'a str>,
    /// The text that names the process.
    pub process: Option<&'a str>,
    /// The message id.
    pub msgid: Option<&'a str>,
    /// The message part.
    pub msg: &'a str,
}
