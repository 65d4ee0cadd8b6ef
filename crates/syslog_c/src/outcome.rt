//! The outcomes of a call.
//!
//! **Rule.** It is this project's own choice; `include/syslog_loose.h` declares it for C.

/// The outcome of a call. A caller in C gets the number, as `SYSLOG_DONE` and the like.
#[derive(Clone, Copy, Debug, PartialEq, Eq)]
pub enum Outcome {
    /// All that the call writes was written.
    Done = 0,
    /// The line does not parse. For `syslog_settle` it may also be a later round of the line that does not.
    NoReading = 1,
    /// The line, or the value, is not UTF-8.
    NotUtf8 = 2,
    /// An allocation failed. Only `syslog_settle`, `syslog_to_rfc5424` and `syslog_json` allocate.
    NoMemory = 3,
    /// An array or the buffer is too small. The counts, or `needed`, say how large it has to be.
    NoRoom = 4,
    /// The options mean nothing: one is out of its range, the calendar does not have the day, the zone is no rule, or
    /// there are a zone and an offset.
    BadArgument = 5,
}
