//! What the forms of dialects share: their dates, zones, names and runs, and what a line says.
//!
//! The forms are in two crates above, which know nothing of each other: `syslog_dated_forms` and `syslog_named_forms`.
//! The rule is that of each module. None of them asks a calendar, or what the port reads.
#![tactic(auto)]

pub mod date;
pub mod dialect;
pub mod led;
pub mod named;
pub mod runs;
pub mod selector;
pub mod sent;
pub mod skips;
pub mod zone;
