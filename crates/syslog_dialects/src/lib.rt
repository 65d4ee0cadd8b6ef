//! Lines of syslog as their senders meant them: the forms in which switches, firewalls, daemons and journals write,
//! each as a row of pieces and what they say.
//!
//! The forms are those of `syslog_dated_forms` and `syslog_named_forms`, over what they share in `syslog_sent`. Here
//! is their order, and what becomes of the texts that they divide.
//!
//! A line that the port reads rightly keeps its reading (`ordinary`). Any other text is of the first dialect whose row
//! divides it, and otherwise is read as the port reads it. Either way the result is a `Line` of `syslog_loose`, so
//! whatever is made of a line can be made of a dialect's line.
#![tactic(auto)]

mod beginning;
mod dialects;
pub mod laws;
mod line;
mod note;
mod ordinary;
mod paired;
mod priority_alone;
mod visit;

pub use beginning::may_be_sent;
pub use note::may_be_note;
pub use ordinary::is_ordinary;
pub use syslog_sent::dialect::Dialect;
pub use visit::{Instead, SentLine, line_instead, parse_sent_line, sent_line, unread_line};
