//! Syslog lines as strict RFC 5424, each read as its sender meant it: in one of the dialects of `syslog_dialects`, or
//! as the port reads it.
//!
//! The grammar and the conversion are those of `syslog_strict`, which knows no dialect.
#![tactic(auto)]

mod convert;

pub use convert::to_rfc5424_sent;
