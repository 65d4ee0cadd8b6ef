//! The calls of `syslog_loose` for C: a static library with one export for each. `include/syslog_loose.h` declares
//! them.
//!
//! Let `line` be `<34>Mar  2 06:35:05 gateway dropbear[2310]: Exit`, of 48 bytes, and the year of the options 2026.
//! Then `syslog_read(line, 48, &options, &m, &element, 1, &param, 1)` returns `SYSLOG_DONE`: `m.facility` is 4,
//! `m.severity` is 2, `m.host` has the bytes `gateway`, and `m.timestamp.seconds` is 1772433305.
#![tactic(auto)]

mod arrays;
mod canonical;
mod convert;
mod decode;
pub mod fields;
mod lines;
mod names;
mod object;
pub mod options;
pub mod outcome;
mod printed;
mod put_line;
mod read;
mod read_line;
mod room;
mod rules;
mod sent;
mod shown;
mod strict;
mod unescape;
mod version;
