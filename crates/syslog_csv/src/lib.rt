//! A syslog line as a row of CSV, by RFC 4180: the cells are what the JSON object of the line has at each key.
//!
//! `header` returns the names of the columns, `line_row` the row of a message, and `refused_row` that of a line that is
//! no message. A cell is between quotes if it has a quote, a comma, CR or LF.
#![tactic(auto)]

mod cells;
pub mod laws;
mod record;
mod row;

pub use row::{header, line_row, refused_row};
