//! What a filter writes of each line: how lines are read, and in which form their objects are written.

use std::cell::Cell;
use syslog_choice::Choice;
use syslog_loose::Dates;

/// The filter that writes the object of each line.
#[derive(Drop)]
pub struct Objects<'a> {
    /// Whether an object is written as a row of CSV. Otherwise it is written as JSON.
    pub csv: bool,
    /// Whether the object of a message also has the line as it came.
    pub raw: bool,
    /// Whether a line is read in a dialect that it is in.
    pub dialects: bool,
    /// Whether a line that is not UTF-8 is decoded as ISO 8859-1.
    pub latin1: bool,
    /// How dates that show no year or no zone are completed.
    pub dates: Dates,
    /// Which messages are written. If it is absent, all lines are.
    pub choice: Option<Choice<'a>>,
    /// Memory in which an object is written before it is added to the output. It is kept from line to line, with what it
    /// holds.
    pub memory: Cell<Vec<u8>>,
}
