//! The command line of the programs: the words that they are called with, and what they report.
//!
//! `read_task` reads the words after a program's name, `report` writes at the end what became of the lines, and `say`
//! writes a text that was asked for. The words and the texts are this project's own choice.
//!
//! `read_year("2019")` is `Some(2019)`, and `read_offset("-07:00")` is `Some(-25200)`.
#![tactic(auto)]

mod args;
mod dates;
mod flags;
mod given;
mod options;
mod refusals;
pub mod report;
mod tasks;
mod values;
mod words;

pub use args::{is_alone, read_year, read_year_words};
pub use dates::{read_date, read_offset};
pub use flags::Flag;
pub use options::{MAX_LINE, Options};
pub use refusals::refuse_words;
pub use tasks::{Task, read_task};
pub use values::{read_severity, read_size};
pub use words::{Wrong, program_words};
