//! The JSON object of a parsed syslog line.
//!
//! The grammar is that of RFC 8259. Which keys there are, and in which order, is this project's own choice;
//! `docs/JSON.md` lists them.
#![tactic(auto)]

mod blocks;
mod element;
mod field;
mod gather;
pub mod laws;
mod object;
mod output;
mod writer;

pub use writer::{ObjectWriter, line_object};
