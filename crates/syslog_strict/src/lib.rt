//! Syslog lines as strict RFC 5424, in the grammar of its section 6.
//!
//! `specs/Grammar.antt` has the grammar, rule by rule. How a field is converted is this project's own choice, which
//! `docs/GRAMMAR.md` describes.
#![tactic(auto)]

mod call;
mod conversion;
mod elements;
mod ids;
mod joined;
pub mod laws;
mod names;
mod stamp;
mod text;
mod valid;

pub use call::{copy_text, to_rfc5424, to_rfc5424_into};
pub use conversion::convert_line;
pub use valid::is_syslog_msg;
