//! Reads a syslog message from a text, by RFC 5424 or the looser RFC 3164, and prints it again: the crate
//! `syslog_loose` 0.23.0, ported to Rattle.
//!
//! A text is parsed by the one division into pieces that the grammar in `docs/GRAMMAR.md` allows, unless an allocation
//! fails. Texts of a result are slices of the input. A call that allocates takes the allocator `alloc` first, and
//! returns an error if an allocation fails.
//!
//! `normalise` prints the message of a text, and `settle` goes on until the text no longer changes. A printed line of
//! RFC 5424 is stable. Any other becomes so after a few rounds, or one of its rounds does not parse.
//!
//! If `line` is `<34>Oct 11 22:14:15 mymachine app[323]: a message` and `get_year` returns 2019, the call
//! `normalise(alloc, line, get_year, None, Variant::Either, &TimeZone::UTC)` returns `<34> 2019-10-11T22:14:15+00:00
//! mymachine app[323]: a message`, and so does `settle`. `CALLING.md` has callers with their contracts and proofs.
#![tactic(auto)]

mod dash_change;
mod date_form;
mod dates;
mod fault;
mod jumps;
pub mod laws;
mod line;
mod message;
mod reading;
mod reckoning;
mod rfc3164;
mod rfc5424;
mod rounds;
mod settling;
mod tag_form;
mod today;
mod variant;
mod visit;

pub use dash_change::reads_differently;
pub use date_form::DateForm;
pub use dates::Dates;
pub use fault::ParseFault;
pub use jiff::Timestamp;
pub use jiff::civil::Date;
pub use jiff::tz::{Offset, TimeZone};
pub use line::Line;
pub use message::{Message, Protocol};
pub use reading::{
    parse_message, parse_message_with_year, parse_message_with_year_exact,
    parse_message_with_year_exact_tz, parse_message_with_year_tz,
};
pub use reckoning::{latest_year, reckon_year, zone_ahead, zone_of_rule};
pub use rfc3164::{HeaderNames, resolve};
pub use rounds::normalise;
pub use settling::{settle, settle_into};
pub use syslog_elements::structured_data::{
    Collect, Element, ElementList, ElementVisitor, Elements, NoElements, NoNotes, ParamNotes,
    Params, ParamsIter, StructuredElement,
};
pub use syslog_pieces::VERSION;
pub use syslog_pieces::pri::{SyslogFacility, SyslogSeverity, decompose_pri};
pub use syslog_pieces::procid::ProcId;
pub use syslog_pieces::timestamp::{ClockStamp, OffsetTimestamp};
pub use syslog_text::as_str::AsStr;
pub use today::Today;
pub use variant::{IncompleteDate, Variant};
pub use visit::{Itself, LineVisitor, parse_line, visit_dated_line, visit_line};
