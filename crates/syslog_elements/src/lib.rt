//! Structured data: elements with an id and parameters, and the lists of them in lines of RFC 5424 and RFC 3164.
//!
//! **Rule.** Elements are those of RFC 5424 (section 6.3). A list forgives broken elements: they are left out of what
//! it means. `visit_forgiving_list` walks the list of RFC 5424 at the front of a text without memory, gives its strict
//! elements to a visitor, and returns the list with the text after it. `visit_rfc3164_list` does so for RFC 3164.
//!
//! The definitions are in `specs/StructuredData`, over the theory of pieces of `syslog_text`; the lemmas are in
//! `proofs/StructuredDataLemmas`. The module `structured_data::canonical` serves `syslog_loose` alone.
#![tactic(auto)]

pub mod laws;
pub mod structured_data;
