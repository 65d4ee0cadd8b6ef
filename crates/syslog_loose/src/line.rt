//! A parsed line: the one value between a text and whatever is made of it. It holds no memory of its own.
ghost use Rattle.std.specs.Prelude.{◌≡◌, ◌↔◌, ◌<◌};
ghost use Rattle.syslog_loose.specs.Words.{IsTrue, length, map, AllByRecursion, option_map, shown, procid_value};
ghost use Rattle.syslog_loose.specs.Words.{element_value, list_elements};

mod printing;
mod quirks;

use crate::message::{CheckedFields, Message, Protocol, are_canonical_fields};
pub(crate) use printing::print_line;
pub(crate) use quirks::{has_no_quirk, has_quiet_names};
use std::alloc::{AllocError, Global};
use syslog_elements::structured_data::{ElementList, Elements, StructuredElement};
use syslog_pieces::pri::{SyslogFacility, SyslogSeverity, parts};
use syslog_pieces::procid::ProcId;
use syslog_pieces::timestamp::{ClockStamp, OffsetTimestamp, stamp_of};

/// A line as it was parsed, by RFC 5424 or RFC 3164. Its texts are slices of the input, so it is `Copy` and holds no
/// memory of its own. Its elements are parsed again when they are asked for.
#[derive(Clone, Copy)]
pub struct Line<'a> {
    /// The version of RFC 5424; absent for RFC 3164.
    pub version: Option<u32>,
    /// The number of the priority, from 0 to 255; absent if the line has none.
    pub priority: Option<u8>,
    /// The date and time that the line shows, and the offset of their clock.
    pub timestamp: Option<ClockStamp>,
    /// The host; absent if the text names none.
    pub hostname: Option<&'a str>,
    /// The app name; absent if the text names none.
    pub appname: Option<&'a str>,
    /// The text that names the process, which may be a number.
    pub process: Option<&'a str>,
    /// The message id; absent for RFC 3164.
    pub msgid: Option<&'a str>,
    /// The structured data, as it was recognised in the text.
    pub list: ElementList<'a>,
    /// The message part: what follows the header and the structured data.
    pub msg: &'a str,
    /// The whole text after the timestamp.
    pub rest: &'a str,
    /// Whether the whole text after the timestamp is already in printed form. In a line of RFC 3164 it is true only if
    /// there also is a host field, a tag that names a program, and no list.
    pub is_printed: bool,
}

impl<'a> Line<'a> {
    ghost use Rattle.std.specs.Prelude.{◌≢◌, ◌↔◌};
    ghost use Rattle.syslog_loose.specs.Words.{[], IsTrue, MatchResult, elements_left};
    ghost use Rattle.syslog_loose.specs.Clauses.{line_value, IsCanonical, dash_rule, message_value, with_elements};

    /// Returns the protocol that the line was read by.
    #[inline(always)]
    pub fn protocol(&self) -> Protocol
        ensures { result ≡ (line_value self.now).protocol }
    {
        match self.version {
            Some(version) => Protocol::RFC5424(version),
            None => Protocol::RFC3164,
        }
    }

    /// Returns the facility; absent if there is no priority, or one above 191.
    #[inline(always)]
    pub fn facility(&self) -> Option<SyslogFacility>
        ensures { result ≡ (line_value self.now).facility }
    {
        parts(self.priority).0
    }

    /// Returns the severity; absent if there is no priority.
    #[inline(always)]
    pub fn severity(&self) -> Option<SyslogSeverity>
        ensures { result ≡ (line_value self.now).severity }
    {
        parts(self.priority).1
    }

    /// Returns the process id: the number that its text writes, and otherwise the text.
    #[inline(always)]
    #[tactic(auto, using(crate::proofs::Names::process_same, crate::proofs::Names::named_names))]
    pub fn process(&self) -> Option<ProcId<&'a str>>
        ensures { option_map (procid_value (λ s. shown s)) result ≡ (line_value self.now).procid }
    {
        match self.process {
            Some(word) => Some(ProcId::from(word)),
            None => None,
        }
    }

    /// Returns the timestamp as an instant, with the offset of the clock that showed it.
    #[inline(always)]
    pub fn instant(&self) -> Option<OffsetTimestamp>
        ensures { result ≡ (line_value self.now).timestamp }
    {
        stamp_of(self.timestamp)
    }

    /// Returns an iterator over the elements of the structured data that are strict, which means well formed, in order.
    #[inline(always)]
    pub fn elements(&self) -> Elements<'a>
        ensures { elements_left result ≡ (line_value self.now).structured_data }
    {
        self.list.elements()
    }

    /// Returns the line as a message that holds its elements. It allocates only if there are elements, and fails only
    /// if an allocation does.
    pub fn message(&self, alloc: Global) -> Result<Message<&'a str>, AllocError>
        ensures { MatchResult result (λ m. message_value (λ s. shown s) m ≡ line_value self.now)
            (λ _. list_elements self.now.list ≢ []) }
    {
        let elements = self.list.collect(alloc)?;
        Ok(self.with(elements))
    }

    /// Returns whether the printed text of the line's message is parsed as the same message by its own protocol.
    ///
    /// It looks at the fields alone, does not allocate, and takes time linear in the line.
    #[tactic(auto, using(syslog_elements::proofs::StructuredDataLemmas::Pairs::are_canonical))]
    pub fn is_canonical(&self) -> bool
        ensures { IsTrue result ↔ IsCanonical dash_rule (line_value self.now) }
    {
        let procid = self.process();
        are_canonical_fields(&CheckedFields {
            protocol: self.protocol(),
            facility: self.facility(),
            severity: self.severity(),
            timestamp: self.instant(),
            hostname: &self.hostname,
            appname: &self.appname,
            procid: &procid,
            msgid: &self.msgid,
            msg: &self.msg,
            no_elements: self.list.is_empty(),
            have_params: have_params(&self.list),
        })
    }

    // Returns the message of the line, with these elements instead of its own.
    #[inline(always)]
    pub(crate) fn with(&self, elements: Vec<StructuredElement<&'a str>>) -> Message<&'a str>
        ensures { message_value (λ s. shown s) result
            ≡ with_elements (line_value self.now) (map (element_value (λ s. shown s)) elements.entry.items) }
    {
        Message {
            protocol: self.protocol(),
            facility: self.facility(),
            severity: self.severity(),
            timestamp: self.instant(),
            hostname: self.hostname,
            appname: self.appname,
            procid: self.process(),
            msgid: self.msgid,
            structured_data: elements,
            msg: self.msg,
        }
    }
}

// Whether each element has a parameter.
fn have_params(list: &ElementList<'_>) -> bool
    ensures { IsTrue result ↔ AllByRecursion (λ e. 0 < length e.params) (list_elements list.now) }
{
    for element in list.elements() {
        if element.params_len() == 0 {
            return false;
        }
    }
    true
}
