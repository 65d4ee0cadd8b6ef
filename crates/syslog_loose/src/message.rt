//! The message: its fields, and its printed text.
ghost use Rattle.std.specs.Prelude.{◌≡◌, ◌+◌, ◌*◌, ◌++◌, ◌∷◌};
ghost use Rattle.syslog_loose.specs.Words.{WritesOnOk, option_map, option_map_or, Some, encode_utf8_all, text_of};
ghost use Rattle.syslog_loose.specs.Words.{facility_number, severity_number, procid_value};
ghost use Rattle.syslog_loose.specs.Message.{message_value};
ghost use Rattle.syslog_loose.specs.Printed as spec;

mod canonical;
mod copies;
mod equality;
mod printing;

pub(crate) use canonical::{CheckedFields, are_canonical_fields, begins_no_list};
use printing::write_elements_before;
pub(crate) use printing::{
    printed_priority, write_elements, write_name, write_process, write_tag, write_timestamp,
};
use std::fmt;
use syslog_elements::structured_data::StructuredElement;
use syslog_pieces::pri::{SyslogFacility, SyslogSeverity, write_priority};
use syslog_pieces::procid::ProcId;
use syslog_pieces::timestamp::OffsetTimestamp;
use syslog_text::as_str::AsStr;

/// The protocol that a message is written in: RFC 3164, or RFC 5424 with its version.
#[derive(Clone, Copy, Debug, PartialEq, Eq)]
pub enum Protocol {
    RFC3164,
    RFC5424(u32),
}

/// A syslog message whose texts have the type `S`.
///
/// It prints as its protocol writes it. The values of parameters are printed as they are, without escaping. An absent
/// facility is printed as 5 (`syslog`) and an absent severity as 7 (`debug`), as the Rust crate does.
///
/// Two messages are `==` if all fields but the protocol are equal: timestamps by instant, whatever their offsets, and
/// elements in order, each with its parameters in any order. That is an equivalence, and it does not allocate. There is
/// no `Eq`, since messages that are `==` may differ in protocol, in offsets and in the order of parameters, and then
/// print differently.
///
/// `try_clone` and `to_owned_text` copy a message. There is no `Clone`, which could not report that an allocation
/// failed.
#[derive(Debug, Drop)]
pub struct Message<S> {
    /// The protocol that the message was read by, and that it is printed in.
    pub protocol: Protocol,
    /// The facility; absent if the text has no priority, or one above 191.
    pub facility: Option<SyslogFacility>,
    /// The severity; absent if the text has no priority.
    pub severity: Option<SyslogSeverity>,
    /// The instant of the message, and the offset of the clock that showed it.
    pub timestamp: Option<OffsetTimestamp>,
    /// The host that sent the message.
    pub hostname: Option<S>,
    /// The program that sent the message.
    pub appname: Option<S>,
    /// The process that sent the message.
    pub procid: Option<ProcId<S>>,
    /// The message id, which names the kind of the message. RFC 3164 has none, and it is not printed there.
    pub msgid: Option<S>,
    /// The elements of structured data, in order.
    pub structured_data: Vec<StructuredElement<S>>,
    /// The message part: the text after the header and the structured data.
    pub msg: S,
}

/// Returns the priority that is printed for a facility and a severity: an absent facility counts as 5, and an absent
/// severity as 7.
#[inline]
pub(crate) fn priority(facility: Option<SyslogFacility>, severity: Option<SyslogSeverity>) -> u32
    ensures { result ≡ option_map_or facility_number facility 5 * 8 + option_map_or severity_number severity 7 }
{
    let facility = facility.map_or(5, |facility| facility as u32);
    let severity = severity.map_or(7, |severity| severity as u32);
    facility * 8 + severity
}

impl<S: AsStr> fmt::Display for Message<S> {
    ghost output = { λ m. Some (encode_utf8_all (spec.printed (message_value (text_of S.text) m))) };

    fn fmt<W: fmt::Write>(&self, f: &mut fmt::Formatter<W>) -> fmt::Result {
        match self.protocol {
            Protocol::RFC5424(version) => write_rfc5424(self, version, f),
            Protocol::RFC3164 => write_rfc3164(self, f),
        }
    }
}

fn write_rfc5424<S: AsStr, W: fmt::Write>(
    message: &Message<S>,
    version: u32,
    f: &mut fmt::Formatter<W>,
) -> fmt::Result
    ensures { WritesOnOk W.write_str_gives f.old result
        (encode_utf8_all (spec.printed_5424 version (message_value (text_of S.text) message.now))) f.new }
{
    let priority = priority(message.facility, message.severity);
    let msg = message.msg.as_str();
    write!(f, "<{priority}>{version}")?;
    write_origin(f, message)?;
    write_program(f, &message.appname, &message.procid, &message.msgid)?;
    write_elements(f, &message.structured_data)?;
    write_spaced(f, msg)
}

// Writes the timestamp and the host, each after a space.
#[inline]
fn write_origin<S: AsStr, W: fmt::Write>(
    f: &mut fmt::Formatter<W>,
    message: &Message<S>,
) -> fmt::Result
    ensures { WritesOnOk W.write_str_gives f.old result
        ((32 ∷ encode_utf8_all (spec.timestamp_text message.now.timestamp))
        ++ (32 ∷ encode_utf8_all (spec.name_text (option_map (text_of S.text) message.now.hostname)))) f.new }
{
    write_timestamp(f, message.timestamp)?;
    write_name(f, &message.hostname)
}

/// Writes the app name, the process id and the message id, each after a space.
pub(crate) fn write_program<S: AsStr, W: fmt::Write>(
    f: &mut fmt::Formatter<W>,
    app: &Option<S>,
    process: &Option<ProcId<S>>,
    id: &Option<S>,
) -> fmt::Result
    ensures { WritesOnOk W.write_str_gives f.old result
        ((32 ∷ encode_utf8_all (spec.name_text (option_map (text_of S.text) app.now)))
        ++ ((32 ∷ encode_utf8_all (spec.process_text (option_map (procid_value (text_of S.text)) process.now)))
        ++ (32 ∷ encode_utf8_all (spec.name_text (option_map (text_of S.text) id.now))))) f.new }
{
    write_name(f, app)?;
    write_process(f, process)?;
    write_name(f, id)
}

// Writes a space and a text.
#[inline(always)]
pub(crate) fn write_spaced<W: fmt::Write>(f: &mut fmt::Formatter<W>, text: &str) -> fmt::Result
    ensures { WritesOnOk W.write_str_gives f.old result (32 ∷ text.now) f.new }
{
    f.write_str(" ")?;
    f.write_str(text)
}

fn write_rfc3164<S: AsStr, W: fmt::Write>(
    message: &Message<S>,
    f: &mut fmt::Formatter<W>,
) -> fmt::Result
    ensures { WritesOnOk W.write_str_gives f.old result
        (encode_utf8_all (spec.printed_3164 (message_value (text_of S.text) message.now))) f.new }
{
    let priority = priority(message.facility, message.severity);
    let msg = message.msg.as_str();
    write_priority(f, priority)?;
    write_origin(f, message)?;
    write_tag(f, &message.appname, &message.procid)?;
    write_elements_before(f, &message.structured_data)?;
    f.write_str(msg)
}
