//! The written condition, tested on the fields: each text is given to the scanner or the reader that would read it.
ghost use Rattle.std.specs.Prelude.{◌≡◌, ◌≢◌, ◌↔◌, ◌<◌};
ghost use Rattle.syslog_loose.specs.Words.{AllByRecursion, option_map, List, [], IfSome, IsTrue, MatchBool, None, Some};
ghost use Rattle.syslog_loose.specs.Words.{length, map, chars, Ends, text_of, procid_value, ElementValue};
ghost use Rattle.syslog_loose.specs.Words.{element_value, BeginsNoList, is_blank, Name};
ghost use Rattle.syslog_loose.specs.Canonical as spec;
ghost use Rattle.syslog_loose.specs.Clauses.{AreElements, fields_value, message_value, dash_rule, IsNoForm};

use super::{Message, Protocol};
use crate::tag_form::tag_form;
use syslog_elements::structured_data::StructuredElement;
use syslog_elements::structured_data::canonical::are_canonical_elements;
use syslog_elements::structured_data::rfc3164_list::{DASH_RULE, begins_list};
use syslog_pieces::pri::{SyslogFacility, SyslogSeverity};
use syslog_pieces::procid::{ProcId, is_canonical_process, names_number};
use syslog_pieces::timestamp::OffsetTimestamp;
use syslog_pieces::timestamp::canonical::is_canonical_stamp;
use syslog_text::as_str::AsStr;
use syslog_text::text::CharClass;
use syslog_text::text::canonical::{
    begins_unblank, is_canonical_host, is_canonical_tag, is_canonical_word, is_only, is_some_of,
};

/// What the written condition depends on: the fields of a message, and two facts about its elements.
#[derive(Drop)]
pub(crate) struct CheckedFields<'a, S> {
    pub(crate) protocol: Protocol,
    pub(crate) facility: Option<SyslogFacility>,
    pub(crate) severity: Option<SyslogSeverity>,
    pub(crate) timestamp: Option<OffsetTimestamp>,
    pub(crate) hostname: &'a Option<S>,
    pub(crate) appname: &'a Option<S>,
    pub(crate) procid: &'a Option<ProcId<S>>,
    pub(crate) msgid: &'a Option<S>,
    pub(crate) msg: &'a S,
    /// Whether there is no element.
    pub(crate) no_elements: bool,
    /// Whether each element has a parameter.
    pub(crate) have_params: bool,
}

impl<S: AsStr> Message<S> {
    /// Returns whether the message is read back unchanged from its printed text, by its own protocol. It looks at the
    /// fields alone: it prints nothing, does not allocate, and takes time linear in the message.
    #[tactic(auto, using(crate::proofs::CanonicalLemmas::emptiness))]
    pub fn is_canonical(&self) -> bool
        ensures { IsTrue result ↔ spec.IsCanonical dash_rule (message_value (text_of S.text) self.now) }
    {
        let elements = self.structured_data.as_slice();
        if !are_canonical_elements(elements) {
            return false;
        }
        are_canonical_fields(&CheckedFields {
            protocol: self.protocol,
            facility: self.facility,
            severity: self.severity,
            timestamp: self.timestamp,
            hostname: &self.hostname,
            appname: &self.appname,
            procid: &self.procid,
            msgid: &self.msgid,
            msg: &self.msg,
            no_elements: elements.is_empty(),
            have_params: have_params(elements),
        })
    }
}

/// Whether a message with these fields is canonical, provided that its elements are.
#[tactic(auto, using(crate::proofs::Names::last_is))]
pub(crate) fn are_canonical_fields<S: AsStr>(fields: &CheckedFields<'_, S>) -> bool
    ensures { (es : List ElementValue) → AreElements fields.now.no_elements fields.now.have_params es
        → AllByRecursion spec.IsCanonicalElement es
        → IsTrue result ↔ spec.IsCanonical dash_rule (fields_value (text_of S.text) fields.now es) }
{
    if !are_canonical_in_both(fields) {
        return false;
    }
    match fields.protocol {
        Protocol::RFC5424(_) => are_canonical_rfc5424(fields),
        Protocol::RFC3164 => are_canonical_rfc3164(fields),
    }
}

// The part of the condition that both protocols have.
fn are_canonical_in_both<S: AsStr>(fields: &CheckedFields<'_, S>) -> bool
    ensures { (es : List ElementValue) → AllByRecursion spec.IsCanonicalElement es
        → IsTrue result ↔ spec.IsCanonicalInBoth (fields_value (text_of S.text) fields.now es) }
{
    fields.facility.is_some()
        && fields.severity.is_some()
        && fields.timestamp.is_none_or(is_canonical_stamp)
        && is_canonical_name(fields.hostname)
        && is_canonical_msg(fields.msg.as_str())
}

fn is_canonical_name<S: AsStr>(host: &Option<S>) -> bool
    ensures { IsTrue result ↔ IfSome (option_map (text_of S.text) host.now) spec.IsCanonicalHost }
{
    host.as_ref()
        .is_none_or(|name| is_canonical_host(name.as_str()))
}

fn is_canonical_msg(msg: &str) -> bool
    ensures { IsTrue result ↔ (Ends is_blank (chars msg.now) × spec.EndsVisibly (chars msg.now)) }
{
    begins_unblank(msg) && msg.trim_end() == msg
}

// The part of the condition that only RFC 5424 has.
fn are_canonical_rfc5424<S: AsStr>(fields: &CheckedFields<'_, S>) -> bool
    ensures { (es : List ElementValue) → IsTrue result
        ↔ spec.IsCanonical5424 (fields_value (text_of S.text) fields.now es) }
{
    is_word(fields.appname)
        && fields.procid.as_ref().is_none_or(is_canonical_process)
        && is_word(fields.msgid)
}

fn is_word<S: AsStr>(word: &Option<S>) -> bool
    ensures { IsTrue result ↔ IfSome (option_map (text_of S.text) word.now) spec.IsCanonicalWord }
{
    word.as_ref()
        .is_none_or(|word| is_canonical_word(word.as_str()))
}

// The part of the condition that only RFC 3164 has.
fn are_canonical_rfc3164<S: AsStr>(fields: &CheckedFields<'_, S>) -> bool
    ensures { (es : List ElementValue) → AreElements fields.now.no_elements fields.now.have_params es
        → IsTrue result ↔ spec.IsCanonical3164 dash_rule (fields_value (text_of S.text) fields.now es) }
{
    fields.msgid.is_none()
        && are_canonical_names(fields.hostname, fields.appname, fields.procid)
        && fields.have_params
        && begins_no_list(fields.no_elements, fields.msg.as_str())
}

// Whether host, app name and process id are read back from their printed text in RFC 3164.
fn are_canonical_names<S: AsStr>(
    host: &Option<S>,
    app: &Option<S>,
    process: &Option<ProcId<S>>,
) -> bool
    ensures { IsTrue result ↔ spec.AreCanonicalNames (option_map (text_of S.text) host.now)
        (option_map (text_of S.text) app.now)
        (option_map (procid_value (text_of S.text)) process.now) }
{
    match app {
        Some(app) => match process {
            Some(process) => is_program(app, process),
            None => is_lone_tag(app.as_str()),
        },
        None => match process {
            Some(_) => false,
            None => is_lone_host(host),
        },
    }
}

// Whether an app name and a process id, printed as `app[process]`, are read back.
fn is_program<S: AsStr>(app: &S, process: &ProcId<S>) -> bool
    ensures { IsTrue result ↔ spec.AreCanonicalNames None (Some (text_of S.text app.now))
        (Some (procid_value (text_of S.text) process.now)) }
{
    is_only(app.as_str(), CharClass::Label) && is_bracketed(process)
}

fn is_bracketed<S: AsStr>(process: &ProcId<S>) -> bool
    ensures { IsTrue result ↔ spec.IsBracketedProcess (procid_value (text_of S.text) process.now) }
{
    match process {
        ProcId::PID(_) => true,
        ProcId::Name(name) => is_bracketed_name(name.as_str()),
    }
}

#[tactic(auto, using(crate::proofs::Names::each_both))]
fn is_bracketed_name(name: &str) -> bool
    ensures { IsTrue result ↔ spec.IsBracketedProcess (Name (chars name.now)) }
{
    if !is_some_of(name, CharClass::Tag) {
        return false;
    }
    if !is_only(name, CharClass::Open) {
        return false;
    }
    !names_number(name)
}

// Whether an app name without a process id is read back.
fn is_lone_tag(app: &str) -> bool
    ensures { IsTrue result ↔ spec.AreCanonicalNames None (Some (chars app.now)) None }
{
    is_canonical_tag(app) && is_no_form(app)
}

fn is_no_form(text: &str) -> bool
    ensures { IsTrue result ↔ IsNoForm (chars text.now) }
{
    match tag_form(text) {
        Some(_) => false,
        None => true,
    }
}

// Whether the host of a message without an app name is read back.
fn is_lone_host<S: AsStr>(host: &Option<S>) -> bool
    ensures { IsTrue result ↔ IfSome (option_map (text_of S.text) host.now) IsNoForm }
{
    match host {
        Some(name) => is_no_form(name.as_str()),
        None => true,
    }
}

// Whether each element has a parameter.
fn have_params<S: AsStr>(elements: &[StructuredElement<S>]) -> bool
    ensures { IsTrue result ↔ AllByRecursion (λ e. 0 < length e.params)
        (map (element_value (text_of S.text)) elements.now) }
{
    for element in elements {
        if element.params.is_empty() {
            return false;
        }
    }
    true
}

/// Whether the message part is not taken for a list of elements, if there is no element before it.
#[tactic(auto, using(crate::proofs::CanonicalLemmas::no_list_told))]
pub(crate) fn begins_no_list(no_elements: bool, msg: &str) -> bool
    ensures { (es : List ElementValue) → MatchBool no_elements (es ≡ []) (es ≢ [])
        → IsTrue result ↔ (es ≡ [] → BeginsNoList dash_rule (chars msg.now)) }
{
    !no_elements || !begins_list(msg, DASH_RULE)
}
