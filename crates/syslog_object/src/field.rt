//! The fields of a line other than its elements: each is appended with the comma before it.
ghost use Rattle.std.specs.Prelude.{◌≡◌, ◌++◌, ◌≤◌, OnOk, Some, codes};
ghost use Rattle.std.specs.Option.{option_map};
ghost use Rattle.std.specs.Str.{chars};
ghost use Rattle.syslog_text.specs.Pieces.View.{seen};
ghost use Rattle.syslog_pieces.specs.ProcId.{named_process, procid_text};
ghost use Rattle.syslog_pieces.specs.Timestamp.{stamp_seen};
ghost use Rattle.syslog_loose.specs.Line.{protocol_of};
ghost use Rattle.syslog_object.specs.Object.{timestamp_json};
ghost use Rattle.syslog_object.specs.Parts.{IsSmallVersion, facility_fields, field_text};
ghost use Rattle.syslog_object.specs.Parts.{protocol_fields, severity_fields, text_field};

use crate::output::Output;
use std::alloc::AllocError;
use syslog_loose::{ClockStamp, ProcId, SyslogFacility, SyslogSeverity};
use syslog_pieces::front::Ascii;
use syslog_pieces::procid::is_bare_word;

/// Appends the opening brace, the protocol, and the version of RFC 5424.
#[tactic(auto, unfolding(json::specs::Print::escape_byte))]
pub(crate) fn push_protocol(out: &mut Output, version: Option<u32>) -> Result<(), AllocError>
    ensures text { OnOk result (out.new ≡ out.old ++ protocol_fields (protocol_of version)) }
    ensures small { IsSmallVersion (protocol_of version) }
{
    match version {
        None => out.push(b"{\"protocol\":\"RFC3164\""),
        Some(version) => {
            let mut buffer = itoa::Buffer::new();
            let digits = buffer.format(version);
            out.push(b"{\"protocol\":\"RFC5424\",\"version\":")?;
            out.push_slice(digits.as_bytes())
        }
    }
}

/// Returns the name and the number of the facility as members of an object; nothing if there is none.
#[tactic(auto, unfolding(crate::proofs::EscapeLemmas::members_on_literals))]
pub(crate) fn facility_members(facility: Option<SyslogFacility>) -> &'static [u8]
    ensures { result.now ≡ facility_fields facility }
{
    let Some(facility) = facility else {
        return b"";
    };
    match facility {
        SyslogFacility::LOG_KERN => b",\"facility\":\"kern\",\"facility_code\":0",
        SyslogFacility::LOG_USER => b",\"facility\":\"user\",\"facility_code\":1",
        SyslogFacility::LOG_MAIL => b",\"facility\":\"mail\",\"facility_code\":2",
        SyslogFacility::LOG_DAEMON => b",\"facility\":\"daemon\",\"facility_code\":3",
        SyslogFacility::LOG_AUTH => b",\"facility\":\"auth\",\"facility_code\":4",
        SyslogFacility::LOG_SYSLOG => b",\"facility\":\"syslog\",\"facility_code\":5",
        SyslogFacility::LOG_LPR => b",\"facility\":\"lpr\",\"facility_code\":6",
        SyslogFacility::LOG_NEWS => b",\"facility\":\"news\",\"facility_code\":7",
        SyslogFacility::LOG_UUCP => b",\"facility\":\"uucp\",\"facility_code\":8",
        SyslogFacility::LOG_CRON => b",\"facility\":\"cron\",\"facility_code\":9",
        SyslogFacility::LOG_AUTHPRIV => b",\"facility\":\"authpriv\",\"facility_code\":10",
        SyslogFacility::LOG_FTP => b",\"facility\":\"ftp\",\"facility_code\":11",
        SyslogFacility::LOG_NTP => b",\"facility\":\"ntp\",\"facility_code\":12",
        SyslogFacility::LOG_AUDIT => b",\"facility\":\"audit\",\"facility_code\":13",
        SyslogFacility::LOG_ALERT => b",\"facility\":\"alert\",\"facility_code\":14",
        SyslogFacility::LOG_CLOCKD => b",\"facility\":\"clockd\",\"facility_code\":15",
        SyslogFacility::LOG_LOCAL0 => b",\"facility\":\"local0\",\"facility_code\":16",
        SyslogFacility::LOG_LOCAL1 => b",\"facility\":\"local1\",\"facility_code\":17",
        SyslogFacility::LOG_LOCAL2 => b",\"facility\":\"local2\",\"facility_code\":18",
        SyslogFacility::LOG_LOCAL3 => b",\"facility\":\"local3\",\"facility_code\":19",
        SyslogFacility::LOG_LOCAL4 => b",\"facility\":\"local4\",\"facility_code\":20",
        SyslogFacility::LOG_LOCAL5 => b",\"facility\":\"local5\",\"facility_code\":21",
        SyslogFacility::LOG_LOCAL6 => b",\"facility\":\"local6\",\"facility_code\":22",
        SyslogFacility::LOG_LOCAL7 => b",\"facility\":\"local7\",\"facility_code\":23",
    }
}

/// Returns the name and the number of the severity as members of an object; nothing if there is none.
#[tactic(auto, unfolding(crate::proofs::EscapeLemmas::members_on_literals))]
pub(crate) fn severity_members(severity: Option<SyslogSeverity>) -> &'static [u8]
    ensures { result.now ≡ severity_fields severity }
{
    let Some(severity) = severity else {
        return b"";
    };
    match severity {
        SyslogSeverity::SEV_EMERG => b",\"severity\":\"emerg\",\"severity_code\":0",
        SyslogSeverity::SEV_ALERT => b",\"severity\":\"alert\",\"severity_code\":1",
        SyslogSeverity::SEV_CRIT => b",\"severity\":\"crit\",\"severity_code\":2",
        SyslogSeverity::SEV_ERR => b",\"severity\":\"err\",\"severity_code\":3",
        SyslogSeverity::SEV_WARNING => b",\"severity\":\"warning\",\"severity_code\":4",
        SyslogSeverity::SEV_NOTICE => b",\"severity\":\"notice\",\"severity_code\":5",
        SyslogSeverity::SEV_INFO => b",\"severity\":\"info\",\"severity_code\":6",
        SyslogSeverity::SEV_DEBUG => b",\"severity\":\"debug\",\"severity_code\":7",
    }
}

/// Appends the text of a field and the quote after it, or nothing if it is absent. `key` is everything before it: a
/// comma, the key, a colon and a quote.
#[inline(always)]
pub(crate) fn push_field<const N: usize>(
    out: &mut Output,
    key: &[u8; N],
    text: Option<&str>,
) -> Result<(), AllocError>
    requires { N ≤ 64 }
    ensures { OnOk result (out.new ≡ out.old ++ text_field key.now (seen text.entry)) }
{
    match text {
        Some(text) => out.push_text(key, text, b"\""),
        None => Ok(()),
    }
}

/// Appends the timestamp in printed form, if there is one.
#[inline(always)]
pub(crate) fn push_timestamp(
    out: &mut Output,
    timestamp: Option<ClockStamp>,
) -> Result<(), AllocError>
    ensures { OnOk result (out.new
        ≡ out.old ++ field_text (codes "timestamp") (option_map timestamp_json (stamp_seen timestamp))) }
{
    match timestamp {
        Some(stamp) => {
            let text = Ascii::timestamp(stamp);
            out.push_text(b",\"timestamp\":\"", text.as_str(), b"\"")
        }
        None => Ok(()),
    }
}

/// Appends the process id that a text names: a number in decimal, or the text; nothing if it is absent. A word that is
/// printed as it is is written as it is, so that few numbers are computed and printed again.
#[inline(always)]
pub(crate) fn push_process(out: &mut Output, process: Option<&str>) -> Result<(), AllocError>
    ensures { OnOk result (out.new ≡ out.old ++ text_field (codes ",\"procid\":\"")
        (option_map procid_text (option_map named_process (seen process.entry)))) }
{
    match process {
        None => Ok(()),
        Some(word) if is_bare_word(word) => out.push_text(b",\"procid\":\"", word, b"\""),
        Some(word) => push_named(out, word),
    }
}

// Appends the process id that any text names. It is a call of its own.
#[inline(never)]
fn push_named(out: &mut Output, word: &str) -> Result<(), AllocError>
    ensures { OnOk result (out.new ≡ out.old ++ text_field (codes ",\"procid\":\"")
        (Some (procid_text (named_process (chars word.now))))) }
{
    match ProcId::from(word) {
        ProcId::PID(number) => {
            let mut buffer = itoa::Buffer::new();
            let digits = buffer.format(number);
            out.push_text(b",\"procid\":\"", digits, b"\"")
        }
        ProcId::Name(name) => out.push_text(b",\"procid\":\"", name, b"\""),
    }
}
