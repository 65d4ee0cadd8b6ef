//! The cells of a line: what its object has at each key, and nothing if a key is absent.
ghost use Rattle.std.specs.Prelude.{◌≡◌, [], Some, encode_utf8_all};
ghost use Rattle.std.specs.Option.{option_map, unwrap_or};
ghost use Rattle.std.specs.Str.{chars};
ghost use Rattle.syslog_pieces.specs.Front.{ascii_bytes, clock_text};
ghost use Rattle.syslog_text.specs.Pieces.View.{seen, shown};
ghost use Rattle.syslog_pieces.specs.Pri.{facility_name, facility_number, severity_name, severity_number};
ghost use Rattle.syslog_pieces.specs.ProcId.{named_process, procid_text};
ghost use Rattle.syslog_loose.specs.Line.{protocol_of};
ghost use Rattle.syslog_object.specs.Object.{number_json, protocol_text, text_json};
ghost use Rattle.syslog_csv.specs.Rows.{cell_of};

use itoa::Buffer;
use syslog_loose::{ClockStamp, ProcId, SyslogFacility, SyslogSeverity};
use syslog_pieces::front::Ascii;

/// Returns the name of the protocol.
pub(crate) fn protocol_cell(version: Option<u32>) -> &'static [u8]
    ensures { result.now ≡ protocol_text (protocol_of version) }
{
    match version {
        Some(_) => b"RFC5424",
        None => b"RFC3164",
    }
}

/// Returns the version in decimal.
pub(crate) fn version_cell(buffer: &mut Buffer, version: Option<u32>) -> &[u8]
    ensures { result.now ≡ cell_of (option_map number_json version) }
{
    match version {
        Some(number) => buffer.format(number).as_bytes(),
        None => b"",
    }
}

/// Returns a text.
pub(crate) fn text_cell(text: Option<&str>) -> &[u8]
    ensures { result.now ≡ cell_of (option_map text_json (seen text.entry)) }
{
    match text {
        Some(text) => bytes_of(text),
        None => b"",
    }
}

/// Returns the bytes of the text. (What a call is given is known to be UTF-8, and a field is not.)
pub(crate) fn bytes_of(text: &str) -> &[u8]
    ensures { result.now ≡ encode_utf8_all (shown text.entry) }
{
    text.as_bytes()
}

/// Returns the name of the facility.
pub(crate) fn facility_cell(facility: Option<SyslogFacility>) -> &'static [u8]
    ensures { result.now ≡ cell_of (option_map (λ f. text_json (facility_name f)) facility) }
{
    match facility {
        Some(facility) => facility.as_str().as_bytes(),
        None => b"",
    }
}

/// Returns the number of the facility in decimal.
pub(crate) fn facility_code_cell(buffer: &mut Buffer, facility: Option<SyslogFacility>) -> &[u8]
    ensures { result.now ≡ cell_of (option_map (λ f. number_json (facility_number f)) facility) }
{
    match facility {
        Some(facility) => buffer.format(facility_code(facility)).as_bytes(),
        None => b"",
    }
}

fn facility_code(facility: SyslogFacility) -> u32
    ensures { result ≡ facility_number facility }
{
    facility as u32
}

/// Returns the name of the severity.
pub(crate) fn severity_cell(severity: Option<SyslogSeverity>) -> &'static [u8]
    ensures { result.now ≡ cell_of (option_map (λ s. text_json (severity_name s)) severity) }
{
    match severity {
        Some(severity) => severity.as_str().as_bytes(),
        None => b"",
    }
}

/// Returns the number of the severity in decimal.
pub(crate) fn severity_code_cell(buffer: &mut Buffer, severity: Option<SyslogSeverity>) -> &[u8]
    ensures { result.now ≡ cell_of (option_map (λ s. number_json (severity_number s)) severity) }
{
    match severity {
        Some(severity) => buffer.format(severity_code(severity)).as_bytes(),
        None => b"",
    }
}

fn severity_code(severity: SyslogSeverity) -> u32
    ensures { result ≡ severity_number severity }
{
    severity as u32
}

/// Returns the timestamp as it is printed, where there is one.
pub(crate) fn printed_stamp(timestamp: Option<ClockStamp>) -> Option<Ascii>
    ensures { option_map (λ text. ascii_bytes text) result ≡ option_map (λ stamp. clock_text (Some stamp)) timestamp }
{
    match timestamp {
        Some(stamp) => Some(Ascii::timestamp(stamp)),
        None => None,
    }
}

/// Returns a timestamp that was printed.
pub(crate) fn stamp_cell(stamp: &Option<Ascii>) -> &[u8]
    ensures { result.now ≡ unwrap_or (option_map (λ text. ascii_bytes text) stamp.now) [] }
{
    match stamp {
        Some(text) => text.as_str().as_bytes(),
        None => b"",
    }
}

/// Returns the process id that a text names: a number in decimal, or the text.
pub(crate) fn process_cell<'a>(buffer: &'a mut Buffer, process: Option<&'a str>) -> &'a [u8]
    ensures { result.now ≡ cell_of (option_map (λ p. text_json (procid_text p))
        (option_map named_process (seen process.entry))) }
{
    match process {
        Some(word) => named_cell(buffer, word),
        None => b"",
    }
}

// Returns the process id that the text names.
fn named_cell<'a>(buffer: &'a mut Buffer, word: &'a str) -> &'a [u8]
    ensures { result.now ≡ encode_utf8_all (procid_text (named_process (chars word.entry.now))) }
{
    match ProcId::from(word) {
        ProcId::PID(number) => buffer.format(number).as_bytes(),
        ProcId::Name(name) => bytes_of(name),
    }
}
