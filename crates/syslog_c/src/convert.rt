//! Converts the fields of a line to the structs of a caller in C.
ghost use Rattle.std.specs.Prelude.{◌≡◌, MatchBool, None};
ghost use Rattle.std.specs.Option.{option_map};
ghost use Rattle.syslog_text.specs.Pieces.View.{seen, shown};
ghost use Rattle.syslog_pieces.specs.ProcId.{procid_value};
ghost use Rattle.syslog_pieces.specs.Timestamp.{stamp_seen};
ghost use Rattle.syslog_loose.specs.Line.{KnowsForm};
ghost use Rattle.syslog_dialects.specs.Ordinary.{IsOrdinary};
ghost use Rattle.syslog_c.specs.Fields.{IsOptionalText, IsProcess, IsStamp, IsText};
ghost use Rattle.syslog_c.specs.OfLine.{AreOfLine};
ghost use Rattle.syslog_c.specs.Rows.{AreBlank};
ghost use Rattle.syslog_c.specs.Fields.{facility_code, protocol_number, severity_code, version_number};
ghost use Rattle.syslog_c.specs.Sent as spec;

use crate::fields::{Fields, Process, Stamp, Text};
use syslog_dialects::{Dialect, is_ordinary};
use syslog_loose::{
    ClockStamp, Line, LineVisitor, ProcId, Protocol, SyslogFacility, SyslogSeverity,
};

const NONE: &[u8] = &[];

/// Converts a text to C.
pub(crate) fn text_of(text: &str) -> Text<'_>
    ensures { IsText result (shown text.entry) }
{
    Text {
        bytes: text.as_bytes(),
        present: 1,
    }
}

/// Converts a text that may be absent to C.
pub(crate) fn optional_text(text: Option<&str>) -> Text<'_>
    ensures { IsOptionalText result (seen text.entry) }
{
    match text {
        Some(text) => text_of(text),
        None => Text {
            bytes: NONE,
            present: 0,
        },
    }
}

fn process_of<'a>(process: &Option<ProcId<&'a str>>) -> Process<'a>
    ensures { IsProcess result (option_map (procid_value (λ s. shown s)) process.now) }
{
    match process {
        None => Process {
            name: optional_text(None),
            number: 0,
            is_number: 0,
        },
        Some(ProcId::PID(number)) => Process {
            name: optional_text(None),
            number: *number,
            is_number: 1,
        },
        Some(ProcId::Name(name)) => Process {
            name: text_of(*name),
            number: 0,
            is_number: 0,
        },
    }
}

// Converts a timestamp to C, without what the line shows of it.
fn stamp_of(stamp: Option<ClockStamp>) -> Stamp
    ensures { IsStamp result (stamp_seen stamp) }
{
    match stamp {
        Some(stamp) => {
            let offset = stamp.offset;
            let (seconds, nanoseconds) = stamp.unix_time();
            Stamp {
                seconds,
                nanoseconds: nanoseconds as i32,
                offset: offset.seconds(),
                present: 1,
                shows_year: 0,
                shows_offset: 0,
            }
        }
        None => Stamp {
            seconds: 0,
            nanoseconds: 0,
            offset: 0,
            present: 0,
            shows_year: 0,
            shows_offset: 0,
        },
    }
}

fn facility_of(facility: Option<SyslogFacility>) -> i32
    ensures { result ≡ facility_code facility }
{
    match facility {
        Some(facility) => facility as i32,
        None => -1,
    }
}

fn severity_of(severity: Option<SyslogSeverity>) -> i32
    ensures { result ≡ severity_code severity }
{
    match severity {
        Some(severity) => severity as i32,
        None => -1,
    }
}

// Returns the number of the protocol, and the version of RFC 5424 or 0.
fn protocol_of(protocol: Protocol) -> (u32, u32)
    ensures { (result.0 ≡ protocol_number protocol) × (result.1 ≡ version_number protocol) }
{
    match protocol {
        Protocol::RFC3164 => (3164, 0),
        Protocol::RFC5424(version) => (5424, version),
    }
}

// The number of the dialect, or 0.
#[inline(always)]
fn dialect_code(dialect: Option<Dialect>) -> u32
    ensures { result ≡ spec.dialect_code dialect }
{
    match dialect {
        Some(dialect) => dialect.number(),
        None => 0,
    }
}

/// Converts the fields of the line, which was read in this dialect or in none, to C.
#[inline(always)]
pub(crate) fn fields_of<'a>(line: &Line<'a>, dialect: Option<Dialect>) -> Fields<'a>
    ensures { AreOfLine result dialect line.now }
{
    let (protocol, version) = protocol_of(line.protocol());
    Fields {
        protocol,
        version,
        facility: facility_of(line.facility()),
        severity: severity_of(line.severity()),
        timestamp: stamp_of(line.timestamp),
        host: optional_text(line.hostname),
        app: optional_text(line.appname),
        process: process_of(&line.process()),
        msgid: optional_text(line.msgid),
        msg: text_of(line.msg),
        elements: line.list.len(),
        params: line.list.params_len(),
        dialect: dialect_code(dialect),
        unparsed: optional_text(line.list.unparsed()),
    }
}

/// Returns fields that say nothing: no number, and no text.
pub(crate) fn blank_fields<'a>() -> Fields<'a>
    ensures { AreBlank result }
{
    Fields {
        protocol: 0,
        version: 0,
        facility: facility_of(None),
        severity: severity_of(None),
        timestamp: stamp_of(None),
        host: optional_text(None),
        app: optional_text(None),
        process: process_of(&None),
        msgid: optional_text(None),
        msg: optional_text(None),
        elements: 0,
        params: 0,
        dialect: 0,
        unparsed: optional_text(None),
    }
}

// Takes the fields of the port's line, and returns whether that line keeps its reading, even if dialects are asked for.
impl<'a> LineVisitor<'a> for Fields<'a> {
    type Answer = bool;

    ghost makes = { λ old line made new. AreOfLine new None line
        × MatchBool made (IsOrdinary line) (IsOrdinary line → ⊥) };

    #[inline(always)]
    fn line(&mut self, line: &Line<'a>) -> bool
        requires form { KnowsForm line.now }
        ensures { AreOfLine self.new None line.now
            × MatchBool result (IsOrdinary line.now) (IsOrdinary line.now → ⊥) }
    {
        let is_ordinary = is_ordinary(line);
        *self = fields_of(line, None);
        is_ordinary
    }
}
