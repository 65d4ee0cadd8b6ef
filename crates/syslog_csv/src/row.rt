//! The row of a line.
ghost use Rattle.std.specs.Prelude.{◌≡◌, ◌++◌, ◌∷◌, [], IfOk, OnOk, encode_utf8_all};
ghost use Rattle.std.specs.Option.{option_map};
ghost use Rattle.syslog_text.specs.Pieces.Class.{Text};
ghost use Rattle.syslog_text.specs.Pieces.View.{seen};
ghost use Rattle.syslog_pieces.specs.Pri.{facility_name, facility_number, severity_name, severity_number};
ghost use Rattle.syslog_pieces.specs.ProcId.{procid_text};
ghost use Rattle.syslog_elements.specs.StructuredData.Unparsed.{if_any};
ghost use Rattle.syslog_elements.specs.StructuredData.Visited.{list_elements};
ghost use Rattle.syslog_loose.specs.Line.{line_value, protocol_of};
ghost use Rattle.syslog_loose.specs.Unparsed.{IsLeftUnparsed};
ghost use Rattle.syslog_object.specs.Object.{beside_line, message_json, number_json, protocol_text, refused_json};
ghost use Rattle.syslog_object.specs.Object.{text_json, timestamp_json, version_json};
ghost use Rattle.syslog_object.specs.Elements.{IsStructuredText};
ghost use Rattle.syslog_csv.specs.Records.{AddsFields, record_text};
ghost use Rattle.syslog_csv.specs.Rows.{IsRowOf, cell_of, columns};

use crate::cells::{
    bytes_of, facility_cell, facility_code_cell, printed_stamp, process_cell, protocol_cell,
    severity_cell, severity_code_cell, stamp_cell, text_cell, version_cell,
};
use crate::record::{push_field, push_later};
use itoa::Buffer;
use std::alloc::{AllocError, Global};
use syslog_loose::{Line, SyslogFacility, SyslogSeverity};

/// How many bytes a row is given at first.
const ROOM: usize = 512;

/// Returns the header of the table: the names of the columns, and CR LF.
pub fn header() -> &'static [u8]
    ensures { result.now ≡ record_text columns ++ (13 ∷ 10 ∷ []) }
{
    b"protocol,version,dialect,facility,facility_code,severity,severity_code,timestamp,hostname,appname,procid,msgid,\
structured_data,unparsed_structured_data,message,raw,refused,invalid_utf8\r\n"
}

/// Returns the row of a line that was read in this dialect, or in none, and the CR that ends it.
///
/// `elements` is the JSON object of its structured data, and empty if there is none. `raw` is the line as it came, if
/// that is to be in the row. What the message lacks is an empty cell.
pub fn line_row(
    alloc: Global,
    line: &Line<'_>,
    dialect: Option<&str>,
    raw: Option<&str>,
    elements: &[u8],
) -> Result<Vec<u8>, AllocError>
    requires { IsStructuredText (list_elements line.now.list) elements.now }
    ensures { IfOk result (λ row. (unparsed : Text) × IsLeftUnparsed line.now unparsed
        × IsRowOf (message_json (line_value line.now) (beside_line (seen dialect.entry) unparsed (seen raw.entry)))
        row.items) }
{
    let mut row = Vec::with_capacity(alloc, ROOM)?;
    push_kind(&mut row, line.version, dialect)?;
    push_priority(&mut row, line.facility(), line.severity())?;
    push_names(&mut row, line)?;
    push_texts(&mut row, line, raw, elements)?;
    row.push(b'\r')?;
    Ok(row)
}

// Appends the first cells: the protocol, its version and the dialect.
fn push_kind(
    row: &mut Vec<u8>,
    version: Option<u32>,
    dialect: Option<&str>,
) -> Result<(), AllocError>
    ensures { OnOk result (row.new.items ≡ row.old.items ++ record_text (protocol_text (protocol_of version)
        ∷ cell_of (version_json (protocol_of version)) ∷ cell_of (option_map text_json (seen dialect.entry)) ∷ [])) }
{
    let mut buffer = Buffer::new();
    push_field(row, protocol_cell(version))?;
    push_later(row, version_cell(&mut buffer, version))?;
    push_later(row, text_cell(dialect))?;
    Ok(())
}

// Appends the facility and the severity.
fn push_priority(
    row: &mut Vec<u8>,
    facility: Option<SyslogFacility>,
    severity: Option<SyslogSeverity>,
) -> Result<(), AllocError>
    ensures { OnOk result (AddsFields row.old.items row.new.items
        (cell_of (option_map (λ f. text_json (facility_name f)) facility)
        ∷ cell_of (option_map (λ f. number_json (facility_number f)) facility)
        ∷ cell_of (option_map (λ s. text_json (severity_name s)) severity)
        ∷ cell_of (option_map (λ s. number_json (severity_number s)) severity) ∷ [])) }
{
    let mut first = Buffer::new();
    let mut second = Buffer::new();
    push_later(row, facility_cell(facility))?;
    push_later(row, facility_code_cell(&mut first, facility))?;
    push_later(row, severity_cell(severity))?;
    push_later(row, severity_code_cell(&mut second, severity))?;
    Ok(())
}

// Appends the timestamp and the names.
fn push_names(row: &mut Vec<u8>, line: &Line<'_>) -> Result<(), AllocError>
    ensures { OnOk result (AddsFields row.old.items row.new.items
        (cell_of (option_map timestamp_json (line_value line.now).timestamp)
        ∷ cell_of (option_map text_json (line_value line.now).hostname)
        ∷ cell_of (option_map text_json (line_value line.now).appname)
        ∷ cell_of (option_map (λ p. text_json (procid_text p)) (line_value line.now).procid)
        ∷ cell_of (option_map text_json (line_value line.now).msgid) ∷ [])) }
{
    let stamp = printed_stamp(line.timestamp);
    let mut buffer = Buffer::new();
    push_later(row, stamp_cell(&stamp))?;
    push_later(row, text_cell(line.hostname))?;
    push_later(row, text_cell(line.appname))?;
    push_later(row, process_cell(&mut buffer, line.process))?;
    push_later(row, text_cell(line.msgid))?;
    Ok(())
}

// Appends the structured data, what was left unparsed of it, the message, the line as it came, and two empty cells.
fn push_texts(
    row: &mut Vec<u8>,
    line: &Line<'_>,
    raw: Option<&str>,
    elements: &[u8],
) -> Result<(), AllocError>
    ensures { OnOk result ((unparsed : Text) × IsLeftUnparsed line.now unparsed
        × AddsFields row.old.items row.new.items (elements.now ∷ cell_of (option_map text_json (if_any unparsed))
        ∷ encode_utf8_all (line_value line.now).msg ∷ cell_of (option_map text_json (seen raw.entry)) ∷ [] ∷ [] ∷ [])) }
{
    push_later(row, elements)?;
    push_later(row, text_cell(line.list.unparsed()))?;
    push_later(row, bytes_of(line.msg))?;
    push_later(row, text_cell(raw))?;
    push_later(row, b"")?;
    push_later(row, b"")?;
    Ok(())
}

/// Returns the row of a line that is no message, and the CR that ends it.
pub fn refused_row(alloc: Global, line: &str) -> Result<Vec<u8>, AllocError>
    ensures { IfOk result (λ row. IsRowOf (refused_json line.now) row.items) }
{
    let mut row = Vec::with_capacity(alloc, ROOM)?;
    row.extend_from_slice(b",,,,,,,,,,,,,,")?;
    push_field(&mut row, line.as_bytes())?;
    row.extend_from_slice(b",,true,\r")?;
    Ok(row)
}
