//! The object of a line.
ghost use Rattle.std.specs.Prelude.{◌≡◌, ◌++◌, IfOk, OnOk, codes};
ghost use Rattle.syslog_text.specs.Pieces.View.{seen};
ghost use Rattle.syslog_loose.specs.Line.{line_value};
ghost use Rattle.syslog_elements.specs.StructuredData.Visited.{list_elements};
ghost use Rattle.syslog_text.specs.Pieces.Class.{Text};
ghost use Rattle.syslog_loose.specs.Unparsed.{IsLeftUnparsed};
ghost use Rattle.syslog_object.specs.Object.{beside_line, message_json, structured_json};
ghost use Rattle.syslog_object.specs.Parts.{IsSmallVersion, back_fields, compact_text};
ghost use Rattle.syslog_object.specs.Parts.{field_text, front_text, rest_text};
ghost use Rattle.syslog_object.specs.Written.{IsTextOf};

use crate::element::push_elements;
use crate::field::{
    facility_members, push_field, push_process, push_protocol, push_timestamp, severity_members,
};
use crate::output::Output;
use std::alloc::{AllocError, Global};
use syslog_loose::{ElementList, Line};

/// Appends the opening brace and the fields before the elements. The line was read in this dialect, or in none.
#[inline(always)]
pub(crate) fn push_front(
    out: &mut Output,
    line: &Line<'_>,
    dialect: Option<&str>,
) -> Result<(), AllocError>
    ensures text { OnOk result (out.new ≡ out.old ++ front_text (line_value line.now) (seen dialect.entry)) }
    ensures small { IsSmallVersion (line_value line.now).protocol }
{
    push_protocol(out, line.version)?;
    push_field(out, b",\"dialect\":\"", dialect)?;
    out.push_slice(facility_members(line.facility()))?;
    out.push_slice(severity_members(line.severity()))?;
    push_timestamp(out, line.timestamp)?;
    push_field(out, b",\"hostname\":\"", line.hostname)?;
    push_field(out, b",\"appname\":\"", line.appname)?;
    push_process(out, line.process)?;
    push_field(out, b",\"msgid\":\"", line.msgid)
}

/// Appends the fields after the elements, and the closing brace. `unparsed` is what was left unparsed of the structured
/// data.
#[inline(always)]
pub(crate) fn push_back(
    out: &mut Output,
    line: &Line<'_>,
    unparsed: Option<&str>,
    raw: Option<&str>,
) -> Result<(), AllocError>
    ensures { OnOk result (out.new
        ≡ out.old ++ rest_text (back_fields (line_value line.now) (seen unparsed.entry) (seen raw.entry))) }
{
    push_field(out, b",\"unparsed_structured_data\":\"", unparsed)?;
    push_field(out, b",\"message\":\"", Some(line.msg))?;
    push_field(out, b",\"raw\":\"", raw)?;
    out.push(b"}")
}
