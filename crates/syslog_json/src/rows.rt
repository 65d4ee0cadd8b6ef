//! The rows of CSV. They are written by calls of their own, so that a line of JSON pays for one test alone.
ghost use Rattle.std.specs.Prelude.{◌≡◌, ◌++◌, List, ℕ, OnErr, OnOk};
ghost use Rattle.std.specs.Str.{chars};
ghost use Rattle.syslog_text.specs.Pieces.View.{seen};
ghost use Rattle.syslog_elements.specs.StructuredData.Visited.{list_elements};
ghost use Rattle.syslog_object.specs.Object.{refused_json};
ghost use Rattle.syslog_object.specs.Writer.{HasWritten};
ghost use Rattle.syslog_csv.specs.Rows.{IsRowOf};
ghost use Rattle.syslog_json.specs.Objects.{IsMessageRow, head_text, raw_text};

use crate::objects::Objects;
use std::alloc::{AllocError, Global};
use std::mem;
use syslog_csv::{header, line_row, refused_row};
use syslog_dialects::SentLine;
use syslog_object::ObjectWriter;

impl Objects<'_> {
    /// Returns what is written before the first line: the header of the rows, or nothing.
    pub(crate) fn head(&self) -> &'static [u8]
        ensures { result.now ≡ head_text self.now.csv }
    {
        if self.csv { header() } else { b"" }
    }

    /// Adds the row of a message whose elements the writer was given, and the CR that ends it, or nothing if an
    /// allocation fails. (A writer that is passed by value is cleared for each line of JSON too.)
    #[inline(never)]
    pub(crate) fn write_row(
        &self,
        alloc: Global,
        line: &str,
        found: &SentLine<'_>,
        writer: &mut ObjectWriter<'_>,
        output: &mut Vec<u8>,
    ) -> Result<(), AllocError>
        requires { HasWritten writer.old (list_elements found.now.line.list) }
        ensures ok { OnOk result ((bytes : List ℕ) × IsMessageRow self.now line.now found.now bytes
            × (output.new.items ≡ output.old.items ++ bytes)) }
        ensures err { OnErr result (output.new.items ≡ output.old.items) }
    {
        let given = mem::replace(writer, ObjectWriter::new(alloc, Vec::new(alloc)));
        let elements = given.into_elements(&found.line.list)?;
        let row = line_row(
            alloc,
            &found.line,
            found.dialect_name(),
            self.raw_line(line),
            elements.as_slice(),
        )?;
        output.extend_from_slice(row.as_slice())?;
        *writer = ObjectWriter::new(alloc, elements);
        Ok(())
    }

    // Returns the line as it came, if it is asked for.
    fn raw_line<'a>(&self, line: &'a str) -> Option<&'a str>
        ensures { seen result ≡ raw_text self.now.raw (chars line.entry.now) }
    {
        self.raw.then_some(line)
    }
}

/// Adds the row of a line that is no message, and the CR that ends it, or nothing if an allocation fails.
#[inline(never)]
pub(crate) fn write_refused_row(
    alloc: Global,
    line: &str,
    output: &mut Vec<u8>,
) -> Result<(), AllocError>
    ensures ok { OnOk result ((bytes : List ℕ) × IsRowOf (refused_json line.now) bytes
        × (output.new.items ≡ output.old.items ++ bytes)) }
    ensures err { OnErr result (output.new.items ≡ output.old.items) }
{
    let row = refused_row(alloc, line)?;
    output.extend_from_slice(row.as_slice())
}
