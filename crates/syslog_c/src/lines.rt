//! Reads the lines of a block, a row for each.
ghost use Rattle.syslog_c.specs.Outcome.{IsCodeOf};
ghost use Rattle.syslog_c.specs.Rows.{IsRow, ReadsLines};

use crate::convert::blank_fields;
use crate::fields::{Row, Text};
use crate::options::Options;
use crate::outcome::Outcome;
use crate::read::read_fields;
use crate::rules::Rules;
use syslog_lines::first_line;

/// Reads the lines of the buffer into rows, one for each line, in order, and sets `read` to the number of rows written.
///
/// A line is what is between line feeds, and an empty last one is no line. If there are more lines than rows, each row
/// has one of the first lines. Nothing is allocated.
#[unsafe(no_mangle)]
pub extern "C" fn syslog_read_lines<'a>(
    buffer: &'a [u8],
    options: &Options,
    rows: &mut [Row<'a>],
    read: &mut usize,
) -> u32
    ensures { IsCodeOf result (λ outcome. ReadsLines options.now buffer.now rows.old rows.new read.new outcome) }
{
    read_rows(buffer, options, rows, read) as u32
}

fn read_rows<'a>(
    buffer: &'a [u8],
    options: &Options,
    rows: &mut [Row<'a>],
    read: &mut usize,
) -> Outcome
    ensures { ReadsLines options.now buffer.now rows.old rows.new read.new result }
{
    *read = 0;
    let mut rules = Rules::new();
    if !rules.take(options) {
        return Outcome::BadArgument;
    }
    let mut rest = buffer;
    let mut count = 0;
    while count < rows.len() && !rest.is_empty() {
        let (line, after) = first_line(rest);
        rows[count] = row_of(line, options);
        count += 1;
        rest = after;
    }
    *read = count;
    if rest.is_empty() {
        Outcome::Done
    } else {
        Outcome::NoRoom
    }
}

// Returns the row of a line.
fn row_of<'a>(line: &'a [u8], options: &Options) -> Row<'a>
    ensures { IsRow options.now result line.entry.now }
{
    let mut fields = blank_fields();
    let outcome = read_fields(line, options, &mut fields) as u32;
    Row {
        line: Text {
            bytes: line,
            present: 1,
        },
        outcome,
        fields,
    }
}
