//! The JSON object of a line, in a buffer of the caller's.
ghost use Rattle.std.specs.Prelude.{◌≡◌};
ghost use Rattle.syslog_text.specs.Pieces.View.{seen};
ghost use Rattle.syslog_loose.specs.Line.{line_value};
ghost use Rattle.syslog_loose.specs.Unparsed.{IsLeftUnparsed};
ghost use Rattle.syslog_c.specs.Line.{OnLine};
ghost use Rattle.syslog_c.specs.Outcome.{IsCodeOf};
ghost use Rattle.syslog_c.specs.Room.{IsLeft};
ghost use Rattle.syslog_c.specs.Texts.{PutsObject, WritesObject};

use crate::options::Options;
use crate::outcome::Outcome;
use crate::read_line::read_sent_line;
use crate::room::put;
use std::alloc::Global;
use syslog_dialects::SentLine;
use syslog_object::line_object;

// What the keys, the braces and the quotes of an object take, beside the texts of the line.
const MORE: usize = 256;

/// Writes the JSON object of the line's message to the front of `room`, and its length in bytes to `needed`. If `raw`
/// is not 0, the line as it came is the last member. If the object is longer than `room`, `room` may hold anything.
/// This call allocates.
#[unsafe(no_mangle)]
pub extern "C" fn syslog_json(
    alloc: Global,
    line: &[u8],
    options: &Options,
    raw: u32,
    room: &mut [u8],
    needed: &mut usize,
) -> u32
    ensures { IsCodeOf result (λ outcome. OnLine options.now line.now outcome (IsLeft room.old room.new needed.new)
        (λ rules dating text. WritesObject raw rules dating text room.old room.new needed.new outcome)) }
{
    write_object(alloc, line, options, raw, room, needed) as u32
}

fn write_object(
    alloc: Global,
    line: &[u8],
    options: &Options,
    raw: u32,
    room: &mut [u8],
    needed: &mut usize,
) -> Outcome
    ensures { OnLine options.now line.now result (IsLeft room.old room.new needed.new)
        (λ rules dating text. WritesObject raw rules dating text room.old room.new needed.new result) }
{
    *needed = 0;
    match read_sent_line(line, options) {
        Ok((text, sent)) => { put_object(alloc, &sent, (raw != 0).then_some(text), room, needed) }
        Err(outcome) => outcome,
    }
}

// Puts the object of the line into `room`.
fn put_object(
    alloc: Global,
    sent: &SentLine<'_>,
    raw: Option<&str>,
    room: &mut [u8],
    needed: &mut usize,
) -> Outcome
    requires { needed.old ≡ 0 }
    ensures { PutsObject sent.now.dialect (line_value sent.now.line) (IsLeftUnparsed sent.now.line) (seen raw.entry)
        room.old room.new needed.new result }
{
    let line = &sent.line;
    let Ok(memory) = Vec::with_capacity(alloc, line.rest.len().saturating_add(MORE)) else {
        return Outcome::NoMemory;
    };
    match line_object(alloc, memory, line, sent.dialect_name(), raw) {
        Ok(object) => put(object.as_slice(), room, needed),
        Err(_) => Outcome::NoMemory,
    }
}
