//! A line as strict RFC 5424, in a buffer of the caller's.
ghost use Rattle.syslog_c.specs.Outcome.{IsCodeOf};
ghost use Rattle.syslog_c.specs.Strict.{PutsStrict};

use crate::options::Options;
use crate::outcome::Outcome;
use crate::room::{outcome_of, put};
use crate::rules::Rules;
use std::alloc::Global;
use syslog_strict_sent::to_rfc5424_sent;
use syslog_utf8::from_utf8;

/// Writes the line as strict RFC 5424 to the front of `room`, and its length in bytes to `needed`: a line that is in
/// the RFC's grammar as it is, and otherwise the message as which its sender meant it, converted. This call allocates.
#[unsafe(no_mangle)]
pub extern "C" fn syslog_to_rfc5424(
    alloc: Global,
    line: &[u8],
    options: &Options,
    room: &mut [u8],
    needed: &mut usize,
) -> u32
    ensures { IsCodeOf result (λ outcome. PutsStrict options.now line.now room.old room.new needed.new outcome) }
{
    write_strict(alloc, line, options, room, needed) as u32
}

fn write_strict(
    alloc: Global,
    line: &[u8],
    options: &Options,
    room: &mut [u8],
    needed: &mut usize,
) -> Outcome
    ensures { PutsStrict options.now line.now room.old room.new needed.new result }
{
    *needed = 0;
    let mut rules = Rules::new();
    if !rules.take(options) {
        return Outcome::BadArgument;
    }
    let Ok(input) = from_utf8(line) else {
        return Outcome::NotUtf8;
    };
    let mut text = String::new(alloc);
    match to_rfc5424_sent(
        alloc,
        &mut text,
        input,
        &rules.dates,
        rules.variant,
        rules.dialects,
    ) {
        Ok(()) => put(text.as_bytes(), room, needed),
        Err(fault) => outcome_of(fault),
    }
}
