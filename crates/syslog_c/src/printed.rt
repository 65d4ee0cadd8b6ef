//! The printed text of a line, after one round or as the stable text, in a buffer of the caller's.
ghost use Rattle.std.specs.Str.{encode_utf8_all};
ghost use Rattle.syslog_loose.specs.Line.{line_value};
ghost use Rattle.syslog_loose.specs.Printed.{printed};
ghost use Rattle.syslog_c.specs.Line.{OnLine};
ghost use Rattle.syslog_c.specs.Outcome.{IsCodeOf};
ghost use Rattle.syslog_c.specs.Room.{IsLeft, Puts};
ghost use Rattle.syslog_c.specs.Texts.{Normalised, Settled};

use crate::options::Options;
use crate::outcome::Outcome;
use crate::put_line::put_line;
use crate::read_line::read_line;
use crate::room::{Buffer, put_answer};
use crate::rules::Rules;
use std::alloc::Global;
use syslog_loose::{Line, settle};
use syslog_utf8::from_utf8;

/// Writes the printed text of the line's message to the front of `room`, and its length in bytes to `needed`. If it is
/// longer than `room`, `room` may hold anything. Nothing is allocated.
#[unsafe(no_mangle)]
pub extern "C" fn syslog_normalise(
    line: &[u8],
    options: &Options,
    room: &mut [u8],
    needed: &mut usize,
) -> u32
    ensures { IsCodeOf result (λ outcome. OnLine options.now line.now outcome (IsLeft room.old room.new needed.new)
        (λ rules dating text. Normalised rules.variant dating text room.old room.new needed.new outcome)) }
{
    write_normal(line, options, room, needed) as u32
}

fn write_normal(line: &[u8], options: &Options, room: &mut [u8], needed: &mut usize) -> Outcome
    ensures { OnLine options.now line.now result (IsLeft room.old room.new needed.new) (λ rules dating text.
        Normalised rules.variant dating text room.old room.new needed.new result) }
{
    *needed = 0;
    match read_line(line, options) {
        Ok((_, line)) => print_into(&line, room, needed),
        Err(outcome) => outcome,
    }
}

// Prints the line into `room`.
fn print_into(line: &Line<'_>, room: &mut [u8], needed: &mut usize) -> Outcome
    ensures { Puts (encode_utf8_all (printed (line_value line.now))) room.old room.new needed.new result }
{
    let mut buffer = Buffer::new(room);
    put_line(&mut buffer, line);
    buffer.report_length(needed)
}

/// Writes the stable text of the line, which prints as itself, to the front of `room`, and its length in bytes to
/// `needed`. If it is longer than `room`, `room` may hold anything. This call allocates.
#[unsafe(no_mangle)]
pub extern "C" fn syslog_settle(
    alloc: Global,
    line: &[u8],
    options: &Options,
    room: &mut [u8],
    needed: &mut usize,
) -> u32
    ensures { IsCodeOf result (λ outcome. OnLine options.now line.now outcome (IsLeft room.old room.new needed.new)
        (λ rules dating text. Settled rules.variant dating text room.old room.new needed.new outcome)) }
{
    write_settled(alloc, line, options, room, needed) as u32
}

fn write_settled(
    alloc: Global,
    line: &[u8],
    options: &Options,
    room: &mut [u8],
    needed: &mut usize,
) -> Outcome
    ensures { OnLine options.now line.now result (IsLeft room.old room.new needed.new) (λ rules dating text.
        Settled rules.variant dating text room.old room.new needed.new result) }
{
    *needed = 0;
    let mut rules = Rules::new();
    if !rules.take(options) {
        return Outcome::BadArgument;
    }
    let Ok(text) = from_utf8(line) else {
        return Outcome::NotUtf8;
    };
    let dates = &rules.dates;
    let get_year = |date| dates.year_of(date);
    let settled = settle(alloc, text, get_year, None, rules.variant, &dates.zone);
    put_answer(settled, room, needed)
}
