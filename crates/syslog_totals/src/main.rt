//! Reads each line of standard input as one message and prints totals of what it read: a program for measurement.
//!
//! It counts lines, those that are read, bytes of hosts, app names, message ids and messages, elements and parameters,
//! and adds up process ids, versions and seconds of timestamps. Dates without a year are in 2019, and the zones are
//! UTC.
#![tactic(auto)]

use jiff::tz::TimeZone;
use memchr::{memchr, memrchr};
use std::alloc::Global;
use std::io;
use std::io::{Read, Write};
use std::process::ExitCode;
use syslog_loose::{
    IncompleteDate, Message, ParseFault, ProcId, Protocol, Variant,
    parse_message_with_year_exact_tz,
};
use syslog_utf8::from_utf8;

#[derive(Clone, Copy)]
struct Totals {
    lines: u64,
    read: u64,
    bytes: u64,
    elements: u64,
    parameters: u64,
    numbers: u64,
}

impl Totals {
    const NONE: Totals = Totals {
        lines: 0,
        read: 0,
        bytes: 0,
        elements: 0,
        parameters: 0,
        numbers: 0,
    };

    fn add_text(&mut self, text: &str) {
        self.bytes = self.bytes.wrapping_add(text.len() as u64);
    }

    fn add_name(&mut self, name: Option<&str>) {
        if let Some(name) = name {
            self.add_text(name);
        }
    }

    // Adds a number, which may be negative.
    fn add_number(&mut self, number: i64) {
        let size = number.unsigned_abs();
        self.numbers = if number < 0 {
            self.numbers.wrapping_sub(size)
        } else {
            self.numbers.wrapping_add(size)
        };
    }

    fn add(&mut self, message: &Message<&str>) {
        self.read = self.read.wrapping_add(1);
        self.add_name(message.hostname);
        self.add_name(message.appname);
        self.add_name(message.msgid);
        self.add_text(message.msg);
        if let Protocol::RFC5424(version) = message.protocol {
            self.add_number(i64::from(version));
        }
        if let Some(ProcId::PID(number)) = &message.procid {
            self.add_number(i64::from(*number));
        }
        if let Some(timestamp) = message.timestamp {
            self.add_number(timestamp.instant.as_second());
        }
        for element in &message.structured_data {
            self.elements = self.elements.wrapping_add(1);
            self.parameters = self.parameters.wrapping_add(element.params.len() as u64);
        }
    }
}

// Returns the line at the front, and the text after its line feed. A text without a line feed is a line too.
#[inline(always)]
fn first_line(text: &str) -> Option<(&str, &str)> {
    match memchr(b'\n', text.as_bytes()) {
        Some(end) => {
            let (line, after) = text.split_at_checked(end)?;
            Some((line, after.split_at_checked(1)?.1))
        }
        None => Some((text, "")),
    }
}

// Adds up the lines of a text.
fn add_lines(alloc: Global, text: &str, totals: &mut Totals) -> io::Result<()> {
    let utc = TimeZone::UTC;
    let mut rest = text;
    for _ in 0..text.len() {
        if rest.is_empty() {
            break;
        }
        let Some((line, after)) = first_line(rest) else {
            return Err(io::Error::from(io::ErrorKind::InvalidData));
        };
        rest = after;
        totals.lines = totals.lines.wrapping_add(1);
        let year = |_: IncompleteDate| -> i32 { 2019 };
        match parse_message_with_year_exact_tz(alloc, line, year, None, Variant::Either, &utc) {
            Ok(message) => totals.add(&message),
            Err(ParseFault::Invalid) => {}
            Err(ParseFault::Memory) => return Err(io::Error::from(io::ErrorKind::OutOfMemory)),
        }
    }
    Ok(())
}

// Adds up the lines of bytes, which have to be UTF-8.
fn add_bytes(alloc: Global, bytes: &[u8], totals: &mut Totals) -> io::Result<()> {
    match from_utf8(bytes) {
        Ok(text) => add_lines(alloc, text, totals),
        Err(_) => Err(io::Error::from(io::ErrorKind::InvalidData)),
    }
}

// How many bytes are read at a time. Each line has to be shorter.
const BLOCK: usize = 1 << 16;

// Adds up the complete lines at the front of the block, and returns how many bytes of the next line follow them:
// these are moved to the front.
fn add_complete(
    alloc: Global,
    block: &mut [u8],
    held: usize,
    totals: &mut Totals,
) -> io::Result<usize> {
    let Some((front, _)) = block.split_at_checked(held) else {
        return Err(io::Error::from(io::ErrorKind::InvalidData));
    };
    let Some(feed) = memrchr(b'\n', front) else {
        return Ok(held);
    };
    let Some((complete, _)) = front.split_at_checked(feed + 1) else {
        return Ok(held);
    };
    add_bytes(alloc, complete, totals)?;
    let past = feed + 1;
    block.copy_within(past..held, 0);
    Ok(held - past)
}

fn added_up<R: Read>(alloc: Global, input: &mut R) -> io::Result<Totals> {
    let mut totals = Totals::NONE;
    let mut block = vec![in alloc; 0u8; BLOCK]?;
    let mut held: usize = 0;
    for _ in 0..u64::MAX {
        let Some((_, free)) = block.split_at_mut_checked(held) else {
            return Err(io::Error::from(io::ErrorKind::InvalidData));
        };
        let count = input.read(free)?;
        if count == 0 {
            break;
        }
        held = add_complete(alloc, &mut block, held.saturating_add(count), &mut totals)?;
    }
    match block.split_at_checked(held) {
        Some((rest, _)) => add_bytes(alloc, rest, &mut totals)?,
        None => {}
    }
    Ok(totals)
}

fn print_totals(rt: &HostRuntime) -> io::Result<()> {
    let totals = added_up(rt.alloc(), &mut rt.stdin())?;
    let (lines, read, bytes) = (totals.lines, totals.read, totals.bytes);
    let (elements, parameters, numbers) = (totals.elements, totals.parameters, totals.numbers);
    let mut out = rt.stdout();
    writeln!(
        out,
        "{lines} lines, {read} read, {bytes} bytes of texts, {elements} elements, {parameters} parameters, \
         numbers {numbers}"
    )
}

fn main(rt: HostRuntime) -> ExitCode {
    match print_totals(&rt) {
        Ok(()) => ExitCode::SUCCESS,
        Err(_) => ExitCode::FAILURE,
    }
}
