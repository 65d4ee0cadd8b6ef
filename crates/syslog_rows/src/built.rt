//! A message that a block builds: whether it is canonical, what it prints as, and what that is read as.
use crate::bad_row;
use crate::block::{Block, parts};
use crate::calls::{Row, or_none};
use crate::setting::Setting;
use crate::sheet::Sheet;
use std::alloc::Global;
use std::io;
use std::io::Write;
use syslog_loose::{
    Message, Offset, OffsetTimestamp, ProcId, Protocol, StructuredElement, SyslogFacility,
    SyslogSeverity, Timestamp, decompose_pri,
};

// The words and the values of the lines, as texts.
fn values_of(alloc: Global, block: &Block<'_>) -> io::Result<Vec<(String, String)>> {
    let mut values = Vec::new(alloc);
    for line in block.text.lines() {
        let (word, value) = parts(line);
        let value = block.text_of(alloc, value)?;
        values.push((String::from_str(alloc, word)?, value))?;
    }
    Ok(values)
}

fn value<'a>(values: &'a [(String, String)], word: &str) -> Option<&'a str> {
    for (this, value) in values {
        if this.as_str() == word {
            return Some(value.as_str());
        }
    }
    None
}

fn protocol_of(value: &str) -> io::Result<Protocol> {
    match value.strip_prefix("RFC 5424, version ") {
        Some(version) => Ok(Protocol::RFC5424(version.parse().map_err(|_| bad_row())?)),
        None => Ok(Protocol::RFC3164),
    }
}

// The parts of the priority that has this name.
fn named(name: Option<&str>) -> (Option<SyslogFacility>, Option<SyslogSeverity>) {
    for number in 0..=191u8 {
        let (facility, severity) = decompose_pri(number);
        let is_facility = facility.map(|it| it.as_str()) == name;
        let is_severity = severity.map(|it| it.as_str()) == name;
        if is_facility || is_severity {
            return (facility, severity);
        }
    }
    (None, None)
}

// Seconds since 1970 began at UTC, and the offset in seconds.
fn stamp_of(value: &str) -> io::Result<OffsetTimestamp> {
    let (second, offset) = value.split_once(" at ").ok_or(bad_row())?;
    let second = second.parse().map_err(|_| bad_row())?;
    let offset = offset.parse().map_err(|_| bad_row())?;
    match (Timestamp::from_second(second), Offset::from_seconds(offset)) {
        (Ok(instant), Ok(offset)) => Ok(OffsetTimestamp { instant, offset }),
        _ => Err(bad_row()),
    }
}

fn process_of<'a>(values: &'a [(String, String)]) -> io::Result<Option<ProcId<&'a str>>> {
    if let Some(number) = value(values, "pid") {
        return Ok(Some(ProcId::PID(number.parse().map_err(|_| bad_row())?)));
    }
    Ok(value(values, "process name").map(|name| ProcId::Name(name)))
}

// The name and the value of a parameter, as `name="value"` has them.
fn param_of(param: &str) -> io::Result<(&str, &str)> {
    let (name, value) = param.split_once("=\"").ok_or(bad_row())?;
    Ok((name, value.strip_suffix('"').ok_or(bad_row())?))
}

fn elements_of<'a>(
    alloc: Global,
    values: &'a [(String, String)],
) -> io::Result<Vec<StructuredElement<&'a str>>> {
    let mut elements: Vec<StructuredElement<&'a str>> = Vec::new(alloc);
    for (word, value) in values {
        match word.as_str() {
            "element" => {
                let params = Vec::new(alloc);
                elements.push(StructuredElement {
                    id: value.as_str(),
                    params,
                })?;
            }
            "param" => {
                let element = elements.last_mut().ok_or(bad_row())?;
                element.params.push(param_of(value.as_str())?)?;
            }
            _ => (),
        }
    }
    Ok(elements)
}

fn message_of<'a>(
    alloc: Global,
    protocol: Protocol,
    values: &'a [(String, String)],
) -> io::Result<Message<&'a str>> {
    let timestamp = match value(values, "timestamp") {
        Some(stamp) => Some(stamp_of(stamp)?),
        None => None,
    };
    Ok(Message {
        protocol,
        facility: named(value(values, "facility")).0,
        severity: named(value(values, "severity")).1,
        timestamp,
        hostname: value(values, "host"),
        appname: value(values, "app"),
        procid: process_of(values)?,
        msgid: value(values, "id"),
        structured_data: elements_of(alloc, values)?,
        msg: value(values, "msg").unwrap_or(""),
    })
}

// Whether the printed text is read as the message.
fn is_read_back(alloc: Global, row: Row<'_>, message: &Message<&str>) -> io::Result<bool> {
    match or_none(row.exact(alloc, row.setting.variant))? {
        Some(again) => Ok(again == *message && again.protocol == message.protocol),
        None => Ok(false),
    }
}

fn yes_or_no(holds: bool) -> &'static str {
    if holds { "yes" } else { "no" }
}

impl<W: Write> Sheet<'_, '_, W> {
    fn write_own(&mut self, message: &Message<&str>, setting: &Setting) -> io::Result<()> {
        let printed = message.to_string(self.alloc)?;
        let text = printed.as_str();
        let row = Row { text, setting };
        let canonical = yes_or_no(message.is_canonical());
        let same = yes_or_no(is_read_back(self.alloc, row, message)?);
        writeln!(self.out, "built: canonical {canonical}")?;
        writeln!(self.out, "read back: {same}")?;
        self.line("text", Some(text))?;
        self.write_row(row)
    }

    /// Writes whether the message of the block is canonical and is read back, its printed text, and what that is read
    /// as.
    pub fn write_built(&mut self, block: &Block<'_>, setting: &Setting) -> io::Result<()> {
        let values = values_of(self.alloc, block)?;
        let protocol = protocol_of(block.line("protocol").unwrap_or(""))?;
        let message = message_of(self.alloc, protocol, values.as_slice())?;
        self.write_own(&message, setting)
    }
}
