//! The fields of a message, a line each. What is absent has no line.
use crate::sheet::Sheet;
use std::alloc::Global;
use std::io;
use std::io::Write;
use syslog_loose::{Message, ProcId, Protocol};

impl<W: Write> Sheet<'_, '_, W> {
    fn write_head(&mut self, message: &Message<&str>) -> io::Result<()> {
        match message.protocol {
            Protocol::RFC3164 => writeln!(self.out, "protocol: RFC 3164")?,
            Protocol::RFC5424(version) => {
                writeln!(self.out, "protocol: RFC 5424, version {version}")?
            }
        }
        self.line("facility", message.facility.map(|it| it.as_str()))?;
        self.line("severity", message.severity.map(|it| it.as_str()))?;
        match message.timestamp {
            Some(stamp) => writeln!(self.out, "timestamp: {stamp}"),
            None => Ok(()),
        }
    }

    /// Writes a process id: a number, or a name.
    pub fn write_process(&mut self, process: &ProcId<&str>) -> io::Result<()> {
        match process {
            ProcId::PID(number) => writeln!(self.out, "pid: {number}"),
            ProcId::Name(name) => self.line("process name", Some(*name)),
        }
    }

    /// Writes the message.
    pub fn write_fields(&mut self, message: &Message<&str>) -> io::Result<()> {
        self.write_head(message)?;
        self.line("host", message.hostname)?;
        self.line("app", message.appname)?;
        if let Some(process) = &message.procid {
            self.write_process(process)?;
        }
        self.line("id", message.msgid)?;
        self.write_elements(&message.structured_data)?;
        self.line("msg", Some(message.msg))
    }
}

/// The lines of the message.
pub fn fields_of(alloc: Global, message: &Message<&str>) -> io::Result<Vec<u8>> {
    let mut lines = Vec::new(alloc);
    let mut sheet = Sheet {
        alloc,
        out: &mut lines,
        filling: "",
    };
    sheet.write_fields(message)?;
    Ok(lines)
}
