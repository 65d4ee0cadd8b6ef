//! The calls, as a row makes them.
use crate::setting::Setting;
use std::alloc::{AllocError, Global};
use std::io;
use syslog_loose::{
    IncompleteDate, Message, ParseFault, TimeZone, Variant, normalise, parse_line,
    parse_message_with_year, parse_message_with_year_exact, parse_message_with_year_exact_tz,
    parse_message_with_year_tz, settle,
};
use syslog_object::{ObjectWriter, line_object};
use syslog_strict::to_rfc5424;

/// A text and how it is read.
#[derive(Clone, Copy)]
pub struct Row<'a> {
    pub text: &'a str,
    pub setting: &'a Setting,
}

/// What is answered, or nothing for `Invalid`.
pub fn or_none<T: Drop>(answer: Result<T, ParseFault>) -> io::Result<Option<T>> {
    match answer {
        Ok(value) => Ok(Some(value)),
        Err(ParseFault::Invalid) => Ok(None),
        Err(ParseFault::Memory) => Err(io::Error::from(io::ErrorKind::OutOfMemory)),
    }
}

impl<'a> Row<'a> {
    pub fn tz(&self) -> Option<&'a TimeZone<'static>> {
        self.setting.tz.as_ref()
    }

    // The variant and the local zone.
    fn reading(&self) -> (Variant, &'a TimeZone<'static>) {
        (self.setting.variant, &self.setting.local)
    }

    /// By `parse_message_with_year_exact_tz`.
    pub fn exact(&self, alloc: Global, variant: Variant) -> Result<Message<&'a str>, ParseFault> {
        let setting = self.setting;
        let year = |date: IncompleteDate| setting.year_of(date);
        parse_message_with_year_exact_tz(alloc, self.text, year, self.tz(), variant, &setting.local)
    }

    /// By `parse_message_with_year_tz`.
    pub fn plain(&self, alloc: Global) -> Result<Message<&'a str>, AllocError> {
        let setting = self.setting;
        let year = |date: IncompleteDate| setting.year_of(date);
        let (variant, local) = self.reading();
        parse_message_with_year_tz(alloc, self.text, year, self.tz(), variant, local)
    }

    /// By `parse_message_with_year_exact`, which has no zone.
    pub fn exact_local(&self, alloc: Global) -> Result<Message<&'a str>, ParseFault> {
        let setting = self.setting;
        let year = |date: IncompleteDate| setting.year_of(date);
        parse_message_with_year_exact(alloc, self.text, year, setting.variant, &setting.local)
    }

    /// By `parse_message_with_year`, which has none either.
    pub fn plain_local(&self, alloc: Global) -> Result<Message<&'a str>, AllocError> {
        let setting = self.setting;
        let year = |date: IncompleteDate| setting.year_of(date);
        parse_message_with_year(alloc, self.text, year, setting.variant, &setting.local)
    }

    /// The date for which the year is asked.
    pub fn asked(&self, alloc: Global) -> Option<IncompleteDate> {
        let setting = self.setting;
        let mut asked = None;
        let year = |date: IncompleteDate| {
            asked = Some(date);
            setting.year_of(date)
        };
        let (variant, local) = self.reading();
        let _ = normalise(alloc, self.text, year, self.tz(), variant, local);
        asked
    }

    /// The text once more, read and printed.
    pub fn normalised(&self, alloc: Global, text: &str) -> Result<String, ParseFault> {
        let setting = self.setting;
        let year = |date: IncompleteDate| setting.year_of(date);
        let (variant, local) = self.reading();
        normalise(alloc, text, year, self.tz(), variant, local)
    }

    /// How often the text is normalised until it stays.
    pub fn rounds(&self, alloc: Global) -> Result<usize, ParseFault> {
        let mut last = self.normalised(alloc, self.text)?;
        for round in 1..=self.text.len().saturating_add(1) {
            let next = self.normalised(alloc, last.as_str())?;
            if next == last {
                return Ok(round);
            }
            last = next;
        }
        Err(ParseFault::Invalid)
    }

    pub fn settled(&self, alloc: Global) -> Result<String, ParseFault> {
        let setting = self.setting;
        let year = |date: IncompleteDate| setting.year_of(date);
        let (variant, local) = self.reading();
        settle(alloc, self.text, year, self.tz(), variant, local)
    }

    pub fn strict(&self, alloc: Global) -> Result<String, ParseFault> {
        let setting = self.setting;
        let year = |date: IncompleteDate| setting.year_of(date);
        let (variant, local) = self.reading();
        to_rfc5424(alloc, self.text, year, self.tz(), variant, local)
    }

    /// The object of the line in JSON.
    pub fn object(&self, alloc: Global) -> Result<Vec<u8>, AllocError> {
        let setting = self.setting;
        let year = |date: IncompleteDate| setting.year_of(date);
        let line = parse_line(self.text, year, self.tz(), setting.variant, &setting.local);
        match line {
            Some(line) => line_object(alloc, Vec::new(alloc), &line, None, None),
            None => self.refused(alloc),
        }
    }

    // The object of a line that is no message.
    fn refused(&self, alloc: Global) -> Result<Vec<u8>, AllocError> {
        let mut object = Vec::new(alloc);
        ObjectWriter::new(alloc, Vec::new(alloc)).write_refused(self.text, &mut object)?;
        Ok(object)
    }
}
