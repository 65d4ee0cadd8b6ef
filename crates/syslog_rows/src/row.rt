//! A text, and what comes of it.
use crate::bad_row;
use crate::calls::{Row, or_none};
use crate::fields::fields_of;
use crate::sheet::Sheet;
use std::io;
use std::io::Write;
use syslog_loose::{
    IncompleteDate, Message, ParseFault, Variant, parse_message, reads_differently,
};

/// The variants by the words that the rows have for them.
const VARIANTS: [(&str, Variant); 3] = [
    ("either", Variant::Either),
    ("3164", Variant::RFC3164),
    ("5424", Variant::RFC5424),
];

impl<W: Write> Sheet<'_, '_, W> {
    // The variants under which the text has this message.
    fn write_variants(&mut self, row: Row<'_>, message: &[u8]) -> io::Result<()> {
        let mut words = String::new(self.alloc);
        for (word, variant) in &VARIANTS {
            if let Some(other) = or_none(row.exact(self.alloc, *variant))? {
                if fields_of(self.alloc, &other)?.as_slice() == message {
                    words.push(' ')?;
                    words.push_str(word)?;
                }
            }
        }
        let words = words.as_str();
        writeln!(self.out, "read by:{words}")
    }

    // A call that gives another message than the one of the row, which none does.
    fn write_other(
        &mut self,
        call: &str,
        found: Option<Message<&str>>,
        message: Option<&[u8]>,
    ) -> io::Result<()> {
        let same = match (found, message) {
            (Some(found), Some(message)) => fields_of(self.alloc, &found)?.as_slice() == message,
            (None, None) => true,
            _ => false,
        };
        if same {
            return Ok(());
        }
        writeln!(self.out, "otherwise by: {call}")
    }

    // The calls that take no zone.
    fn write_local_calls(
        &mut self,
        row: Row<'_>,
        exact: Option<&[u8]>,
        plain: &[u8],
    ) -> io::Result<()> {
        if row.tz().is_some() {
            return Ok(());
        }
        let found = or_none(row.exact_local(self.alloc))?;
        self.write_other("parse_message_with_year_exact", found, exact)?;
        let found = Some(row.plain_local(self.alloc)?);
        self.write_other("parse_message_with_year", found, Some(plain))
    }

    // What the text settles as, where that is not its printed form, and in which round; or that it does not.
    fn write_settled(&mut self, row: Row<'_>, printed: &str) -> io::Result<()> {
        let Some(text) = or_none(row.settled(self.alloc))? else {
            return writeln!(self.out, "settles: not");
        };
        if text.as_str() == printed {
            return Ok(());
        }
        let rounds = or_none(row.rounds(self.alloc))?.unwrap_or(0);
        self.line("settles", Some(text.as_str()))?;
        writeln!(self.out, "rounds: {rounds}")
    }

    fn write_printed(&mut self, row: Row<'_>, message: &Message<&str>) -> io::Result<()> {
        let printed = message.to_string(self.alloc)?;
        self.line("prints", Some(printed.as_str()))?;
        let normalised = or_none(row.normalised(self.alloc, row.text))?;
        if normalised.as_ref().map(|text| text.as_str()) != Some(printed.as_str()) {
            writeln!(self.out, "otherwise by: normalise")?;
        }
        let canonical = if message.is_canonical() { "yes" } else { "no" };
        writeln!(self.out, "canonical: {canonical}")?;
        if !self.filling.is_empty() {
            return Ok(());
        }
        self.write_settled(row, printed.as_str())
    }

    // The text as JSON, and in the strict grammar. (A part that is repeated has other escapes there.)
    fn write_forms(&mut self, row: Row<'_>) -> io::Result<()> {
        if !self.filling.is_empty() {
            return Ok(());
        }
        let object = row.object(self.alloc)?;
        let object = std::str::from_utf8(object.as_slice()).map_err(|_| bad_row())?;
        self.line("json", Some(object))?;
        let strict = or_none(row.strict(self.alloc))?;
        self.line("strict", strict.as_ref().map(|text| text.as_str()))
    }

    // Whether the rule of the dash changed the reading, where it did.
    fn write_dash(&mut self, row: Row<'_>) -> io::Result<()> {
        let setting = row.setting;
        let year = |date: IncompleteDate| setting.year_of(date);
        let (variant, local) = (setting.variant, &setting.local);
        if reads_differently(self.alloc, row.text, year, row.tz(), variant, local)? {
            writeln!(self.out, "reads differently: yes")?;
        }
        Ok(())
    }

    fn write_message(&mut self, row: Row<'_>, message: Option<&Message<&str>>) -> io::Result<()> {
        let plain = row.plain(self.alloc)?;
        let fallback = fields_of(self.alloc, &plain)?;
        let Some(message) = message else {
            let fault = ParseFault::Invalid;
            writeln!(self.out, "refused: {fault}")?;
            self.write_fields(&plain)?;
            return self.write_local_calls(row, None, fallback.as_slice());
        };
        self.write_fields(message)?;
        let fields = fields_of(self.alloc, message)?;
        let fields = fields.as_slice();
        self.write_variants(row, fields)?;
        self.write_other("parse_message_with_year_tz", Some(plain), Some(fields))?;
        self.write_local_calls(row, Some(fields), fields)?;
        self.write_printed(row, message)
    }

    // What comes of the text but by `parse_message`.
    fn write_calls(&mut self, row: Row<'_>) -> io::Result<()> {
        if let Some((month, day, hour, minute, second)) = row.asked(self.alloc) {
            writeln!(self.out, "asks for: {month} {day} {hour} {minute} {second}")?;
        }
        let message = or_none(row.exact(self.alloc, row.setting.variant))?;
        self.write_message(row, message.as_ref())?;
        self.write_dash(row)?;
        self.write_forms(row)
    }

    /// Writes the message of the text, or its refusal and the fallback, and what else comes of the text. With a moment
    /// it is the message of `parse_message`.
    pub fn write_row(&mut self, row: Row<'_>) -> io::Result<()> {
        let setting = row.setting;
        let Some(now) = setting.now else {
            return self.write_calls(row);
        };
        let message = parse_message(self.alloc, row.text, setting.variant, now, &setting.local)?;
        self.write_fields(&message)?;
        let printed = message.to_string(self.alloc)?;
        self.line("prints", Some(printed.as_str()))
    }
}
