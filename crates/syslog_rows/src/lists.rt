//! Elements, a line for each id and each parameter.
use crate::sheet::Sheet;
use std::alloc::Global;
use std::io;
use std::io::Write;
use syslog_loose::StructuredElement;

/// Lines that come again one after the other are written once, with how often they came below.
#[derive(Drop)]
struct Repeats {
    last: Vec<u8>,
    times: usize,
}

impl Repeats {
    fn new(alloc: Global) -> Repeats {
        Repeats {
            last: Vec::new(alloc),
            times: 0,
        }
    }

    fn end<W: Write>(&self, out: &mut W) -> io::Result<()> {
        out.write_all(self.last.as_slice())?;
        let times = self.times;
        if times > 1 {
            writeln!(out, "times: {times}")?;
        }
        Ok(())
    }

    fn add<W: Write>(&mut self, out: &mut W, lines: Vec<u8>) -> io::Result<()> {
        if lines == self.last {
            self.times = self.times.saturating_add(1);
            return Ok(());
        }
        self.end(out)?;
        self.last = lines;
        self.times = 1;
        Ok(())
    }
}

impl<W: Write> Sheet<'_, '_, W> {
    // A parameter as it is written, and below it the value without escapes, where that is another.
    fn write_param(&mut self, name: &str, raw: &str, plain: &str) -> io::Result<()> {
        let (name, value) = (self.shown(name), self.shown(raw));
        writeln!(self.out, "param: {name}=\"{value}\"")?;
        if raw != plain {
            let plain = self.shown(plain);
            writeln!(self.out, "plain: {plain}")?;
        }
        Ok(())
    }

    fn write_element(&mut self, element: &StructuredElement<&str>) -> io::Result<()> {
        let id = self.shown(element.id);
        writeln!(self.out, "element: {id}")?;
        let mut params = Repeats::new(self.alloc);
        for (raw, item) in element.params.iter().zip(element.params(self.alloc)) {
            let (name, plain) = item?;
            let mut lines = Vec::new(self.alloc);
            let mut sheet = self.beside(&mut lines);
            sheet.write_param(*name, raw.1, plain.as_str())?;
            params.add(self.out, lines)?;
        }
        params.end(self.out)
    }

    /// Writes the elements.
    pub fn write_elements(&mut self, elements: &[StructuredElement<&str>]) -> io::Result<()> {
        let mut all = Repeats::new(self.alloc);
        for element in elements {
            let mut lines = Vec::new(self.alloc);
            let mut sheet = self.beside(&mut lines);
            sheet.write_element(element)?;
            all.add(self.out, lines)?;
        }
        all.end(self.out)
    }
}
