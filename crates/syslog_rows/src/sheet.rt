//! Where a block is written to.
use crate::shown::Shown;
use std::alloc::Global;
use std::io;
use std::io::Write;

/// What is written, and the part that the block repeats, in whose place its values have `…`.
#[derive(Drop)]
pub struct Sheet<'o, 'f, W> {
    pub alloc: Global,
    pub out: &'o mut W,
    pub filling: &'f str,
}

impl<'f, W: Write> Sheet<'_, 'f, W> {
    /// The text as a line shows it.
    pub fn shown<'t>(&self, text: &'t str) -> Shown<'t, 'f> {
        Shown {
            text,
            filling: self.filling,
        }
    }

    /// Writes a line with the value, where there is one.
    pub fn line(&mut self, word: &str, value: Option<&str>) -> io::Result<()> {
        match value {
            Some("") => writeln!(self.out, "{word}:"),
            Some(text) => {
                let value = self.shown(text);
                writeln!(self.out, "{word}: {value}")
            }
            None => Ok(()),
        }
    }

    /// Another sheet of the same block, whose lines go elsewhere.
    pub fn beside<'o>(&self, lines: &'o mut Vec<u8>) -> Sheet<'o, 'f, Vec<u8>> {
        Sheet {
            alloc: self.alloc,
            out: lines,
            filling: self.filling,
        }
    }
}
