//! Reads blocks of rows from standard input, and writes each with what comes of it to standard output: the fields of
//! the message, and what the other calls make of the text. README.md beside this says how both are written.
#![tactic(auto)]

mod block;
mod built;
mod calls;
mod fields;
mod lists;
mod piece;
mod row;
mod setting;
mod sheet;
mod shown;

use block::{Block, block_of, parts};
use calls::Row;
use setting::{Setting, setting_of};
use sheet::Sheet;
use std::io;
use std::io::{BufWriter, Write};
use std::process::ExitCode;

/// A row that can't be read ends the run.
pub fn bad_row() -> io::Error {
    io::Error::from(io::ErrorKind::InvalidInput)
}

impl<W: Write> Sheet<'_, '_, W> {
    // Writes what comes of the text that a line's value represents.
    fn write_answer(
        &mut self,
        block: &Block<'_>,
        setting: &Setting,
        value: &str,
    ) -> io::Result<()> {
        let text = block.text_of(self.alloc, value)?;
        let text = text.as_str();
        match block.line("piece") {
            Some(piece) => self.write_piece(piece, text, setting),
            None => self.write_row(Row { text, setting }),
        }
    }

    // The lines of the block, below each text what comes of it; and below a message what comes of that.
    fn write_block(&mut self, block: &Block<'_>) -> io::Result<()> {
        let Some(setting) = setting_of(block) else {
            return Err(bad_row());
        };
        for line in block.text.lines() {
            writeln!(self.out, "{line}")?;
            if let ("text", value) = parts(line) {
                self.write_answer(block, &setting, value)?;
            }
        }
        if block.line("protocol").is_some() {
            return self.write_built(block, &setting);
        }
        Ok(())
    }
}

fn write_blocks(rt: &HostRuntime) -> io::Result<()> {
    let text = io::read_to_string(rt.alloc(), rt.stdin())?;
    let mut out = BufWriter::new(rt.alloc(), rt.stdout())?;
    for (index, text) in text.as_str().split("\n\n").enumerate() {
        if index > 0 {
            writeln!(out)?;
        }
        let block = block_of(rt.alloc(), text)?;
        let mut sheet = Sheet {
            alloc: rt.alloc(),
            out: &mut out,
            filling: block.filling.as_str(),
        };
        sheet.write_block(&block)?;
    }
    out.flush()
}

fn main(rt: HostRuntime) -> ExitCode {
    match write_blocks(&rt) {
        Ok(()) => ExitCode::SUCCESS,
        Err(_) => ExitCode::FAILURE,
    }
}
