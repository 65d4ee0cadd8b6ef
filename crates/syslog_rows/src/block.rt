//! A block of lines, each a word, a colon and a value.
use crate::bad_row;
use std::alloc::Global;
use std::io;

/// A block, and the part that `…` represents in its values.
#[derive(Drop)]
pub struct Block<'a> {
    pub text: &'a str,
    pub filling: String,
}

/// The word and the value of a line.
pub fn parts(line: &str) -> (&str, &str) {
    let (word, value) = line.split_once(':').unwrap_or((line, ""));
    (word, value.strip_prefix(' ').unwrap_or(value))
}

impl<'a> Block<'a> {
    /// The value of the last line with this word, as it is written.
    pub fn line(&self, word: &str) -> Option<&'a str> {
        let mut found = None;
        for line in self.text.lines() {
            let (this, value) = parts(line);
            if this == word {
                found = Some(value);
            }
        }
        found
    }

    /// Returns the text that a value represents: `<U+00A0>` is that character, and `…` the part that is repeated.
    pub fn text_of(&self, alloc: Global, value: &str) -> io::Result<String> {
        let mut text = String::new(alloc);
        let mut pieces = value.split("<U+");
        self.push_filled(&mut text, pieces.next().unwrap_or(""))?;
        for piece in pieces {
            let (code, rest) = piece.split_once('>').ok_or(bad_row())?;
            let code = u32::from_str_radix(code, 16).map_err(|_| bad_row())?;
            text.push(char::from_u32(code).ok_or(bad_row())?)?;
            self.push_filled(&mut text, rest)?;
        }
        Ok(text)
    }

    fn push_filled(&self, text: &mut String, value: &str) -> io::Result<()> {
        for (index, part) in value.split('…').enumerate() {
            if index > 0 {
                text.push_str(self.filling.as_str())?;
            }
            text.push_str(part)?;
        }
        Ok(())
    }
}

/// The block of the lines.
pub fn block_of(alloc: Global, text: &str) -> io::Result<Block<'_>> {
    let mut block = Block {
        text,
        filling: String::new(alloc),
    };
    if let Some(filling) = block.line("…") {
        let (times, part) = filling.split_once(" times ").ok_or(bad_row())?;
        let times = times.parse().map_err(|_| bad_row())?;
        let part = block.text_of(alloc, part)?;
        block.filling = part.as_str().repeat(alloc, times)?;
    }
    Ok(block)
}
