//! A value as a line shows it.
use std::fmt;

/// A text on one line. A character that is neither of ASCII from the space to `~` nor a letter is written as
/// `<U+00A0>`, and so is a space at either end. The part that a block repeats, if there is one, is written as `…`.
#[derive(Clone, Copy)]
pub struct Shown<'t, 'f> {
    pub text: &'t str,
    pub filling: &'f str,
}

fn write_space<W: fmt::Write>(f: &mut fmt::Formatter<W>) -> fmt::Result {
    f.write_str("<U+0020>")
}

fn write_inner<W: fmt::Write>(f: &mut fmt::Formatter<W>, text: &str) -> fmt::Result {
    for c in text.chars() {
        if matches!(c, ' '..='~') || c.is_alphabetic() {
            f.write_char(c)?;
        } else {
            let code = c as u32;
            write!(f, "<U+{code:04X}>")?;
        }
    }
    Ok(())
}

fn write_plain<W: fmt::Write>(f: &mut fmt::Formatter<W>, text: &str) -> fmt::Result {
    let inner = match text.strip_prefix(' ') {
        Some(rest) => {
            write_space(f)?;
            rest
        }
        None => text,
    };
    match inner.strip_suffix(' ') {
        Some(inner) => {
            write_inner(f, inner)?;
            write_space(f)
        }
        None => write_inner(f, inner),
    }
}

impl fmt::Display for Shown<'_, '_> {
    fn fmt<W: fmt::Write>(&self, f: &mut fmt::Formatter<W>) -> fmt::Result {
        if self.filling.is_empty() {
            return write_plain(f, self.text);
        }
        for (index, part) in self.text.split(self.filling).enumerate() {
            if index > 0 {
                f.write_char('…')?;
            }
            write_plain(f, part)?;
        }
        Ok(())
    }
}
