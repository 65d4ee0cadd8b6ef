//! Rows of tables.
//!
//! A row is one text of cells with `¦` between them: first the text that is read, then what it reads as, and last what
//! is left of it, as in `zork: hi¦zork¦: hi`. A row of the text alone says that it doesn't read so.

/// The text that is read.
pub(super) fn text_of(row: &str) -> &str {
    row.split('¦').next().unwrap_or("")
}

/// What it reads as, or what is left of it where it reads as nothing else.
pub(super) fn answer_of(row: &str) -> Option<&str> {
    row.split('¦').nth(1)
}

/// What is left after that.
pub(super) fn left_of(row: &str) -> &str {
    row.split('¦').nth(2).unwrap_or("")
}

/// Whether the text is there, and is the one that is wanted.
pub(super) fn is_text(text: Option<&str>, want: &str) -> bool {
    match text {
        Some(text) => text == want,
        None => false,
    }
}
