//! The first line of a text or of bytes.
ghost use Rattle.std.specs.Prelude.{IsUtf8};
ghost use Rattle.syslog_lines.specs.Lines.{IsFirstLine};

use crate::search::next_feed;

/// Returns the first line of bytes without its line feed, and what follows that; all, and nothing, if there is none.
#[inline(always)]
pub fn first_line(bytes: &[u8]) -> (&[u8], &[u8])
    ensures { IsFirstLine bytes.now result.0.now result.1.now }
{
    match next_feed(bytes) {
        Some(end) => (&bytes[..end], &bytes[end + 1..]),
        None => (bytes, &[]),
    }
}

/// Returns the first line of a text without its line feed, and what follows that; all, and nothing, if there is none.
#[inline(always)]
pub fn first_text_line(text: &str) -> (&str, &str)
    ensures first { IsFirstLine text.now result.0.now result.1.now }
    ensures utf8 { IsUtf8 result.0.now }
{
    match next_feed(text.as_bytes()) {
        Some(end) => (&text[..end], &text[end + 1..]),
        None => (text, ""),
    }
}
