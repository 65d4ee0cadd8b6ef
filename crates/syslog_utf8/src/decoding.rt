//! Decodes bytes that are not UTF-8.
ghost use Rattle.std.specs.Prelude.{◌≡◌, IfOk, IsTrue, encode_utf8_all, string_bytes};
ghost use Rattle.std.specs.Str.{chars};
ghost use Rattle.syslog_utf8.specs.Decoded.{decoded};

use std::alloc::{AllocError, Global};

/// Decodes bytes that are not UTF-8. As ISO 8859-1 each byte is the character with its number, and nothing is lost.
/// Otherwise U+FFFD replaces each part that is not UTF-8: the front of a character that is cut, as long as it goes, or
/// one byte.
pub fn decode(alloc: Global, bytes: &[u8], is_latin1: bool) -> Result<String, AllocError>
    ensures text { IfOk result (λ text. string_bytes text ≡ decoded is_latin1 bytes.now) }
    ensures whole { IsTrue is_latin1 → IfOk result (λ text. chars (string_bytes text) ≡ bytes.now) }
{
    if is_latin1 {
        decode_latin1(alloc, bytes)
    } else {
        String::from_utf8_lossy(alloc, bytes)
    }
}

// Returns the text in which each byte is the character of its number.
fn decode_latin1(alloc: Global, bytes: &[u8]) -> Result<String, AllocError>
    ensures text { IfOk result (λ text. string_bytes text ≡ encode_utf8_all bytes.now) }
    ensures whole { IfOk result (λ text. chars (string_bytes text) ≡ bytes.now) }
{
    let mut text = String::new(alloc);
    for byte in bytes {
        text.push(char::from(*byte))?;
    }
    Ok(text)
}
