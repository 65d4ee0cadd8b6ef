//! Bytes that may be no UTF-8 as a text, in a buffer of the caller's.
ghost use Rattle.syslog_c.specs.Outcome.{IsCodeOf};
ghost use Rattle.syslog_c.specs.Texts.{PutsDecoded, is_asked};

use crate::outcome::Outcome;
use crate::room::put;
use std::alloc::Global;
use syslog_utf8::{decode, from_utf8};

/// Writes the bytes as UTF-8 to the front of `room`, and their length then to `needed`: as they are, if they are UTF-8.
/// If `latin1` is not 0, each byte of others is a character of ISO 8859-1; otherwise U+FFFD replaces each part that is
/// not UTF-8. If the text is longer than `room`, `room` may hold anything. This call allocates for bytes that are not
/// UTF-8.
#[unsafe(no_mangle)]
pub extern "C" fn syslog_decode(
    alloc: Global,
    bytes: &[u8],
    latin1: u32,
    room: &mut [u8],
    needed: &mut usize,
) -> u32
    ensures { IsCodeOf result
        (λ outcome. PutsDecoded (is_asked latin1) bytes.now room.old room.new needed.new outcome) }
{
    write_decoded(alloc, bytes, latin1 != 0, room, needed) as u32
}

fn write_decoded(
    alloc: Global,
    bytes: &[u8],
    is_latin1: bool,
    room: &mut [u8],
    needed: &mut usize,
) -> Outcome
    ensures { PutsDecoded is_latin1 bytes.now room.old room.new needed.new result }
{
    if let Ok(text) = from_utf8(bytes) {
        return put(text.as_bytes(), room, needed);
    }
    match decode(alloc, bytes, is_latin1) {
        Ok(text) => put(text.as_bytes(), room, needed),
        Err(_) => {
            *needed = 0;
            Outcome::NoMemory
        }
    }
}
