//! The value of a parameter without its escapes, in a buffer of the caller's.
ghost use Rattle.std.specs.Str.{chars};
ghost use Rattle.syslog_text.specs.Pieces.Class.{Text};
ghost use Rattle.syslog_elements.specs.StructuredData.Escapes.{IsUnescaped};
ghost use Rattle.syslog_c.specs.Outcome.{IsCodeOf};
ghost use Rattle.syslog_c.specs.Room.{TakesText};
ghost use Rattle.syslog_c.specs.Texts.{Unescaped};

use crate::outcome::Outcome;
use crate::room::Buffer;
use syslog_elements::structured_data::next_unescaped;
use syslog_utf8::from_utf8;

/// Writes the value with its escapes removed to the front of `room`, and its length in bytes to `needed`. If it is
/// longer than `room`, `room` may hold anything. Nothing is allocated.
#[unsafe(no_mangle)]
pub extern "C" fn syslog_unescape(value: &[u8], room: &mut [u8], needed: &mut usize) -> u32
    ensures { IsCodeOf result (λ outcome. Unescaped value.now room.old room.new needed.new outcome) }
{
    unescaped(value, room, needed) as u32
}

fn unescaped(value: &[u8], room: &mut [u8], needed: &mut usize) -> Outcome
    ensures { Unescaped value.now room.old room.new needed.new result }
{
    let Ok(text) = from_utf8(value) else {
        *needed = 0;
        return Outcome::NotUtf8;
    };
    let mut buffer = Buffer::new(room);
    push_unescaped(&mut buffer, text);
    buffer.report_length(needed)
}

fn push_unescaped(buffer: &mut Buffer<'_>, value: &str)
    ensures { (unescaped : Text) × IsUnescaped (chars value.now) unescaped × TakesText buffer.old unescaped buffer.new }
{
    let mut rest = value;
    'texts: loop {
        let Some((text, after)) = next_unescaped(rest) else {
            return;
        };
        buffer.push(text);
        rest = after;
    }
}
