//! What a filter of lines is: what it writes for each line.
//!
//! **Rule.** It is this project's own choice, stated in `specs/Output.antt`.
ghost use Rattle.std.specs.Prelude.{◌≡◌, ◌++◌, ◌∷◌, [], IfOk, IsUtf8, OnOk, OnErr};
ghost use Rattle.syslog_lines.specs.Frames.{frame_of};
ghost use Rattle.syslog_lines.specs.Output.{AddsAnswer, Filter};
ghost use Rattle.syslog_lines.specs.declared.framing.Framing.TheVariants.{LineFeeds, Nuls, OctetCounts};

use crate::framing::Framing;
use itoa::Buffer;
use std::alloc::{AllocError, Global};

/// Writes something for each line of the input.
pub trait LineFilter {
    // what a line gives, and the lines for which memory may be taken
    ghost answers: { Self → Filter };

    /// Adds the output for a line that is UTF-8 to `output`, with a line feed or as a frame, or nothing. Returns
    /// whether the line counts as answered.
    ///
    /// If an allocation fails, nothing is added, and the line is one for which the filter may allocate. `text` is for a
    /// text in between: what it holds doesn't count, and its memory is used again for the next line.
    fn filter_line(
        &self,
        alloc: Global,
        line: &str,
        text: &mut String,
        output: &mut Vec<u8>,
    ) -> Result<bool, AllocError>
        ensures ok { IfOk result (λ is_answered. AddsAnswer
            (answers self.now) line.now output.old.items output.new.items is_answered) }
        ensures err { OnErr result (output.new.items ≡ output.old.items) }
        ensures refusal { OnErr result ((answers self.now).Wants line.now) };

    /// Adds the output for a line that is not UTF-8 to `output`, with a line feed or as a frame, or nothing. Returns
    /// whether the line counts as answered. If an allocation fails, nothing is added.
    fn filter_bytes(
        &self,
        alloc: Global,
        line: &[u8],
        output: &mut Vec<u8>,
    ) -> Result<bool, AllocError>
        requires { ¬ (IsUtf8 line.now) }
        ensures ok { IfOk result (λ is_answered. AddsAnswer
            (answers self.now) line.now output.old.items output.new.items is_answered) }
        ensures err { OnErr result (output.new.items ≡ output.old.items) }
        ensures refusal { OnErr result ((answers self.now).Wants line.now) };
}

/// Adds the bytes and a line feed to `output`, or nothing if an allocation fails.
#[inline]
pub fn push_line(output: &mut Vec<u8>, line: &[u8]) -> Result<(), AllocError>
    ensures ok { OnOk result (output.new.items ≡ output.old.items ++ (line.now ++ 10 ∷ [])) }
    ensures err { OnErr result (output.new.items ≡ output.old.items) }
{
    push_ended(output, line, b'\n')
}

/// Adds the frame of a message to `output`, or nothing if an allocation fails: its bytes and a line feed or NUL, or
/// the count of its octets, a space and its bytes (RFC 6587, section 3.4.1).
#[inline(always)]
pub fn push_frame(output: &mut Vec<u8>, framing: Framing, message: &[u8]) -> Result<(), AllocError>
    ensures ok { OnOk result (output.new.items ≡ output.old.items ++ frame_of framing message.now) }
    ensures err { OnErr result (output.new.items ≡ output.old.items) }
{
    match framing {
        Framing::LineFeeds => push_line(output, message),
        Framing::Nuls => push_nul_frame(output, message),
        Framing::OctetCounts => push_counted(output, message),
    }
}

// Adds the bytes and a NUL to `output`, or nothing.
#[inline(never)]
fn push_nul_frame(output: &mut Vec<u8>, message: &[u8]) -> Result<(), AllocError>
    ensures ok { OnOk result (output.new.items ≡ output.old.items ++ frame_of Nuls message.now) }
    ensures err { OnErr result (output.new.items ≡ output.old.items) }
{
    push_ended(output, message, 0)
}

// Adds the bytes and this one after them to `output`, or nothing.
#[inline(always)]
fn push_ended(output: &mut Vec<u8>, bytes: &[u8], ending: u8) -> Result<(), AllocError>
    ensures ok { OnOk result (output.new.items ≡ output.old.items ++ (bytes.now ++ ending ∷ [])) }
    ensures err { OnErr result (output.new.items ≡ output.old.items) }
{
    let before = output.len();
    output.extend_from_slice(bytes)?;
    if output.push(ending).is_err() {
        output.truncate(before);
        return Err(AllocError);
    }
    Ok(())
}

// Adds the count of the message's octets, a space and its bytes to `output`, or nothing.
#[inline(never)]
fn push_counted(output: &mut Vec<u8>, message: &[u8]) -> Result<(), AllocError>
    ensures ok { OnOk result (output.new.items ≡ output.old.items ++ frame_of OctetCounts message.now) }
    ensures err { OnErr result (output.new.items ≡ output.old.items) }
{
    let before = output.len();
    let mut count = Buffer::new();
    push_ended(output, count.format(message.len()).as_bytes(), b' ')?;
    if output.extend_from_slice(message).is_err() {
        output.truncate(before);
        return Err(AllocError);
    }
    Ok(())
}
