//! Texts in a buffer of the caller's.
ghost use Rattle.std.specs.Prelude.{◌≡◌, ◌++◌, ◌≤◌, MatchResult, drop, length, string_bytes};
ghost use Rattle.syslog_c.specs.Room.{IsLeftFor, Puts, Takes, ReportsLength, fault_outcome};

use crate::outcome::Outcome;
use syslog_loose::ParseFault;

/// A buffer of the caller's, into which a text is written piece by piece. A piece that does not fit is only counted.
#[derive(Drop)]
pub(crate) struct Buffer<'r> {
    room: &'r mut [u8],
    // how long the text is up to here
    needed: usize,
}

impl<'r> Buffer<'r> {
    /// Returns a buffer into which nothing is written yet.
    pub(crate) fn new(room: &'r mut [u8]) -> Buffer<'r>
        ensures same { result.room.ghost_name ≡ room.entry.ghost_name }
        ensures none { (result.room.now ≡ room.old) × (result.needed ≡ 0) }
    {
        Buffer { room, needed: 0 }
    }

    /// Writes the next piece of the text.
    pub(crate) fn push(&mut self, text: &str)
        ensures { Takes self.old text.now self.new }
    {
        let at = self.needed;
        self.needed = at.saturating_add(text.len());
        if self.needed <= self.room.len() {
            put_front(text.as_bytes(), &mut self.room[at..]);
        }
    }

    /// Sets `needed` to the length of the text, and returns whether there was space for all of it.
    pub(crate) fn report_length(&self, needed: &mut usize) -> Outcome
        ensures { ReportsLength self.now needed.new result }
    {
        *needed = self.needed;
        if self.needed > self.room.len() {
            return Outcome::NoRoom;
        }
        Outcome::Done
    }
}

fn put_front(bytes: &[u8], room: &mut [u8])
    requires { length bytes.now ≤ length room.old }
    ensures { room.new ≡ bytes.now ++ drop (length bytes.now) room.old }
{
    room[..bytes.len()].copy_from_slice(bytes);
}

/// Writes the text to the front of `room`, and sets `needed` to its length. After a fault it sets `needed` to 0, and
/// returns the outcome of that fault.
pub(crate) fn put_answer(
    answer: Result<String, ParseFault>,
    room: &mut [u8],
    needed: &mut usize,
) -> Outcome
    ensures { MatchResult answer (λ text. Puts (string_bytes text) room.old room.new needed.new result)
        (λ fault. IsLeftFor fault room.old room.new needed.new result) }
{
    match answer {
        Ok(text) => put(text.as_bytes(), room, needed),
        Err(fault) => {
            *needed = 0;
            outcome_of(fault)
        }
    }
}

/// Returns the outcome of a call that had this fault.
pub(crate) fn outcome_of(fault: ParseFault) -> Outcome
    ensures { result ≡ fault_outcome fault }
{
    match fault {
        ParseFault::Invalid => Outcome::NoReading,
        ParseFault::Memory => Outcome::NoMemory,
    }
}

/// Copies the bytes to the front of `room`, if they fit, and sets `needed` to their length.
pub(crate) fn put(bytes: &[u8], room: &mut [u8], needed: &mut usize) -> Outcome
    ensures { Puts bytes.now room.old room.new needed.new result }
{
    *needed = bytes.len();
    if bytes.len() > room.len() {
        return Outcome::NoRoom;
    }
    put_front(bytes, room);
    Outcome::Done
}
