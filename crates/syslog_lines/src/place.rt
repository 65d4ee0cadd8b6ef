//! Where in the input the bytes are that were read and are not done with.
ghost use Rattle.std.specs.Prelude.{◌≡◌, ◌-◌, ◌≤◌, true, ℕ, List, MatchOption, length, take, drop};
ghost use Rattle.syslog_lines.specs.Frames.{IsOpen, is_above};
ghost use Rattle.syslog_lines.specs.Place.{Enters, HasMark, IsAt, IsHeld, IsMarkFront, IsSeen, Opened, StartsAt};
ghost use Rattle.syslog_lines.specs.declared.place.Place.TheVariants.{Frame};

use crate::frames::{cut_message, frame_end};
use crate::framing::Frames;
use crate::summary::Tally;

/// Where in the input the next bytes are.
#[derive(Clone, Copy, PartialEq, Eq)]
pub enum Place {
    /// At the head of the input, where a byte order mark may be.
    Head,
    /// Where a frame begins.
    Frame,
    /// In a message that is too long, and goes on for so many octets, or up to an ending byte.
    Long(Option<usize>),
}

/// How many of the bytes are done with, and what follows them.
pub enum Entry {
    /// So many bytes are done with, and then a frame begins, of which so many bytes were seen before.
    After(usize, usize),
    /// So many bytes are done with, and no frame begins yet.
    Only(usize),
}

impl Place {
    /// Returns where in the input its first bytes are: at its head, where a byte order mark may be, or where a frame
    /// begins.
    pub fn start(frames: Frames) -> Place
        ensures { StartsAt frames result }
    {
        if frames.strips {
            Place::Head
        } else {
            Place::Frame
        }
    }

    /// Goes on to where a frame begins, and counts a message that is too long and ends before. The first `seen` bytes
    /// were seen before.
    pub fn enter(&mut self, frames: Frames, bytes: &[u8], seen: usize, tally: &mut Tally) -> Entry
        requires within { seen ≤ length bytes.now }
        requires seen { IsSeen frames.framing self.old (take seen bytes.now) }
        ensures { Enters frames self.old self.new bytes.now tally.old tally.new result }
    {
        match *self {
            Place::Head => match mark_size(bytes) {
                Some(size) => {
                    *self = Place::Frame;
                    Entry::After(size, 0)
                }
                None => Entry::Only(0),
            },
            Place::Frame => Entry::After(0, seen),
            Place::Long(missing) => match frame_end(frames.framing, missing, bytes) {
                Ok(end) => {
                    tally.count_long();
                    *self = Place::Frame;
                    Entry::After(end, 0)
                }
                Err(missing) => {
                    *self = Place::Long(missing);
                    Entry::Only(bytes.len())
                }
            },
        }
    }

    /// For a frame whose end was not read yet, returns how many of its bytes need not be kept: all of them if its
    /// message is already too long, and otherwise none.
    pub fn leave(&mut self, frames: Frames, bytes: &[u8]) -> usize
        requires place { self.old ≡ Frame }
        requires open { IsOpen frames.framing bytes.now }
        ensures within { result ≤ length bytes.now }
        ensures held { IsHeld frames.framing self.new (drop result bytes.now) }
        ensures at { (input : List ℕ) (messages : List (List ℕ)) → Opened frames input messages bytes.now
            → IsAt frames self.new input messages (drop result bytes.now) }
    {
        let (message, missing) = cut_message(frames.framing, bytes);
        if !is_long_front(frames, bytes.len(), message.len()) {
            return 0;
        }
        *self = Place::Long(missing);
        bytes.len()
    }
}

// Whether the message of a frame that is cut is too long, of which so many bytes are there. Two bytes at its end may
// yet be left out, and it takes ten bytes of the frame to see whether there is a count.
fn is_long_front(frames: Frames, size: usize, message: usize) -> bool
    ensures { result ≡ true → (10 ≤ size) × (is_above frames.longest (message - 2) ≡ true) }
{
    if size < 10 {
        return false;
    }
    frames.is_too_long(message.saturating_sub(2))
}

// Returns the size of the byte order mark that the bytes begin with, 0 if it is none, and nothing if they don't show
// it.
fn mark_size(bytes: &[u8]) -> Option<usize>
    ensures { MatchOption result (IsMarkFront bytes.now) (λ size. HasMark bytes.now size) }
{
    let size = bytes.len();
    if size > 0 && bytes[0] != 0xEF {
        return Some(0);
    }
    if size > 1 && bytes[1] != 0xBB {
        return Some(0);
    }
    if size > 2 && bytes[2] != 0xBF {
        return Some(0);
    }
    if size > 2 {
        return Some(3);
    }
    None
}
