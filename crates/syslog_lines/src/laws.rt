//! Laws of the frames, over their definitions alone.
ghost use Rattle.std.specs.Prelude.{List, [], ℕ};
ghost use Rattle.std.specs.List.{AllByRecursion, flat_map};
ghost use Rattle.syslog_lines.specs.Frames.{AreFrames, CanBeFramed, IsFrame, frame_of};
ghost use Rattle.syslog_lines.specs.declared.framing.Framing.{Framing as AnyFraming};

/// The frame that is written for a message is read as that message, and the frames of several, one after the other, as
/// those messages, where a frame can have each: no ending is in it, or its octets are counted by one to nine digits.
pub fn written_frames_are_read_back()
    ensures one { (framing : AnyFraming) (message : List ℕ) → CanBeFramed framing message
        → IsFrame framing message (frame_of framing message) }
    ensures all { (framing : AnyFraming) (messages : List (List ℕ)) → AllByRecursion (CanBeFramed framing) messages
        → AreFrames framing (flat_map (frame_of framing) messages) messages [] }
{}
