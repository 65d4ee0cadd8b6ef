//! Applies a filter to each of some lines.
ghost use Rattle.std.specs.Prelude.{◌≡◌, ◌≤◌, ◌∷◌, [], false, IfOk, length, take, drop};
ghost use Rattle.syslog_lines.specs.Frames.{HasAllFrames, IsOpen, is_above};
ghost use Rattle.syslog_lines.specs.Lines.{EndsInFeed};
ghost use Rattle.syslog_lines.specs.Output.{taken};
ghost use Rattle.syslog_lines.specs.Place.{Goes, HasReadUpTo, IsHeld, IsSeen};
ghost use Rattle.syslog_lines.specs.Write.{Adds, AddsFrames};
ghost use Rattle.syslog_lines.specs.declared.framing.Framing.TheVariants.{LineFeeds};

use crate::filter::LineFilter;
use crate::frames::{cut_message, whole_frame};
use crate::framing::{Frames, Framing};
use crate::lines::first_text_line;
use crate::place::{Entry, Place};
use crate::search::past_last_feed;
use crate::summary::Tally;
use std::alloc::{AllocError, Global};
use syslog_utf8::from_utf8;

/// The output of some lines, which is not written yet, and the counts of all lines so far.
#[derive(Drop)]
pub struct Collected {
    /// What the filter allocates with.
    pub alloc: Global,
    /// Memory for the filter's texts in between.
    pub text: String,
    /// The output.
    pub output: Vec<u8>,
    /// The counts.
    pub tally: Tally,
}

impl Collected {
    /// Collects the output of the messages that end in these bytes, which are at `place` of the input, and returns how
    /// many bytes are done with. The first `seen` of them were seen before. If an allocation for a message fails, the
    /// output of those before it was collected, and its line is one for which the filter may allocate.
    pub fn filter_held<F: LineFilter>(
        &mut self,
        frames: Frames,
        filter: &F,
        place: &mut Place,
        bytes: &[u8],
        seen: usize,
    ) -> Result<usize, AllocError>
        requires within { seen ≤ length bytes.now }
        requires seen { IsSeen frames.framing place.old (take seen bytes.now) }
        ensures within { IfOk result (λ past. past ≤ length bytes.now) }
        ensures held { IfOk result (λ past. IsHeld frames.framing place.new (drop past bytes.now)) }
        ensures adds { Goes frames place.old bytes.now (HasReadUpTo frames place.new bytes.now result)
            (λ more. Adds frames (taken frames (F.answers filter.now)) more [] self.new.output.items
            self.old.tally self.new.tally result) }
    {
        self.output.clear();
        let (start, known) = match place.enter(frames, bytes, seen, &mut self.tally) {
            Entry::After(start, known) => (start, known),
            Entry::Only(size) => return Ok(size),
        };
        let size = self.filter_frames(frames, filter, &bytes[start..], known)?;
        let past = start + size;
        Ok(past + place.leave(frames, &bytes[past..]))
    }

    /// Collects the output of the last message, which ends with these bytes, which are at `place` of the input.
    pub fn filter_last<F: LineFilter>(
        &mut self,
        frames: Frames,
        filter: &F,
        place: Place,
        bytes: &[u8],
    ) -> Result<(), AllocError>
        requires { IsHeld frames.framing place bytes.now }
        ensures { Goes frames place bytes.now (HasAllFrames frames)
            (λ more. Adds frames (taken frames (F.answers filter.now)) more [] self.new.output.items
            self.old.tally self.new.tally result) }
    {
        self.output.clear();
        if let Place::Long(_) = place {
            self.tally.count_long();
            return Ok(());
        }
        if bytes.is_empty() {
            return Ok(());
        }
        let (message, _) = cut_message(frames.framing, bytes);
        self.filter_message(frames, filter, message)
    }

    // Adds the output of the messages of whole frames, and returns the size of these frames. The first `seen` bytes
    // have no whole frame.
    fn filter_frames<F: LineFilter>(
        &mut self,
        frames: Frames,
        filter: &F,
        bytes: &[u8],
        seen: usize,
    ) -> Result<usize, AllocError>
        requires within { seen ≤ length bytes.now }
        requires open { IsOpen frames.framing (take seen bytes.now) }
        ensures within { IfOk result (λ past. past ≤ length bytes.now) }
        ensures open { IfOk result (λ past. IsOpen frames.framing (drop past bytes.now)) }
        ensures adds { AddsFrames frames (taken frames (F.answers filter.now)) bytes.now (λ past. drop past bytes.now)
            self.old.output.items self.new.output.items self.old.tally self.new.tally result }
    {
        match frames.framing {
            Framing::LineFeeds if !frames.is_too_long(bytes.len()) => {}
            _ => return self.filter_each(frames, filter, bytes, seen),
        }
        let past = past_last_feed(bytes, seen);
        let Ok(lines) = from_utf8(&bytes[..past]) else {
            return self.filter_each(frames, filter, bytes, seen);
        };
        self.filter_text(frames, filter, lines)?;
        Ok(past)
    }

    // Adds the output of lines that each end in a line feed, none of which is too long.
    fn filter_text<F: LineFilter>(
        &mut self,
        frames: Frames,
        filter: &F,
        lines: &str,
    ) -> Result<(), AllocError>
        requires feeds { frames.framing ≡ LineFeeds }
        requires short { is_above frames.longest (length lines.now) ≡ false }
        requires closed { EndsInFeed lines.now }
        ensures { AddsFrames frames (taken frames (F.answers filter.now)) lines.now (λ done. [])
            self.old.output.items self.new.output.items self.old.tally self.new.tally result }
    {
        let mut rest = lines;
        while !rest.is_empty() {
            let (message, after) = first_text_line(rest);
            let line = frames.text_line(message);
            let is_answered = filter.filter_line(
                self.alloc,
                line,
                &mut self.text,
                &mut self.output,
            )?;
            self.tally.count(is_answered);
            rest = after;
        }
        Ok(())
    }

    // Adds the output of the messages of whole frames, frame by frame.
    fn filter_each<F: LineFilter>(
        &mut self,
        frames: Frames,
        filter: &F,
        bytes: &[u8],
        seen: usize,
    ) -> Result<usize, AllocError>
        requires within { seen ≤ length bytes.now }
        requires open { IsOpen frames.framing (take seen bytes.now) }
        ensures within { IfOk result (λ past. past ≤ length bytes.now) }
        ensures open { IfOk result (λ past. IsOpen frames.framing (drop past bytes.now)) }
        ensures adds { AddsFrames frames (taken frames (F.answers filter.now)) bytes.now (λ past. drop past bytes.now)
            self.old.output.items self.new.output.items self.old.tally self.new.tally result }
    {
        let mut past = 0;
        let mut known = seen;
        while let Some((message, size)) = whole_frame(frames.framing, &bytes[past..], known) {
            self.filter_message(frames, filter, message)?;
            past += size;
            known = 0;
        }
        Ok(past)
    }

    // Adds the output of a message, and counts it.
    fn filter_message<F: LineFilter>(
        &mut self,
        frames: Frames,
        filter: &F,
        message: &[u8],
    ) -> Result<(), AllocError>
        ensures { Adds frames (taken frames (F.answers filter.now)) (message.now ∷ []) self.old.output.items
            self.new.output.items self.old.tally self.new.tally result }
    {
        let line = frames.line(message);
        if frames.is_too_long(line.len()) {
            self.tally.count_long();
            return Ok(());
        }
        match from_utf8(line) {
            Ok(text) => {
                let is_answered = filter.filter_line(
                    self.alloc,
                    text,
                    &mut self.text,
                    &mut self.output,
                )?;
                self.tally.count(is_answered);
            }
            Err(_) => {
                let is_answered = filter.filter_bytes(self.alloc, line, &mut self.output)?;
                self.tally.count_invalid(is_answered);
            }
        }
        Ok(())
    }
}
