//! What filters count, and how they end.
//!
//! **Rule.** What is counted is this project's own choice, stated in `specs/Output.antt`.
use std::alloc::AllocError;
use thiserror::Error;

/// How many lines a run read, and how many of them it refused. The counts saturate.
#[derive(Clone, Copy, Debug, PartialEq, Eq)]
pub struct Summary {
    /// The number of lines.
    pub lines: u64,
    /// The number of lines that are no message: those that are not UTF-8, and those that do not parse.
    pub refused: u64,
}

/// What became of the lines of a run. The counts saturate.
#[derive(Clone, Copy, Debug, PartialEq, Eq)]
pub struct LineCounts {
    /// The number of lines.
    pub lines: u64,
    /// The number of lines that are no message.
    pub refused: u64,
    /// The number of those lines that are no message and not UTF-8.
    pub refused_invalid: u64,
    /// The number of those lines that are too long, so that nobody looked at their bytes. They count as no message.
    pub too_long: u64,
    /// The number of messages that have U+FFFD for what is not UTF-8.
    pub replaced: u64,
}

/// How many lines a filter answered, and how many it skipped. The counts saturate.
#[derive(Clone, Copy)]
pub struct Tally {
    /// The number of lines for which the filter returned `true`.
    pub answered: u64,
    /// The number of lines for which the filter returned `false`.
    pub skipped: u64,
    /// The number of lines that were answered and are not UTF-8.
    pub answered_invalid: u64,
    /// The number of lines that were skipped and are not UTF-8.
    pub skipped_invalid: u64,
    /// The number of lines that were skipped because they are too long.
    pub too_long: u64,
}

impl Tally {
    ghost use Rattle.std.specs.Prelude.{◌≡◌, ◌+◌, ◌-◌, if◌then◌else◌};
    ghost use Rattle.syslog_lines.specs.Count.{held_count};
    ghost use Rattle.syslog_lines.specs.Place.{CountsLong};

    /// Returns the counts of no lines.
    pub fn new() -> Tally
        ensures answered { result.answered ≡ 0 }
        ensures skipped { result.skipped ≡ 0 }
        ensures answered_invalid { result.answered_invalid ≡ 0 }
        ensures skipped_invalid { result.skipped_invalid ≡ 0 }
        ensures too_long { result.too_long ≡ 0 }
    {
        Tally {
            answered: 0,
            skipped: 0,
            answered_invalid: 0,
            skipped_invalid: 0,
            too_long: 0,
        }
    }

    /// Counts a line that is too long.
    pub fn count_long(&mut self)
        ensures { CountsLong self.old self.new }
    {
        self.skipped = self.skipped.saturating_add(1);
        self.too_long = self.too_long.saturating_add(1);
    }

    /// Counts a line that is UTF-8, as answered or as skipped.
    #[inline]
    pub fn count(&mut self, is_answered: bool)
        ensures answered { self.new.answered ≡ held_count (self.old.answered + (if is_answered then 1 else 0)) }
        ensures skipped { self.new.skipped
            ≡ held_count (self.old.skipped + (if is_answered then 0 else 1)) }
        ensures answered_invalid { self.new.answered_invalid ≡ self.old.answered_invalid }
        ensures skipped_invalid { self.new.skipped_invalid ≡ self.old.skipped_invalid }
        ensures too_long { self.new.too_long ≡ self.old.too_long }
    {
        self.answered = self.answered.saturating_add(u64::from(is_answered));
        self.skipped = self.skipped.saturating_add(u64::from(!is_answered));
    }

    /// Counts a line that is not UTF-8, as answered or as skipped.
    pub fn count_invalid(&mut self, is_answered: bool)
        ensures answered { self.new.answered ≡ held_count (self.old.answered + (if is_answered then 1 else 0)) }
        ensures skipped { self.new.skipped
            ≡ held_count (self.old.skipped + (if is_answered then 0 else 1)) }
        ensures answered_invalid { self.new.answered_invalid
            ≡ held_count (self.old.answered_invalid + (if is_answered then 1 else 0)) }
        ensures skipped_invalid { self.new.skipped_invalid
            ≡ held_count (self.old.skipped_invalid + (if is_answered then 0 else 1)) }
        ensures too_long { self.new.too_long ≡ self.old.too_long }
    {
        self.count(is_answered);
        self.answered_invalid = self.answered_invalid.saturating_add(u64::from(is_answered));
        self.skipped_invalid = self.skipped_invalid.saturating_add(u64::from(!is_answered));
    }

    /// Returns the counts for a filter by which a line is answered exactly if it is a message. If lines that are not
    /// UTF-8 were decoded as ISO 8859-1, nothing was replaced.
    pub fn counts(&self, is_latin1: bool) -> LineCounts
        ensures lines { result.lines ≡ held_count (self.now.answered + self.now.skipped) }
        ensures refused { result.refused ≡ self.now.skipped }
        ensures refused_invalid { result.refused_invalid ≡ self.now.skipped_invalid }
        ensures too_long { result.too_long ≡ self.now.too_long }
        ensures replaced { result.replaced ≡ (if is_latin1 then 0 else self.now.answered_invalid) }
    {
        LineCounts {
            lines: self.lines(),
            refused: self.skipped,
            refused_invalid: self.skipped_invalid,
            too_long: self.too_long,
            replaced: if is_latin1 { 0 } else { self.answered_invalid },
        }
    }

    /// Returns how many lines were counted.
    pub fn lines(&self) -> u64
        ensures { result ≡ held_count (self.now.answered + self.now.skipped) }
    {
        self.answered.saturating_add(self.skipped)
    }
}

/// Why a filter ended before the end of its input. The number is the discriminant.
#[derive(Clone, Copy, Debug, PartialEq, Eq, Error)]
pub enum RunFault {
    /// A read failed.
    #[error("read failed")]
    Read = 1,
    /// A write failed, or took nothing.
    #[error("write failed")]
    Write = 2,
    /// An allocation failed.
    #[error("out of memory")]
    Memory = 3,
}

impl From<AllocError> for RunFault {
    ghost use Rattle.std.specs.Prelude.{◌≡◌};
    ghost use Rattle.syslog_lines.specs.declared.summary.RunFault.TheVariants.{Memory};

    ghost from_gives = { λ _ fault. fault ≡ Memory };

    fn from(_refused: AllocError) -> RunFault {
        RunFault::Memory
    }
}
