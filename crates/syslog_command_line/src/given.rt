//! The flags that were given.
ghost use Rattle.std.specs.Prelude.{◌≡◌, ◌↔◌, [], IsTrue, None, Some, is_some, slice_set};
ghost use Rattle.syslog_command_line.specs.Flags.{flag_number, rival};
ghost use Rattle.syslog_command_line.specs.Given.{Holds, value_at};

use crate::flags::{FLAGS, Flag};

/// The flags that were given, each with its value.
#[derive(Clone, Copy)]
pub(crate) struct Given<'a> {
    values: [Option<&'a str>; FLAGS],
}

impl<'a> Given<'a> {
    /// Returns the state in which no flag was given.
    pub(crate) fn new() -> Given<'a>
        ensures { Holds result [] }
    {
        Given {
            values: [None; FLAGS],
        }
    }

    /// Returns the value that was given with the flag, which is empty if the flag takes none; none if the flag was not
    /// given.
    pub(crate) fn value(&self, flag: Flag) -> Option<&'a str>
        ensures { result ≡ value_at self.now flag }
    {
        self.values[flag as usize]
    }

    /// Returns whether the flag was given.
    pub(crate) fn has(&self, flag: Flag) -> bool
        ensures { result ≡ is_some (value_at self.now flag) }
    {
        self.value(flag).is_some()
    }

    /// Returns whether neither the flag nor one that contradicts it was given.
    pub(crate) fn allows(&self, flag: Flag) -> bool
        ensures { IsTrue result
            ↔ ((value_at self.now flag ≡ None) × (value_at self.now (rival flag) ≡ None)) }
    {
        !self.has(flag) && !self.has(flag.rival())
    }

    /// Adds the flag with its value.
    pub(crate) fn add(&mut self, flag: Flag, value: &'a str)
        ensures { self.new.values ≡ slice_set self.old.values (flag_number flag) (Some value.entry) }
    {
        self.values[flag as usize] = Some(value);
    }
}
