//! The flags that a program may have.
ghost use Rattle.std.specs.Prelude.{◌≡◌, ◌≢◌, ◌↔◌, All, Contains, IsTrue, MatchOption};
ghost use Rattle.syslog_command_line.specs.Flags.{IsValue, flag_word, rival, takes_value};

use crate::dates::read_offset;
use crate::values::{read_severity, read_size};
use syslog_loose::zone_of_rule;

/// A flag that a program may have. Each program says which of them it has.
#[derive(Clone, Copy)]
pub enum Flag {
    /// `--raw`: the output also has each line as it came.
    Raw,
    /// `--no-dialects`: no line is read in a dialect.
    NoDialects,
    /// `--latin1`: a line that is not UTF-8 is decoded as ISO 8859-1.
    Latin1,
    /// `--offset OFFSET`: the zone of dates that show none, as `+HH:MM`.
    Offset,
    /// `--zone RULE`: the zone of dates that show none, as a POSIX rule.
    Zone,
    /// `--nul`: each line of the input ends in a NUL.
    Nul,
    /// `--octet-counted`: each line of the input begins with its length.
    OctetCounted,
    /// `--max-line BYTES`: the length of the longest line that is read.
    MaxLine,
    /// `--severity NAME`: only messages of that severity or a worse one are written.
    Severity,
    /// `--host NAME`: only messages of that host are written.
    Host,
    /// `--app NAME`: only messages of that app name are written.
    App,
    /// `--csv`: each message is written as a line of CSV.
    Csv,
}

/// How many flags there are.
pub(crate) const FLAGS: usize = 12;

impl Flag {
    /// Returns the word of a command line that gives this flag, as `--raw`.
    pub fn word(self) -> &'static str
        ensures { result.now ≡ flag_word self }
    {
        match self {
            Flag::Raw => "--raw",
            Flag::NoDialects => "--no-dialects",
            Flag::Latin1 => "--latin1",
            Flag::Offset => "--offset",
            Flag::Zone => "--zone",
            Flag::Nul => "--nul",
            Flag::OctetCounted => "--octet-counted",
            Flag::MaxLine => "--max-line",
            Flag::Severity => "--severity",
            Flag::Host => "--host",
            Flag::App => "--app",
            Flag::Csv => "--csv",
        }
    }

    /// Returns whether the flag takes a value, which is the next word.
    pub(crate) fn takes_value(self) -> bool
        ensures { result ≡ takes_value self }
    {
        match self {
            Flag::Offset | Flag::Zone | Flag::MaxLine | Flag::Severity | Flag::Host | Flag::App =>
                true,
            _ => false,
        }
    }

    /// Returns the flag that contradicts this one, so that not both can be given; this one if there is none.
    pub(crate) fn rival(self) -> Flag
        ensures { result ≡ rival self }
    {
        match self {
            Flag::Nul => Flag::OctetCounted,
            Flag::OctetCounted => Flag::Nul,
            Flag::Offset => Flag::Zone,
            Flag::Zone => Flag::Offset,
            _ => self,
        }
    }

    /// Returns whether the text can be the value of the flag. The value of a flag that takes none is empty.
    pub(crate) fn is_value(self, text: &str) -> bool
        ensures { IsTrue result ↔ IsValue self text.now }
    {
        match self {
            Flag::Offset => read_offset(text).is_some(),
            Flag::Zone => zone_of_rule(text).is_some(),
            Flag::MaxLine => read_size(text).is_some(),
            Flag::Severity => read_severity(text).is_some(),
            Flag::Host | Flag::App => true,
            _ => text.is_empty(),
        }
    }
}

/// Returns the flag among `flags` that the word gives, if it gives one.
pub(crate) fn find_flag(flags: &[Flag], word: &str) -> Option<Flag>
    ensures { MatchOption result (All (λ flag. flag_word flag ≢ word.now) flags.now)
        (λ flag. Contains flags.now flag × (flag_word flag ≡ word.now)) }
{
    for flag in flags {
        if flag.word() == word {
            return Some(*flag);
        }
    }
    None
}
