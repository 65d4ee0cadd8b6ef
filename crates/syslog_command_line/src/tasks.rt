//! What a program with flags and dates is asked for.
ghost use Rattle.std.specs.Prelude.{◌≡◌, ◌↔◌, ◌⊎◌, ◌∷◌, [], IsTrue, MatchResult};
ghost use Rattle.syslog_command_line.specs.Arguments.{help_word, short_help_word};
ghost use Rattle.syslog_command_line.specs.Tasks.{AsksFor};
ghost use Rattle.syslog_command_line.specs.Words.{IsAmong, texts};
ghost use Rattle.syslog_command_line.specs.declared.tasks.Task.{Task};

use crate::flags::Flag;
use crate::options::{Options, read_options};
use crate::words::{Wrong, after_word};

/// What a program is asked for.
#[derive(Drop)]
pub enum Task<'a> {
    /// To write how it is called.
    Help,
    /// To write its version.
    Version,
    /// To filter the lines of its input, by these options.
    Lines(Options<'a>),
}

/// Returns what the words after the program's name ask for. They are flags of those that are offered, in any order and
/// each at most once, and `[--] YEAR[-MONTH[-DAY]]`; or they are `--help`, `-h` or `--version` alone. Of two flags that
/// contradict each other, as `--offset` and `--zone`, at most one is given.
///
/// For all other words it returns the first one that can't be at its place, or that a year is missing.
pub fn read_task<'a>(words: &'a [String], offered: &[Flag]) -> Result<Task<'a>, Wrong<'a>>
    ensures { MatchResult result (λ task. AsksFor offered.now (texts words.now) task)
        (λ wrong. IsAmong (texts words.now) wrong
        × ((task : Task) → ¬ (AsksFor offered.now (texts words.now) task))) }
{
    if asks_for_help(words) {
        return Ok(Task::Help);
    }
    if is_only(words, "--version") {
        return Ok(Task::Version);
    }
    match read_options(words, offered) {
        Ok(options) => Ok(Task::Lines(options)),
        Err(wrong) => Err(wrong),
    }
}

// Whether the only word is `--help` or `-h`.
fn asks_for_help(words: &[String]) -> bool
    ensures { IsTrue result ↔ ((texts words.now ≡ help_word ∷ []) ⊎ (texts words.now ≡ short_help_word ∷ [])) }
{
    is_only(words, "--help") || is_only(words, "-h")
}

// Whether this is the only word.
fn is_only(words: &[String], wanted: &str) -> bool
    ensures { IsTrue result ↔ (texts words.now ≡ wanted.now ∷ []) }
{
    match after_word(words, wanted) {
        Some(rest) => rest.is_empty(),
        None => false,
    }
}
