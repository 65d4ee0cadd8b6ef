//! The program's arguments.
ghost use Rattle.std.specs.Prelude.{◌≡◌, ◌++◌, Bool, IfSome, List, MatchOption, ℕ, ℤ, drop, map, string_bytes};
ghost use Rattle.std.specs.Vec.Iter.{into_iter_items};
ghost use Rattle.syslog_tidy.specs.Arguments.{AreArguments, AskForLines, AsksFor, OnlyFlag, flags_of};
ghost use Rattle.syslog_tidy.specs.declared.args.Output.{Output};
ghost use Rattle.syslog_tidy.specs.declared.args.Task.{Task};

use std::env;
use std::env::Args;
use syslog_command_line::{is_alone, read_year, read_year_words};

/// Which lines are wanted.
#[derive(Clone, Copy, PartialEq, Eq)]
pub enum Output {
    /// Each line that is a message, in its stable printed form.
    Settled,
    /// Each line that reads differently under the two rules of the dash, as it came.
    Changed,
    /// Each line that has no stable printed form, as it came.
    Refused,
}

/// What the program is asked for.
#[derive(Clone, Copy)]
pub enum Task {
    /// To write how it is called.
    Help,
    /// To write its version.
    Version,
    /// To write these lines, with dates completed in this year.
    Lines(Output, i32),
}

/// Reads `YEAR` or `--changed YEAR`. Returns whether the lines that changed are wanted, and the year; none for other
/// words.
pub fn read_args(args: &[&str]) -> Option<(bool, i32)>
    ensures { MatchOption result ((changed : Bool) (year : ℤ)
        → ¬ (AreArguments (map (λ arg. arg.now) args.now) changed year))
        (λ x. AreArguments (map (λ arg. arg.now) args.now) x.0 x.1) }
{
    match args {
        [year] => Some((false, read_year(year)?)),
        [word, year] if *word == "--changed" => Some((true, read_year(year)?)),
        _ => None,
    }
}

// Returns the output that the first word asks for, and the words after it, or all words if it is no flag.
fn read_flag<'a, 'b>(args: &'a [&'b str]) -> (Output, &'a [&'b str])
    ensures split { map (λ arg. arg.now) args.now ≡ flags_of result.0 ++ map (λ arg. arg.now) result.1.now }
    ensures only { OnlyFlag (map (λ arg. arg.now) args.now) result.0 }
{
    match args {
        [word, rest @ ..] if *word == "--changed" => (Output::Changed, rest),
        [word, rest @ ..] if *word == "--refused" => (Output::Refused, rest),
        _ => (Output::Settled, args),
    }
}

/// Reads `YEAR`, `--changed YEAR` or `--refused YEAR`, with or without `--` before the year. Returns none for other
/// words.
fn read_lines(args: &[&str]) -> Option<(Output, i32)>
    ensures { MatchOption result ((output : Output) (year : ℤ)
        → ¬ (AskForLines (map (λ arg. arg.now) args.now) output year))
        (λ x. AskForLines (map (λ arg. arg.now) args.now) x.0 x.1) }
{
    match read_args(args) {
        Some((false, year)) => return Some((Output::Settled, year)),
        Some((true, year)) => return Some((Output::Changed, year)),
        None => {}
    }
    let (output, words) = read_flag(args);
    let year = read_year_words(words)?;
    Some((output, year))
}

/// Reads the words after the program's name: `--help` or `--version` alone, or what `read_lines` reads.
pub fn read_task(args: &[&str]) -> Option<Task>
    ensures { MatchOption result ((task : Task) → ¬ (AsksFor (map (λ arg. arg.now) args.now) task))
        (λ task. AsksFor (map (λ arg. arg.now) args.now) task) }
{
    if is_alone(args, "--help") {
        return Some(Task::Help);
    }
    if is_alone(args, "--version") {
        return Some(Task::Version);
    }
    let (output, year) = read_lines(args)?;
    Some(Task::Lines(output, year))
}

/// Reads the program's arguments by `read_task`, and returns none if the host has none. The host's contract doesn't say
/// which words these are, so `tests/program` tries it.
pub fn arguments(rt: &HostRuntime) -> Option<Task>
    ensures { IfSome result (λ task. (words : List (List ℕ)) × AsksFor words task) }
{
    read_words(env::args(rt).ok()?)
}

// Reads the words after the program's name by `read_task`.
fn read_words(mut words: Args) -> Option<Task>
    ensures { MatchOption result ((task : Task)
        → ¬ (AsksFor (drop 1 (map (λ word. string_bytes word) (into_iter_items words))) task))
        (λ task. AsksFor (drop 1 (map (λ word. string_bytes word) (into_iter_items words))) task) }
{
    words.next()?;
    let first = words.next()?;
    let Some(second) = words.next() else {
        return read_task(&[first.as_str()]);
    };
    let Some(third) = words.next() else {
        return read_task(&[first.as_str(), second.as_str()]);
    };
    if words.next().is_some() {
        return None;
    }
    read_task(&[first.as_str(), second.as_str(), third.as_str()])
}
