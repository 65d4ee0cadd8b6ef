//! Writes each syslog line of standard input that is a message to standard output as RFC 5424, in the strict grammar of
//! its section 6.
//!
//! `syslog_5424 2019` writes the line `<34>Oct 11 22:14:15 mymachine app[323]: a message` as `<34>1
//! 2019-10-11T22:14:15+00:00 mymachine app 323 - - a message`. A line that is no message is left out and counted.
#![tactic(auto)]

mod filter;
mod report;

use filter::{Conversions, write_converted};
use report::{HELP, USAGE};
use std::process::ExitCode;
use syslog_choice::Choice;
use syslog_command_line::report::{report_lines, say, say_version};
use syslog_command_line::{Flag, Task, program_words, read_task, refuse_words};
use syslog_lines::{Frames, Watched};
use syslog_loose::VERSION;

// The flags of this program.
const FLAGS: [Flag; 10] = [
    Flag::NoDialects,
    Flag::Latin1,
    Flag::Offset,
    Flag::Zone,
    Flag::Nul,
    Flag::OctetCounted,
    Flag::MaxLine,
    Flag::Severity,
    Flag::Host,
    Flag::App,
];

// Writes the lines of standard input as RFC 5424, and then returns the exit status.
fn filter_input(rt: &HostRuntime, frames: Frames, filter: &Conversions<'_>) -> u8 {
    let mut reader = Watched::new(rt.stdin());
    let mut writer = Watched::new(rt.stdout());
    let outcome = write_converted(rt.alloc(), frames, &mut reader, &mut writer, filter);
    report_lines("syslog_5424", &outcome, &mut Watched::new(rt.stderr()))
}

// Does what the words ask for, and then returns the exit status.
fn run(rt: &HostRuntime, words: &[String]) -> u8 {
    let mut out = Watched::new(rt.stdout());
    let mut errors = Watched::new(rt.stderr());
    match read_task(words, &FLAGS) {
        Ok(Task::Help) => say(HELP, &mut out, &mut errors),
        Ok(Task::Version) => say_version("syslog_5424", VERSION, &mut out, &mut errors),
        Ok(Task::Lines(options)) => {
            let frames = Frames::messages(options.framing, options.max_line);
            let filter = Conversions {
                framing: options.framing,
                dialects: options.dialects,
                latin1: options.latin1,
                dates: options.dates,
                choice: Choice::of(options.severity, options.host, options.app),
            };
            filter_input(rt, frames, &filter)
        }
        Err(wrong) => refuse_words(rt, USAGE, wrong, &mut errors),
    }
}

fn main(rt: HostRuntime) -> ExitCode {
    let status = match program_words(&rt) {
        Ok(words) => run(&rt, &words),
        Err(wrong) => refuse_words(&rt, USAGE, wrong, &mut Watched::new(rt.stderr())),
    };
    ExitCode::from(status)
}
