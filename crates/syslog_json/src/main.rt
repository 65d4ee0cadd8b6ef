//! Writes each syslog line of standard input to standard output as one JSON object on one line.
//!
//! `syslog_json 2019` writes for the line `<34>Oct 11 22:14:15 mymachine app[323]: a message` the object
//! `{"protocol":"RFC3164","facility":"auth","facility_code":4,"severity":"crit","severity_code":2,`
//! `"timestamp":"2019-10-11T22:14:15+00:00","hostname":"mymachine","appname":"app","procid":"323",`
//! `"message":"a message"}`. A line that is no message is written as `{"message":"..","refused":true}`, so that no line
//! is lost. With `--csv` each object is a row of CSV.
#![tactic(auto)]

mod apart;
mod filter;
mod objects;
mod report;
mod rows;

use filter::write_objects;
use objects::Objects;
use report::{HELP, USAGE};
use std::cell::Cell;
use std::process::ExitCode;
use syslog_choice::Choice;
use syslog_command_line::report::{report_lines, say, say_version};
use syslog_command_line::{Flag, Task, program_words, read_task, refuse_words};
use syslog_lines::{Frames, Watched};
use syslog_loose::VERSION;

// The flags of this program.
const FLAGS: [Flag; 12] = [
    Flag::Csv,
    Flag::Raw,
    Flag::NoDialects,
    Flag::Latin1,
    Flag::Offset,
    Flag::Zone,
    Flag::Nul,
    Flag::OctetCounted,
    Flag::MaxLine,
    Flag::Severity,
    Flag::Host,
    Flag::App,
];

// Writes the lines of standard input as JSON or as CSV, and then returns the exit status.
fn filter_input(rt: &HostRuntime, frames: Frames, filter: &Objects<'_>) -> u8 {
    let mut reader = Watched::new(rt.stdin());
    let mut writer = Watched::new(rt.stdout());
    let outcome = write_objects(rt.alloc(), frames, &mut reader, &mut writer, filter);
    report_lines("syslog_json", &outcome, &mut Watched::new(rt.stderr()))
}

// Does what the words ask for, and then returns the exit status.
fn run(rt: &HostRuntime, words: &[String]) -> u8 {
    let mut out = Watched::new(rt.stdout());
    let mut errors = Watched::new(rt.stderr());
    match read_task(words, &FLAGS) {
        Ok(Task::Help) => say(HELP, &mut out, &mut errors),
        Ok(Task::Version) => say_version("syslog_json", VERSION, &mut out, &mut errors),
        Ok(Task::Lines(options)) => {
            let frames = Frames::messages(options.framing, options.max_line);
            let filter = Objects {
                csv: options.csv,
                raw: options.raw,
                dialects: options.dialects,
                latin1: options.latin1,
                dates: options.dates,
                choice: Choice::of(options.severity, options.host, options.app),
                memory: Cell::new(Vec::new(rt.alloc())),
            };
            filter_input(rt, frames, &filter)
        }
        Err(wrong) => refuse_words(rt, USAGE, wrong, &mut errors),
    }
}

fn main(rt: HostRuntime) -> ExitCode {
    let status = match program_words(&rt) {
        Ok(words) => run(&rt, &words),
        Err(wrong) => refuse_words(&rt, USAGE, wrong, &mut Watched::new(rt.stderr())),
    };
    ExitCode::from(status)
}
