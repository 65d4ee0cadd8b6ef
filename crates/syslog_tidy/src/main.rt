//! Writes the syslog lines of standard input to standard output: each message in its stable printed form. It can also
//! write the lines that the Rust crate's rule of the dash reads differently, or those that are no message.
//!
//! `syslog_tidy 2019` writes the line `<34>Oct 11 22:14:15 mymachine app[323]: a message` as `<34>
//! 2019-10-11T22:14:15+00:00 mymachine app[323]: a message`.
#![tactic(auto)]

mod args;
mod counts;
mod filters;
mod report;
#[cfg(test)]
mod tests;

pub use args::read_args;
use args::{Output, Task, arguments};
pub use counts::Changed;
pub use filters::{changed, refused, run};
use report::HELP;
pub use report::{report_changed, usage};
use std::process::ExitCode;
pub use syslog_command_line::read_year;
pub use syslog_command_line::report::report;
use syslog_command_line::report::{say, say_version};
pub use syslog_lines::{RunFault, Summary, Watched};
use syslog_loose::VERSION;

// Writes the output that is asked for, and returns the exit status.
fn filter_input(rt: &HostRuntime, output: Output, year: i32) -> u8 {
    let mut reader = Watched::new(rt.stdin());
    let mut writer = Watched::new(rt.stdout());
    let mut errors = Watched::new(rt.stderr());
    match output {
        Output::Settled => {
            let outcome = run(rt.alloc(), &mut reader, &mut writer, year);
            report(&outcome, &mut errors)
        }
        Output::Changed => {
            let outcome = changed(rt.alloc(), &mut reader, &mut writer, year);
            report_changed(&outcome, &mut errors)
        }
        Output::Refused => {
            let outcome = refused(rt.alloc(), &mut reader, &mut writer, year);
            report(&outcome, &mut errors)
        }
    }
}

fn main(rt: HostRuntime) -> ExitCode {
    let mut out = Watched::new(rt.stdout());
    let mut errors = Watched::new(rt.stderr());
    let status = match arguments(&rt) {
        Some(Task::Lines(output, year)) => filter_input(&rt, output, year),
        Some(Task::Help) => say(HELP, &mut out, &mut errors),
        Some(Task::Version) => say_version("syslog_tidy", VERSION, &mut out, &mut errors),
        None => usage(&mut errors),
    };
    ExitCode::from(status)
}
