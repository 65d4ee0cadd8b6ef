//! What the program reports at its end, and writes about itself.
ghost use Rattle.std.specs.Prelude.{◌≡◌, codes, false};
ghost use Rattle.syslog_command_line.specs.Report.{WritesUnlessFailed, said_of, status_of};
ghost use Rattle.syslog_tidy.specs.Arguments.{usage_line};

use crate::counts::Changed;
use std::io::Write;
use syslog_command_line::report::{refuse, report_count, report_fault};
use syslog_lines::{RunFault, Watched};

/// How the program is called, and what it does.
pub const HELP: &str =
    "usage: syslog_tidy [--changed | --refused] [--] YEAR, or --help, or --version

Reads lines of syslog from standard input, and writes to standard output:
  YEAR            each line that is a message, in its stable printed form:
                  reading and printing it again changes nothing
  --changed YEAR  as they came, the lines that the Rust crate would read
                  differently (a leading `-` in the message)
  --refused YEAR  as they came, the lines that are no message
  --help          this text
  --version       the name and the version of this program
YEAR is one to four digits: the year of dates that have none. Such dates are
taken in UTC. `--` may stand before YEAR.

How many lines were refused or changed is written to standard error at the end.

Status:
  0  no line was refused (YEAR, --refused) or changed (--changed)
  1  some lines were
  2  wrong arguments; or a read or a write failed, or memory ran out
";

/// Writes the usage line, and returns the exit status 2. If the write fails, `errors.failed` is set.
pub fn usage<W: Write>(errors: &mut Watched<W>) -> u8
    requires { errors.old.failed ≡ false }
    ensures status { result ≡ 2 }
    ensures said { WritesUnlessFailed (W.contents errors.old.inner) (W.contents errors.new.inner) errors.new.failed
        usage_line }
{
    refuse("usage: syslog_tidy [--changed] YEAR\n", errors)
}

/// Writes how many lines changed, if any did, or the text of the fault. Returns the exit status: 0 if no line changed,
/// 1 if some did, 2 after a fault. If a write fails, `errors.failed` is set.
pub fn report_changed<W: Write>(outcome: &Result<Changed, RunFault>, errors: &mut Watched<W>) -> u8
    requires { errors.old.failed ≡ false }
    ensures status { result ≡ status_of (λ counts. counts.changed) outcome.now }
    ensures said { WritesUnlessFailed (W.contents errors.old.inner) (W.contents errors.new.inner) errors.new.failed
        (said_of (codes "changed") (λ counts. counts.changed) (λ counts. counts.lines) outcome.now) }
{
    match outcome {
        Ok(counts) => report_count("changed", counts.changed, counts.lines, errors),
        Err(fault) => report_fault(*fault, errors),
    }
}
