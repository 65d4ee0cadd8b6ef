//! Lines through a filter, from a reader to a writer: what no clause says of them. (Streams that give or take little,
//! or fail, are tried with the programs, by tests/streams.)
ghost use Rattle.std.specs.Prelude.{⊤};

use super::checks::check;
use std::alloc::{AllocError, Global};
use std::io;
use std::io::{Error, ErrorKind, Write};
use std::test::Fail;
use syslog_command_line::report::report;
use syslog_lines::pump::pump;
use syslog_lines::{Frames, LineFilter, RunFault, Summary, Watched, push_line};

/// Writes each line as it came, or none.
#[derive(Drop)]
struct Echo {
    writes: bool,
}

impl LineFilter for Echo {
    ghost answers = { λ _. record { Answers = λ line answer. ⊤; Wants = λ line. ⊤ } };

    fn filter_line(
        &self,
        _: Global,
        line: &str,
        _: &mut String,
        output: &mut Vec<u8>,
    ) -> Result<bool, AllocError> {
        if !self.writes {
            return Ok(false);
        }
        push_line(output, line.as_bytes())?;
        Ok(true)
    }

    fn filter_bytes(
        &self,
        _: Global,
        line: &[u8],
        output: &mut Vec<u8>,
    ) -> Result<bool, AllocError> {
        if !self.writes {
            return Ok(false);
        }
        push_line(output, line)?;
        Ok(true)
    }
}

/// Counts the bytes that it takes, and its flushes, which may fail.
#[derive(Drop)]
struct Taker {
    taken: usize,
    flushes: u64,
    flush_fails: bool,
}

impl Write for Taker {
    fn write(&mut self, buf: &[u8]) -> io::Result<usize> {
        self.taken = self.taken.saturating_add(buf.len());
        Ok(buf.len())
    }

    fn flush(&mut self) -> io::Result<()> {
        self.flushes = self.flushes.saturating_add(1);
        if self.flush_fails {
            return Err(Error::from(ErrorKind::Other));
        }
        Ok(())
    }
}

const TWO: &[u8] = b"one\n\xff";

#[test]
fn flushes_once_and_ends_where_no_more_reads_are_counted(rt: HostRuntime) {
    for (writes, calls, flush_fails, want, taken, flushes) in [
        (true, 0, false, None, 6usize, 1),
        (true, 0, true, Some(RunFault::Write), 6, 1),
        (true, u64::MAX, false, Some(RunFault::Read), 0, 0),
        (false, 0, false, None, 0, 1),
        (false, 0, true, Some(RunFault::Write), 0, 1),
    ] {
        let mut reader = Watched::new(TWO);
        reader.calls = calls;
        let mut writer = Watched::new(Taker {
            taken: 0,
            flushes: 0,
            flush_fails,
        });
        let outcome = pump(
            rt.alloc(),
            Frames::plain(),
            &Echo { writes },
            &mut reader,
            &mut writer,
        );
        check(&rt, outcome.err() == want, "outcome");
        check(&rt, writer.inner.taken == taken, "output");
        check(&rt, writer.inner.flushes == flushes, "flushes");
    }
}

#[test]
fn passes_a_megabyte_on(rt: HostRuntime) -> Result<(), Fail> {
    let alloc = rt.alloc();
    let bytes = vec![in alloc; b'x'; 1_048_576]?;
    let mut writer = Watched::new(Vec::new(alloc));
    check(&rt, writer.write(bytes.as_slice())? == 1_048_576, "count");
    check(&rt, !writer.failed, "failed");
    let written = writer.inner.as_slice();
    check(&rt, written == bytes.as_slice(), "output");
    Ok(())
}

#[test]
fn numbers_the_faults(rt: HostRuntime) {
    for (fault, number) in &[
        (RunFault::Read, 1),
        (RunFault::Write, 2),
        (RunFault::Memory, 3),
    ] {
        check(&rt, *fault as i32 == *number, "the number of a fault");
    }
}

#[test]
fn says_how_it_ended(rt: HostRuntime) {
    let last = u64::MAX;
    let none: &[u8] = b"";
    let most: &[u8] = b"refused 18446744073709551615 of 18446744073709551615 lines\n";
    for (outcome, status, said) in [
        (Ok((3, 0)), 0, none),
        (Ok((3, 1)), 1, b"refused 1 of 3 lines\n"),
        (Ok((last, last)), 1, most),
        (Err(RunFault::Read), 2, b"read failed\n"),
        (Err(RunFault::Write), 2, b"write failed\n"),
        (Err(RunFault::Memory), 2, b"out of memory\n"),
    ] {
        let mut errors = Watched::new(Vec::new(rt.alloc()));
        let outcome = outcome.map(|(lines, refused)| Summary { lines, refused });
        check(&rt, report(&outcome, &mut errors) == status, "status");
        check(&rt, errors.inner.as_slice() == said, "text");
    }
}
