//! What no clause says of `run` and `changed`: that each run flushes once, and what was written if it ends early. Also
//! what the program never asks of its functions: the words and the reports of another caller.
use crate::{Changed, RunFault, Watched, changed, read_args, report_changed, run};
use std::alloc::Global;
use std::io;
use std::io::{Error, ErrorKind, Write};

const TWO: &[u8] =
    b"<34>1 2003-10-11T22:14:15.003Z mymachine.example.com su - ID47 - message\n<200>1 - - - - - -\n";

const TWO_PRINTED: &[u8] =
    b"<34>1 2003-10-11T22:14:15.003+00:00 mymachine.example.com su - ID47 - message\n<40>1 - - - - - - \n";

const DASHED: &[u8] = b"<34>Oct 11 22:14:15 mymachine app: -5 degrees\n";

const BAD: &[u8] = b"gobbledegook\n";

/// Keeps what it takes, and counts its flushes, which may fail.
#[derive(Drop)]
struct Taker {
    taken: Vec<u8>,
    flushes: u64,
    flush_fails: bool,
}

impl Write for Taker {
    fn write(&mut self, buf: &[u8]) -> io::Result<usize> {
        self.taken.write(buf)
    }

    fn flush(&mut self) -> io::Result<()> {
        self.flushes = self.flushes.saturating_add(1);
        if self.flush_fails {
            return Err(Error::from(ErrorKind::Other));
        }
        Ok(())
    }
}

impl Taker {
    fn new(alloc: Global, flush_fails: bool) -> Taker {
        Taker {
            taken: Vec::new(alloc),
            flushes: 0,
            flush_fails,
        }
    }
}

// Whether it wrote this, and was flushed so often.
fn has_taken(writer: &Watched<Taker>, written: &[u8], flushes: u64) -> bool {
    writer.inner.taken.as_slice() == written && writer.inner.flushes == flushes
}

#[test]
fn run_flushes_once_and_ends_where_no_more_reads_are_counted(rt: HostRuntime) {
    for (input, calls, flush_fails, want, written, flushes) in [
        (TWO, 0, false, None, TWO_PRINTED, 1),
        (TWO, 0, true, Some(RunFault::Write), TWO_PRINTED, 1),
        (TWO, u64::MAX, false, Some(RunFault::Read), b"", 0),
        (b"", 0, true, Some(RunFault::Write), b"", 1),
        (BAD, 0, false, None, b"", 1),
    ] {
        let mut reader = Watched::new(input);
        reader.calls = calls;
        let mut writer = Watched::new(Taker::new(rt.alloc(), flush_fails));
        let outcome = run(rt.alloc(), &mut reader, &mut writer, 2019);
        let same = outcome.err() == want && has_taken(&writer, written, flushes);
        assert!(rt; same, "{want:?}");
    }
}

#[test]
fn changed_flushes_once(rt: HostRuntime) {
    for (input, flush_fails, want, written) in [
        (DASHED, false, None, DASHED),
        (DASHED, true, Some(RunFault::Write), DASHED),
        (TWO, false, None, b""),
    ] {
        let mut reader = Watched::new(input);
        let mut writer = Watched::new(Taker::new(rt.alloc(), flush_fails));
        let outcome = changed(rt.alloc(), &mut reader, &mut writer, 2019);
        let same = outcome.err() == want && has_taken(&writer, written, 1);
        assert!(rt; same, "{want:?}");
    }
}

#[test]
fn reads_a_year_and_changed(rt: HostRuntime) {
    let lists: [(&[&str], Option<(bool, i32)>); 9] = [
        (&[], None),
        (&["--changed"], None),
        (&["2019"], Some((false, 2019))),
        (&["--changed", "2019"], Some((true, 2019))),
        (&["--changed", "0007"], Some((true, 7))),
        (&["--refused", "2019"], None),
        (&["--", "2019"], None),
        (&["--help"], None),
        (&["2019", "--changed"], None),
    ];
    for (words, want) in lists {
        assert!(rt; read_args(words) == want, "{words:?}");
    }
}

#[test]
fn says_how_many_lines_changed(rt: HostRuntime) {
    let most = u64::MAX;
    let said: &[u8] = b"changed 18446744073709551615 of 18446744073709551615 lines\n";
    for (outcome, status, said) in [
        (Ok((3, 0)), 0, b"".as_slice()),
        (Ok((3, 1)), 1, b"changed 1 of 3 lines\n"),
        (Ok((most, most)), 1, said),
        (Err(RunFault::Memory), 2, b"out of memory\n"),
    ] {
        let mut errors = Watched::new(Vec::new(rt.alloc()));
        let outcome = outcome.map(|(lines, changed)| Changed { lines, changed });
        let same = report_changed(&outcome, &mut errors) == status
            && errors.inner.as_slice() == said;
        assert!(rt; same, "{status}");
    }
}
