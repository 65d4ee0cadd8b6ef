//! A reader or a writer that counts its reads, and remembers whether a call failed.
ghost use Rattle.std.specs.Prelude.{◌≡◌, ◌+◌, ◌<◌, ℕ, false, true, IsErr, OnOk, OnErr, IfOk, IfErr, length, take};
ghost use Rattle.std.specs.Io.{ReadsAtMost, WritesAtMost};
ghost use Rattle.std.specs.Io.KnownBytes.{Appends, Keeps, ReadConsumes, WriteAppends};
ghost use Rattle.syslog_lines.specs.declared.summary.RunFault.TheVariants.{Write};

use crate::summary::RunFault;
use std::io;
use std::io::{Error, ErrorKind, Read, Write};

/// A reader or a writer that remembers whether a call failed. All calls are passed on to `inner`.
#[derive(Drop)]
pub struct Watched<T> {
    /// The reader or writer that the calls are passed on to.
    pub inner: T,
    /// How many reads were passed on. When the count is at its largest value no more is read, so that reading ends.
    pub calls: u64,
    /// Whether a call returned an error.
    pub failed: bool,
}

impl<T> Watched<T> {
    /// Returns a reader or a writer that had no call and no failure so far.
    pub fn new(inner: T) -> Watched<T>
        ensures inner { result.inner ≡ inner }
        ensures calls { result.calls ≡ 0 }
        ensures failed { result.failed ≡ false }
    {
        Watched {
            inner,
            calls: 0,
            failed: false,
        }
    }
}

impl<W: Write> Watched<W> {
    /// Writes all of the bytes, or a prefix of them if a write fails.
    pub fn write_whole(&mut self, bytes: &[u8]) -> Result<(), RunFault>
        requires { self.old.failed ≡ false }
        ensures ok { OnOk result (Appends (W.contents self.old.inner) (W.contents self.new.inner) bytes.now) }
        ensures well { OnOk result (self.new.failed ≡ false) }
        ensures fault { IfErr result (λ fault. (fault ≡ Write) × (self.new.failed ≡ true)) }
        ensures err { OnErr result ((size : ℕ)
            × Appends (W.contents self.old.inner) (W.contents self.new.inner) (take size bytes.now)) }
    {
        let mut rest = bytes;
        while !rest.is_empty() {
            match self.write(rest) {
                Ok(count) => rest = &rest[count..],
                Err(_) => return Err(RunFault::Write),
            }
        }
        Ok(())
    }
}

impl<R: Read> Read for Watched<R> {
    ghost remaining = { λ watched. R.remaining watched.inner };

    /// Passes the read on and counts it, or returns an error if no more can be counted.
    fn read(&mut self, buf: &mut [u8]) -> io::Result<usize>
        ensures bound { ReadsAtMost result buf.new }
        ensures bytes { ReadConsumes (R.remaining self.old.inner) (R.remaining self.new.inner) result buf.new }
        ensures ok { OnOk result (self.new.failed ≡ self.old.failed) }
        ensures err { OnErr result (self.new.failed ≡ true) }
        ensures counted { self.old.calls < u64.MAX → self.new.calls ≡ self.old.calls + 1 }
        ensures spent { self.old.calls ≡ u64.MAX → IsErr result × (self.new.inner ≡ self.old.inner)
            × (self.new.calls ≡ self.old.calls) }
        ensures within { OnOk result (self.old.calls < u64.MAX) }
    {
        if self.calls == u64::MAX {
            self.failed = true;
            return Err(Error::from(ErrorKind::Other));
        }
        self.calls += 1;
        let answer = self.inner.read(buf);
        if answer.is_err() {
            self.failed = true;
        }
        answer
    }
}

impl<W: Write> Write for Watched<W> {
    ghost contents = { λ watched. W.contents watched.inner };

    /// Passes the write on. It is an error if none of one or more bytes is taken.
    fn write(&mut self, buf: &[u8]) -> io::Result<usize>
        ensures bound { WritesAtMost result buf.now }
        ensures bytes { WriteAppends (W.contents self.old.inner) (W.contents self.new.inner) result buf.now }
        ensures ok { OnOk result (self.new.failed ≡ self.old.failed) }
        ensures err { OnErr result (self.new.failed ≡ true) }
        ensures some { 0 < length buf.now → IfOk result (λ count. 0 < count) }
        ensures calls { self.new.calls ≡ self.old.calls }
    {
        match self.inner.write(buf) {
            Ok(0) if !buf.is_empty() => {
                self.failed = true;
                Err(Error::from(ErrorKind::WriteZero))
            }
            Ok(count) => Ok(count),
            Err(error) => {
                self.failed = true;
                Err(error)
            }
        }
    }

    /// Passes the flush on.
    fn flush(&mut self) -> io::Result<()>
        ensures bytes { Keeps (W.contents self.old.inner) (W.contents self.new.inner) }
        ensures ok { OnOk result (self.new.failed ≡ self.old.failed) }
        ensures err { OnErr result (self.new.failed ≡ true) }
        ensures calls { self.new.calls ≡ self.old.calls }
    {
        let answer = self.inner.flush();
        if answer.is_err() {
            self.failed = true;
        }
        answer
    }
}
