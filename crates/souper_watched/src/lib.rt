//! A stream that records whether a call of it has failed, and a reader also whether it has ended.
#![tactic(auto)]

ghost use Rattle.std.specs.Prelude.{◌≡◌, ◌<◌, ◌==◌, ◌&&◌, ◌||◌, not, length, true, false, IfOk, OnOk, OnErr};
ghost use Rattle.std.specs.Io.{ReadsAtMost, WritesAtMost};
ghost use Rattle.std.specs.Io.KnownBytes.{Appends, Keeps, ReadConsumes, WriteAppends};
ghost use Rattle.souper_watched.specs.Watching.{watched_inner, has_failed, has_ended};

use std::io;
use std::io::{ErrorKind, Read, Write};

/// A reader or a writer that records how its calls ended.
#[derive(Drop)]
pub struct Watched<S> {
    inner: S,
    failed: bool,
    ended: bool,
}

impl<S> Watched<S> {
    /// Wraps the stream. No call of it counts as failed yet, and it has not ended.
    pub fn new(inner: S) -> Watched<S>
        ensures inner { watched_inner result ≡ inner }
        ensures failed { has_failed result ≡ false }
        ensures ended { has_ended result ≡ false }
    {
        Watched {
            inner,
            failed: false,
            ended: false,
        }
    }

    /// True from the first failed call on.
    pub fn failed(&self) -> bool
        ensures { result ≡ has_failed self.now }
    {
        self.failed
    }

    /// True from the first read on that succeeded and read no byte into a buffer that is not empty.
    pub fn ended(&self) -> bool
        ensures { result ≡ has_ended self.now }
    {
        self.ended
    }
}

impl<R: Read> Read for Watched<R> {
    ghost remaining = { λ w. R.remaining (watched_inner w) };

    fn read(&mut self, buf: &mut [u8]) -> io::Result<usize>
        ensures bound { ReadsAtMost result buf.new }
        ensures bytes { ReadConsumes (R.remaining (watched_inner self.old)) (R.remaining (watched_inner self.new)) result buf.new }
        ensures ok { OnOk result (has_failed self.new ≡ has_failed self.old) }
        ensures ended { IfOk result (λ n. has_ended self.new ≡ (has_ended self.old || (n == 0 && not (length buf.old == 0)))) }
        ensures err { OnErr result (has_failed self.new ≡ true) }
        ensures stays { OnErr result (has_ended self.new ≡ has_ended self.old) }
    {
        match self.inner.read(buf) {
            Ok(count) => {
                if count == 0 && !buf.is_empty() {
                    self.ended = true;
                }
                Ok(count)
            }
            Err(fault) => {
                self.failed = true;
                Err(fault)
            }
        }
    }
}

impl<W: Write> Write for Watched<W> {
    ghost contents = { λ w. W.contents (watched_inner w) };

    /// A write that takes nothing of a text that is not empty counts as failed.
    fn write(&mut self, buf: &[u8]) -> io::Result<usize>
        ensures bound { WritesAtMost result buf.now }
        ensures bytes { WriteAppends (W.contents (watched_inner self.old)) (W.contents (watched_inner self.new)) result buf.now }
        ensures ok { OnOk result (has_failed self.new ≡ has_failed self.old) }
        ensures some { IfOk result (λ n. 0 < length buf.now → 0 < n) }
        ensures err { OnErr result (has_failed self.new ≡ true) }
        ensures ended { has_ended self.new ≡ has_ended self.old }
    {
        match self.inner.write(buf) {
            Ok(count) => {
                if count == 0 && !buf.is_empty() {
                    self.failed = true;
                    return Err(io::Error::from(ErrorKind::WriteZero));
                }
                Ok(count)
            }
            Err(fault) => {
                self.failed = true;
                Err(fault)
            }
        }
    }

    fn flush(&mut self) -> io::Result<()>
        ensures bytes { Keeps (W.contents (watched_inner self.old)) (W.contents (watched_inner self.new)) }
        ensures ok { OnOk result (has_failed self.new ≡ has_failed self.old) }
        ensures err { OnErr result (has_failed self.new ≡ true) }
        ensures ended { has_ended self.new ≡ has_ended self.old }
    {
        match self.inner.flush() {
            Ok(()) => Ok(()),
            Err(fault) => {
                self.failed = true;
                Err(fault)
            }
        }
    }

    /// Every call that it makes is counted, so it does not retry an interrupted one.
    fn write_all(&mut self, buf: &[u8]) -> io::Result<()>
        ensures bytes { OnOk result (Appends (W.contents (watched_inner self.old)) (W.contents (watched_inner self.new)) buf.now) }
        ensures ok { OnOk result (has_failed self.new ≡ has_failed self.old) }
        ensures err { OnErr result (has_failed self.new ≡ true) }
        ensures ended { has_ended self.new ≡ has_ended self.old }
    {
        let mut rest = buf;
        while !rest.is_empty() {
            let count = self.write(rest)?;
            rest = &rest[count..];
        }
        Ok(())
    }
}
