ghost use Rattle.std.specs.Prelude.{◌≡◌, ◌+◌, ◌<◌, ◌≤◌, true, false, length, take, IfOk, OnOk, OnErr};
ghost use Rattle.std.specs.Io.{ReadsAtMost, WritesAtMost};
ghost use Rattle.std.specs.Io.KnownBytes.{ReadConsumes, WriteAppends, Appends, Keeps};
ghost use Rattle.ak_faults.specs.Causes.{HasCause, Rose};
ghost use Rattle.ak_io.specs.Ends.{uncertain};

use crate::traits::{End, Failed, Sink, Source};
use std::io::{Error, ErrorKind, Read, Write};
use std::marker::Model;

/// How many times in a row a call is made again that a signal interrupted.
pub const TRIES: u32 = 1000;

/// A source over a reader of std.
#[derive(Drop)]
pub struct StdSource<R> {
    inner: R,
    faults: u64,
}

impl<R> Model for StdSource<R> {
    ghost use Rattle.std.specs.Prelude.{ℕ};

    ghost Value = { R × ℕ };

    ghost view = { λ source. (source.inner, source.faults) };
}

impl<R> StdSource<R> {
    /// A source over this reader. It counts no fault yet.
    pub fn new(inner: R) -> StdSource<R>
        ensures { result ≡ (inner, 0) }
    {
        StdSource { inner, faults: 0 }
    }
}

impl<R> End for StdSource<R> {
    ghost health = { λ source. uncertain source.1 };

    fn faults(&self) -> u64 {
        self.faults
    }
}

impl<R: Read> Source for StdSource<R> {
    ghost left = { λ source. R.remaining source.0 };

    fn read(&mut self, into: &mut [u8]) -> Result<usize, Failed>
        ensures bound { ReadsAtMost result into.new }
        ensures bytes { ReadConsumes (R.remaining self.old.0) (R.remaining self.new.0) result into.new }
        ensures cause { HasCause (uncertain self.old.1) (uncertain self.new.1) result }

        // A fault is counted only where it is answered.
        ensures calm { OnOk result (self.new.1 ≡ self.old.1) }
    {
        match read_retrying(&mut self.inner, into) {
            Ok(count) => return Ok(count),
            Err(_) => {
                self.faults = self.faults.saturating_add(1);
                return Err(Failed);
            }
        }
    }
}

/// A read, made again if a signal interrupted it.
fn read_retrying<R: Read>(reader: &mut R, into: &mut [u8]) -> Result<usize, Failed>
    ensures bound { ReadsAtMost result into.new }
    ensures bytes { ReadConsumes (R.remaining reader.old) (R.remaining reader.new) result into.new }
{
    for _ in 0..TRIES {
        match reader.read(into) {
            Ok(count) => return Ok(count),
            Err(error) => {
                if !is_interrupted(&error) {
                    return Err(Failed);
                }
            }
        }
    }
    Err(Failed)
}

/// Whether a signal interrupted the call, so that it may be made again.
fn is_interrupted(error: &Error) -> bool {
    error.kind() == ErrorKind::Interrupted
}

/// A sink over a writer of std. Each write is flushed, so that what was written has left; a flush that fails
/// shows in the count of faults alone, since its bytes were taken.
#[derive(Drop)]
pub struct StdSink<W> {
    inner: W,
    faults: u64,
}

impl<W> Model for StdSink<W> {
    ghost use Rattle.std.specs.Prelude.{ℕ};

    ghost Value = { W × ℕ };

    ghost view = { λ sink. (sink.inner, sink.faults) };
}

impl<W> StdSink<W> {
    /// A sink over this writer. It counts no fault yet.
    pub fn new(inner: W) -> StdSink<W>
        ensures { result ≡ (inner, 0) }
    {
        StdSink { inner, faults: 0 }
    }
}

impl<W> End for StdSink<W> {
    ghost health = { λ sink. uncertain sink.1 };

    fn faults(&self) -> u64 {
        self.faults
    }
}

impl<W: Write> Sink for StdSink<W> {
    ghost written = { λ sink. W.contents sink.0 };

    fn write(&mut self, from: &[u8]) -> Result<usize, Failed>
        ensures bound { WritesAtMost result from.now }
        ensures bytes { WriteAppends (W.contents self.old.0) (W.contents self.new.0) result from.now }
        ensures cause { HasCause (uncertain self.old.1) (uncertain self.new.1) result }
        ensures stuck { IfOk result (λ n. n ≡ 0 → 0 < length from.now → Rose (uncertain self.old.1) (uncertain self.new.1)) }
        ensures moves { (uncertain self.old.1).calm ≡ true → IfOk result (λ n. 0 < length from.now → 0 < n) }

        // A write counts one fault at most.
        ensures most { self.new.1 ≤ self.old.1 + 1 }
    {
        match write_retrying(&mut self.inner, from) {
            Ok((count, is_whole)) => {
                if !is_whole {
                    self.faults = self.faults.saturating_add(1);
                }
                return Ok(count);
            }
            Err(_) => {
                self.faults = self.faults.saturating_add(1);
                return Err(Failed);
            }
        }
    }
}

/// A write and a flush, and whether both did what they were to do. The write is made again if a signal
/// interrupted it.
fn write_retrying<W: Write>(writer: &mut W, from: &[u8]) -> Result<(usize, bool), Failed>
    ensures bound { IfOk result (λ taken. taken.0 ≤ length from.now) }
    ensures ok { IfOk result (λ taken. Appends (W.contents writer.old) (W.contents writer.new) (take taken.0 from.now)) }
    ensures err { OnErr result (Keeps (W.contents writer.old) (W.contents writer.new)) }
    ensures stuck { IfOk result (λ taken. taken.0 ≡ 0 → 0 < length from.now → taken.1 ≡ false) }
{
    for _ in 0..TRIES {
        match writer.write(from) {
            Ok(count) => {
                let is_flushed = writer.flush().is_ok();
                return Ok((count, is_flushed && (count > 0 || from.is_empty())));
            }
            Err(error) => {
                if !is_interrupted(&error) {
                    return Err(Failed);
                }
            }
        }
    }
    Err(Failed)
}
