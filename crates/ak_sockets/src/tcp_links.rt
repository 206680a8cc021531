ghost use Rattle.std.specs.Prelude.{◌≡◌, ◌<◌, true, length, IfOk};
ghost use Rattle.std.specs.Io.{ReadsAtMost, WritesAtMost};
ghost use Rattle.std.specs.Io.KnownBytes.{ReadConsumes, WriteAppends};
ghost use Rattle.ak_faults.specs.Causes.{HasCause, Rose};
ghost use Rattle.ak_io.specs.Ends.{uncertain, untold};
ghost use Rattle.ak_sockets.specs.Counts.{faults_after};

use crate::buffers::Buffer;
use crate::deadlines::Deadline;
use crate::faults::Faults;
use crate::retries::write_retrying;
use ak_io::{End, Failed, Sink, Source};
use ak_links::Link;
use std::io;
use std::marker::Model;
use std::net::{Net, OpenStream, Shutdown};
use std::time::{Clock, Duration};

/// How many milliseconds a link that is closed waits for bytes that nobody read, or for its peer to end.
const LINGER_MILLIS: u64 = 100;

/// How many seconds such bytes are read away.
const DRAIN_SECONDS: u64 = 2;

/// How often they are read, 4096 bytes at most each time: 1 MiB.
const DRAIN_READS: u32 = 256;

/// A connection over TCP. A read or write that waits longer than the deadline lets it is refused.
#[derive(Drop)]
pub struct TcpLink<'r, R: Net + Clock> {
    rt: &'r R,
    stream: R::Stream,
    deadline: Deadline,
    ahead: Buffer,
    faults: Faults,
}

impl<'r, R: Net + Clock> Model for TcpLink<'r, R> {
    ghost use Rattle.std.specs.Prelude.{ℕ};

    ghost Value = { ℕ };

    ghost view = { λ link. link.faults };
}

impl<'r, R: Net + Clock> TcpLink<'r, R> {
    /// The connection over this stream. It counts no fault yet.
    pub fn new(rt: &'r R, stream: R::Stream, deadline: Deadline) -> TcpLink<'r, R>
        ensures { result ≡ 0 }
    {
        TcpLink {
            rt,
            stream,
            deadline,
            ahead: Buffer::new(),
            faults: Faults::new(),
        }
    }

    /// Ends the connection so that the peer gets all that was written. A socket that is closed with bytes unread
    /// resets the connection, and the peer may lose the reply: such bytes are read away first.
    pub fn close(mut self) {
        if self.stream.shutdown(Shutdown::Write).is_ok() {
            let _ = self.read_away();
        }
    }

    /// Reads away what nobody read, until the peer ends, at most 1 MiB and 2 seconds. If nothing comes it waits no
    /// longer than a moment.
    fn read_away(&mut self) -> io::Result<()> {
        if self.ahead.is_empty() {
            self.deadline = Deadline::of_each(Duration::from_millis(LINGER_MILLIS));
            self.fill()?;
        }
        let most = Duration::from_secs(DRAIN_SECONDS);
        self.deadline = Deadline::of_all(self.rt, most, most)?;
        for _ in 0..DRAIN_READS {
            if self.ahead.is_empty() {
                return Ok(());
            }
            self.fill()?;
        }
        Ok(())
    }

    /// Lets go what was read ahead, and reads ahead what has come, or waits for it.
    fn fill(&mut self) -> io::Result<()>
        ensures { self.new ≡ self.old }
    {
        let wait = self.deadline.next_wait(self.rt)?;
        self.stream.set_read_timeout(Some(wait))?;
        self.ahead.refill(&mut self.stream)
    }

    /// Writes a front of `from`, which is not empty.
    fn send(&mut self, from: &[u8]) -> io::Result<usize>
        ensures bound { WritesAtMost result from.now }
        ensures some { IfOk result (λ count. 0 < count) }
        ensures faults { self.new ≡ self.old }
    {
        let wait = self.deadline.next_wait(self.rt)?;
        self.stream.set_write_timeout(Some(wait))?;
        write_retrying(&mut self.stream, from)
    }
}

impl<'r, R: Net + Clock> End for TcpLink<'r, R> {
    ghost health = { uncertain };

    fn faults(&self) -> u64 {
        self.faults.count()
    }
}

impl<'r, R: Net + Clock> Source for TcpLink<'r, R> {
    ghost left = { untold };

    fn read(&mut self, into: &mut [u8]) -> Result<usize, Failed>
        ensures bound { ReadsAtMost result into.new }
        ensures bytes { ReadConsumes (untold self.old) (untold self.new) result into.new }
        ensures cause { HasCause (uncertain self.old) (uncertain self.new) result }

        // A fault is counted only where it is answered.
        ensures count { self.new ≡ faults_after self.old result }
    {
        // The system would wait for a byte even if none is asked for.
        if into.is_empty() {
            return Ok(0);
        }
        if self.ahead.is_empty() {
            let answer = self.fill();
            self.faults.counted(answer)?;
        }
        Ok(self.ahead.take(into))
    }
}

impl<'r, R: Net + Clock> Sink for TcpLink<'r, R> {
    ghost written = { untold };

    fn write(&mut self, from: &[u8]) -> Result<usize, Failed>
        ensures bound { WritesAtMost result from.now }
        ensures bytes { WriteAppends (untold self.old) (untold self.new) result from.now }
        ensures cause { HasCause (uncertain self.old) (uncertain self.new) result }
        ensures stuck { IfOk result (λ n. n ≡ 0 → 0 < length from.now → Rose (uncertain self.old) (uncertain self.new)) }
        ensures moves { (uncertain self.old).calm ≡ true → IfOk result (λ n. 0 < length from.now → 0 < n) }

        // A fault is counted only where it is answered.
        ensures count { self.new ≡ faults_after self.old result }
    {
        if from.is_empty() {
            return Ok(0);
        }
        let answer = self.send(from);
        self.faults.counted(answer)
    }
}

impl<'r, R: Net + Clock> Link for TcpLink<'r, R> {
    fn receive(&mut self, into: &mut [u8]) -> Result<usize, Failed> {
        self.read(into)
    }

    fn send(&mut self, from: &[u8]) -> Result<usize, Failed> {
        self.write(from)
    }
}
