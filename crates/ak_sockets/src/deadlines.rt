ghost use Rattle.std.specs.Prelude.{◌≡◌, ◌<◌, ◌≤◌, IfOk, IsSome, None};
ghost use Rattle.std.specs.Duration.{as_nanos};

use std::io::{self, Error, ErrorKind};
use std::time::{Clock, Duration, Instant};

/// How long a connection may wait for its peer: at each read or write, and at all until a moment, if one is set. A
/// limit of each wait alone would not stop a peer that sends a byte now and then.
#[derive(Clone, Copy, Debug)]
pub struct Deadline {
    wait: Duration,
    until: Option<Instant>,
}

impl Deadline {
    /// Each wait is at most this long.
    pub fn of_each(wait: Duration) -> Deadline
        ensures { result ≡ record { wait = wait; until = None } }
    {
        Deadline { wait, until: None }
    }

    /// Each wait is at most this long, and none goes on after this time from now.
    pub fn of_all<C: Clock>(clock: &C, wait: Duration, whole: Duration) -> io::Result<Deadline>
        ensures each { IfOk result (λ deadline. deadline.wait ≡ wait) }
        ensures all { IfOk result (λ deadline. IsSome deadline.until) }
    {
        match Instant::now(clock)?.checked_add(whole) {
            Some(until) => Ok(Deadline {
                wait,
                until: Some(until),
            }),
            None => Err(Error::from(ErrorKind::TimedOut)),
        }
    }

    /// How long the next read or write may wait: not 0, for which the system would wait for ever. It is refused if
    /// the time is over.
    pub fn next_wait<C: Clock>(&self, clock: &C) -> io::Result<Duration>
        ensures some { IfOk result (λ wait. 0 < as_nanos wait) }
        ensures most { IfOk result (λ wait. as_nanos wait ≤ as_nanos self.now.wait) }
    {
        let wait = match self.until {
            Some(until) => until.duration_since(Instant::now(clock)?).min(self.wait),
            None => self.wait,
        };
        if wait.is_zero() {
            return Err(Error::from(ErrorKind::TimedOut));
        }
        Ok(wait)
    }
}
