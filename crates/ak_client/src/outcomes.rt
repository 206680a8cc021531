ghost use Rattle.ak_client.specs.Outcomes.{outcome_of};
ghost use Rattle.ak_exchange.specs.Stops.{shows_bad_check};
ghost use Rattle.std.specs.Prelude.{◌≡◌};

use ak_base::Memory;
use ak_client_wire::Unanswered;
use ak_exchange::Stop;
use ak_keep::KeepFault;
use ak_merge::CheckFault;
use ak_messages::{SanityCounts, Word};

/// How a sync ended.
#[derive(Clone, Copy, Debug, PartialEq, Eq)]
pub enum Outcome {
    /// Device and server hold one content, the join of what they held.
    Finished,
    /// Both were changed last at one moment.
    NoChanges,
    /// The schema moments differ, in milliseconds: the whole collection has to be sent.
    FullSchema {
        device: i64,
        server: i64,
    },
    /// The server's usn is the last one: the whole collection has to be sent.
    FullSequence {
        usn: i64,
    },
    /// The join has this fault. The schema moment has risen, so that the whole collection is sent next.
    BadRow(CheckFault),
    /// The two sides count unlike numbers of rows. The schema moment has risen.
    BadCounts {
        client: SanityCounts,
        server: SanityCounts,
    },
    /// The clocks are over 300 seconds apart, in seconds.
    ClockOff {
        device: i64,
        server: i64,
    },
    /// The device's collection has this fault.
    OwnCheck(CheckFault),
    /// The server does not let the sync go on.
    Stopped,
    /// The server did not do what was asked.
    Refused {
        status: u16,
        word: Word,
        seen: i64,
    },
    /// Each of three tries of one request got no answer.
    Lost,
    /// An answer can't be read, or is not of the form of what was asked.
    BadReply,
    /// The 40,000th chunk of one direction is not the last one.
    TooManyChunks,
    /// The device's keeper failed.
    Keep,
    /// Out of memory.
    Memory,
}

impl From<Stop> for Outcome {
    ghost use Rattle.ak_client.specs.Outcomes.{outcome_at};

    ghost from_gives = { λ stop outcome. outcome ≡ outcome_at stop };

    fn from(stop: Stop) -> Outcome {
        match stop {
            Stop::BadRow(fault) => Outcome::BadRow(fault),
            Stop::BadCounts { client, server } => Outcome::BadCounts { client, server },
            Stop::Refused { status, word, seen } => Outcome::Refused { status, word, seen },
            Stop::Lost => Outcome::Lost,
            Stop::BadReply => Outcome::BadReply,
            Stop::TooManyChunks => Outcome::TooManyChunks,
            Stop::Keep => Outcome::Keep,
            Stop::Memory => Outcome::Memory,
        }
    }
}

impl From<KeepFault> for Outcome {
    ghost use Rattle.ak_client.specs.Outcomes.{outcome_at};
    ghost use Rattle.ak_exchange.specs.Stops.{keep_stop};

    ghost from_gives = { λ fault outcome. outcome ≡ outcome_at (keep_stop fault) };

    fn from(fault: KeepFault) -> Outcome {
        match fault {
            KeepFault::Failed => Outcome::Keep,
            KeepFault::Memory => Outcome::Memory,
        }
    }
}

impl From<Unanswered> for Outcome {
    ghost use Rattle.ak_client.specs.Outcomes.{outcome_at};
    ghost use Rattle.ak_exchange.specs.Stops.{wire_stop};

    ghost from_gives = { λ why outcome. outcome ≡ outcome_at (wire_stop why) };

    fn from(why: Unanswered) -> Outcome {
        match why {
            Unanswered::Lost => Outcome::Lost,
            Unanswered::BadReply => Outcome::BadReply,
            Unanswered::Refused { status, word, seen } => Outcome::Refused { status, word, seen },
            Unanswered::Memory => Outcome::Memory,
        }
    }
}

impl From<Memory> for Outcome {
    ghost use Rattle.ak_client.specs.declared.outcomes.Outcome.TheVariants as outcomes;

    ghost from_gives = { λ memory outcome. outcome ≡ outcomes.Memory };

    fn from(_memory: Memory) -> Outcome {
        Outcome::Memory
    }
}

/// The outcome of a sync, or of an upload or a download.
pub fn outcome_of(end: Result<(), Outcome>) -> Outcome
    ensures { result ≡ outcome_of end }
{
    match end {
        Ok(()) => Outcome::Finished,
        Err(outcome) => outcome,
    }
}

/// Whether a sync stops at a bad sanity check.
pub(crate) fn shows_bad_check(stop: Stop) -> bool
    ensures { result ≡ shows_bad_check stop }
{
    matches!(stop, Stop::BadRow(_) | Stop::BadCounts { .. })
}
