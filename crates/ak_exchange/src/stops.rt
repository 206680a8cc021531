// Why an exchange ends before it is finished.
ghost use Rattle.std.specs.Prelude.{◌≡◌};

use ak_base::Memory;
use ak_client_wire::Unanswered;
use ak_keep::KeepFault;
use ak_merge::CheckFault;
use ak_messages::{SanityCounts, Word};

/// Why an exchange did not finish.
#[derive(Clone, Copy, Debug, PartialEq, Eq)]
pub enum Stop {
    BadRow(CheckFault),
    BadCounts {
        client: SanityCounts,
        server: SanityCounts,
    },
    Refused {
        status: u16,
        word: Word,
        seen: i64,
    },
    Lost,
    BadReply,
    TooManyChunks,
    Keep,
    Memory,
}

impl From<Memory> for Stop {
    ghost use Rattle.ak_exchange.specs.declared.stops.Stop.TheVariants as stops;

    ghost from_gives = { λ memory stop. stop ≡ stops.Memory };

    fn from(_memory: Memory) -> Stop {
        Stop::Memory
    }
}

impl From<KeepFault> for Stop {
    ghost use Rattle.ak_exchange.specs.Stops.{keep_stop};

    ghost from_gives = { λ fault stop. stop ≡ keep_stop fault };

    fn from(fault: KeepFault) -> Stop {
        match fault {
            KeepFault::Failed => Stop::Keep,
            KeepFault::Memory => Stop::Memory,
        }
    }
}

impl From<Unanswered> for Stop {
    ghost use Rattle.ak_exchange.specs.Stops.{wire_stop};

    ghost from_gives = { λ why stop. stop ≡ wire_stop why };

    fn from(why: Unanswered) -> Stop {
        match why {
            Unanswered::Lost => Stop::Lost,
            Unanswered::BadReply => Stop::BadReply,
            Unanswered::Refused { status, word, seen } => Stop::Refused { status, word, seen },
            Unanswered::Memory => Stop::Memory,
        }
    }
}
