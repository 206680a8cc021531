ghost use Rattle.std.specs.Prelude.{◌≡◌};
ghost use Rattle.ak_outcomes.specs.OutcomeTexts.{outcome_status};

use ak_client::Outcome;

/// Device and server hold one content, or had been changed last at one moment.
const SYNCED: u8 = 0;

/// The keeper of the collection failed.
pub const KEEPER_FAILED: u8 = 6;

/// Each of three tries of one request got no answer.
const LOST: u8 = 7;

/// Out of memory.
pub const NO_MEMORY: u8 = 8;

/// The whole collection has to be sent.
const FULL_NEEDED: u8 = 10;

/// The two sides did not agree in the end, or their join has a fault.
const SANITY_FAILED: u8 = 11;

/// The clocks are too far apart.
const CLOCK_OFF: u8 = 12;

/// The server did not do what was asked.
const SERVER_REFUSED: u8 = 13;

/// The device's own collection has a fault.
const OWN_CHECK_FAILED: u8 = 14;

/// The server broke off, or does not answer as a server does.
const BROKEN_OFF: u8 = 15;

/// The status of a program that ends with this outcome.
pub fn outcome_status(outcome: &Outcome) -> u8
    ensures { result ≡ outcome_status outcome.now }
{
    match outcome {
        Outcome::Finished | Outcome::NoChanges => SYNCED,
        Outcome::FullSchema { .. } | Outcome::FullSequence { .. } => FULL_NEEDED,
        Outcome::BadRow(_) | Outcome::BadCounts { .. } => SANITY_FAILED,
        Outcome::ClockOff { .. } => CLOCK_OFF,
        Outcome::OwnCheck(_) => OWN_CHECK_FAILED,
        Outcome::Stopped | Outcome::BadReply | Outcome::TooManyChunks => BROKEN_OFF,
        Outcome::Refused { .. } => SERVER_REFUSED,
        Outcome::Lost => LOST,
        Outcome::Keep => KEEPER_FAILED,
        Outcome::Memory => NO_MEMORY,
    }
}
