ghost use Rattle.std.specs.Prelude.{◌≡◌, ◌≢◌, true, false};
ghost use Rattle.ak_faults.specs.Causes.{GoesOn};
ghost use Rattle.ak_keep.specs.Keepers.{is_marked};
ghost use Rattle.ak_sync_runs.specs.SyncRuns.{EndsPrinting, EndsSync, HasStatusCause, TellsOutcome, is_sync_status, sync_outside};

use ak_base::{HostKey, Memory, SessionKey};
use ak_client::{Ids, Outcome, sync_over};
use ak_client_wire::Wire;
use ak_io::{Chance, Clock, Failed, Sink, print_line};
use ak_keep::Keeper;
use ak_outcomes::{NO_MEMORY, fixed_text, outcome_status, outcome_text};
use ak_undo::UndoList;
use std::alloc::Global;

/// The status of a command that finds no collection.
pub const NO_COLLECTION: u8 = 3;

/// The output failed.
const WRITE_FAILED: u8 = 5;

/// Syncs the collection that is held with the account of the host key, and prints how that ended. It answers the status for it.
pub fn run_sync<K: Keeper, W: Wire, C: Clock, R: Chance, O: Sink>(
    alloc: Global,
    keeper: &mut K,
    wire: &mut W,
    clock: &mut C,
    chance: &mut R,
    host: HostKey,
    out: &mut O,
) -> u8
    requires unmarked { is_marked (K.keeping keeper.old) ≡ false }

    // What it leaves on the device and on the server, whatever the keeper and the wire, and what is written of it. A finished
    // sync is told by 0, or by 5 if the output failed in its line.
    ensures ends { EndsSync K.spares_memory host result
        (sync_outside (K.keeping keeper.old) (W.health wire.old) (W.state wire.old)
        (C.to_come clock.old) (R.to_come chance.old))
        (sync_outside (K.keeping keeper.new) (W.health wire.new) (W.state wire.new)
        (C.to_come clock.new) (R.to_come chance.new))
        (O.written out.old) (O.written out.new) }
    ensures unmarked { is_marked (K.keeping keeper.new) ≡ false }
    ensures reading { GoesOn (W.state wire.old).reading (W.state wire.new).reading }

    // With which statuses it ends, and why it ends with 5, 6 and 7.
    ensures listed { is_sync_status result ≡ true }
    ensures written { HasStatusCause 5 (O.health out.old) (O.health out.new) result }
    ensures kept { HasStatusCause 6 (K.health keeper.old) (K.health keeper.new) result }
    ensures lost { HasStatusCause 7 (W.health wire.old) (W.health wire.new) result }
{
    if !keeper.held() {
        return print_ending(out, "no collection", NO_COLLECTION);
    }
    let mut undo = match UndoList::new(alloc) {
        Ok(undo) => undo,
        Err(Memory) => return NO_MEMORY,
    };
    let session = SessionKey(chance.word());
    let outcome = sync_over(keeper, &mut undo, wire, clock, Ids { host, session });
    tell_outcome(alloc, &outcome, out)
}

/// Prints the line of an outcome, and answers its status. It takes no memory for a fixed text, so that memory never runs out
/// after a finished sync.
pub fn tell_outcome<O: Sink>(alloc: Global, outcome: &Outcome, out: &mut O) -> u8
    ensures told { TellsOutcome outcome.now result (O.written out.old) (O.written out.new) }
    ensures cause { HasStatusCause 5 (O.health out.old) (O.health out.new) result }
{
    let status = outcome_status(outcome);
    if let Some(text) = fixed_text(outcome) {
        return print_ending(out, text, status);
    }
    match outcome_text(alloc, outcome) {
        Ok(text) => print_ending(out, text.as_str(), status),
        Err(Memory) => NO_MEMORY,
    }
}

/// Prints the text as a line, and answers the status, or 5 if the output failed.
pub fn print_ending<O: Sink>(out: &mut O, text: &str, status: u8) -> u8
    requires other { status ≢ 5 }
    ensures printed { EndsPrinting text.now status result (O.written out.old) (O.written out.new) }
    ensures cause { HasStatusCause 5 (O.health out.old) (O.health out.new) result }
{
    match print_line(out, text.as_bytes()) {
        Ok(()) => status,
        Err(Failed) => WRITE_FAILED,
    }
}
