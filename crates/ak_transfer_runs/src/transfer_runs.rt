ghost use Rattle.std.specs.Prelude.{◌≡◌, true, false};
ghost use Rattle.ak_faults.specs.Causes.{GoesOn};
ghost use Rattle.ak_keep.specs.Keepers.{is_marked};
ghost use Rattle.ak_sync_runs.specs.SyncRuns.{HasStatusCause, sync_outside};
ghost use Rattle.ak_transfer_runs.specs.TransferRuns.{EndsDownload, EndsUpload, is_download_status, is_upload_status};

use ak_base::{HostKey, Memory, SessionKey};
use ak_client::Ids;
use ak_client_wire::Wire;
use ak_io::{Chance, Clock, Sink};
use ak_keep::Keeper;
use ak_outcomes::NO_MEMORY;
use ak_sync_runs::{NO_COLLECTION, print_ending, tell_outcome};
use ak_transfers::{download_over, upload_over};
use ak_undo::UndoList;
use std::alloc::Global;

/// Uploads the collection that is held to the account of the host key, and prints how that ended. It answers the status for it.
pub fn run_upload<K: Keeper, W: Wire, C: Clock, R: Chance, O: Sink>(
    alloc: Global,
    keeper: &mut K,
    wire: &mut W,
    clock: &mut C,
    chance: &mut R,
    host: HostKey,
    out: &mut O,
) -> u8
    requires unmarked { is_marked (K.keeping keeper.old) ≡ false }

    // What it leaves on the device and on the server, whatever the keeper and the wire, and what is written of it. A finished
    // upload is told by 0, or by 5 if the output failed in its line.
    ensures ends { EndsUpload K.spares_memory host result
        (sync_outside (K.keeping keeper.old) (W.health wire.old) (W.state wire.old)
        (C.to_come clock.old) (R.to_come chance.old))
        (sync_outside (K.keeping keeper.new) (W.health wire.new) (W.state wire.new)
        (C.to_come clock.new) (R.to_come chance.new))
        (O.written out.old) (O.written out.new) }
    ensures unmarked { is_marked (K.keeping keeper.new) ≡ false }
    ensures reading { GoesOn (W.state wire.old).reading (W.state wire.new).reading }

    // With which statuses it ends, and why it ends with 5, 6 and 7.
    ensures listed { is_upload_status result ≡ true }
    ensures written { HasStatusCause 5 (O.health out.old) (O.health out.new) result }
    ensures kept { HasStatusCause 6 (K.health keeper.old) (K.health keeper.new) result }
    ensures lost { HasStatusCause 7 (W.health wire.old) (W.health wire.new) result }
{
    if !keeper.held() {
        return print_ending(out, "no collection", NO_COLLECTION);
    }
    let mut undo = match UndoList::new(alloc) {
        Ok(undo) => undo,
        Err(Memory) => return NO_MEMORY,
    };
    let session = SessionKey(chance.word());
    let outcome = upload_over(keeper, &mut undo, wire, clock, Ids { host, session });
    tell_outcome(alloc, &outcome, out)
}

/// Downloads the collection of the account of the host key in place of the one that is held, and prints how that ended. It answers
/// the status for it.
pub fn run_download<K: Keeper, W: Wire, C: Clock, R: Chance, O: Sink>(
    alloc: Global,
    keeper: &mut K,
    wire: &mut W,
    clock: &mut C,
    chance: &mut R,
    host: HostKey,
    out: &mut O,
) -> u8
    requires unmarked { is_marked (K.keeping keeper.old) ≡ false }

    // What it leaves on the device and on the server, whatever the keeper and the wire, and what is written of it. A finished
    // download is told by 0, or by 5 if the output failed in its line.
    ensures ends { EndsDownload host result
        (sync_outside (K.keeping keeper.old) (W.health wire.old) (W.state wire.old)
        (C.to_come clock.old) (R.to_come chance.old))
        (sync_outside (K.keeping keeper.new) (W.health wire.new) (W.state wire.new)
        (C.to_come clock.new) (R.to_come chance.new))
        (O.written out.old) (O.written out.new) }
    ensures unmarked { is_marked (K.keeping keeper.new) ≡ false }
    ensures reading { GoesOn (W.state wire.old).reading (W.state wire.new).reading }

    // With which statuses it ends, and why it ends with 5, 6 and 7.
    ensures listed { is_download_status result ≡ true }
    ensures written { HasStatusCause 5 (O.health out.old) (O.health out.new) result }
    ensures kept { HasStatusCause 6 (K.health keeper.old) (K.health keeper.new) result }
    ensures lost { HasStatusCause 7 (W.health wire.old) (W.health wire.new) result }
{
    if !keeper.held() {
        return print_ending(out, "no collection", NO_COLLECTION);
    }
    let mut undo = match UndoList::new(alloc) {
        Ok(undo) => undo,
        Err(Memory) => return NO_MEMORY,
    };
    let session = SessionKey(chance.word());
    let outcome = download_over(keeper, &mut undo, wire, clock, Ids { host, session });
    tell_outcome(alloc, &outcome, out)
}
