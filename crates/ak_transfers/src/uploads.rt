ghost use Rattle.std.specs.Prelude.{◌≡◌, [], true, false, List, IfOk, OnErr, None};
ghost use Rattle.ak_base.specs.Heads.{IsMoment};
ghost use Rattle.ak_client.specs.Outcomes.{HasLostThrice, HasOutcomeCause, ShowsRefusal, outcome_of};
ghost use Rattle.ak_client.specs.declared.outcomes.Outcome.TheVariants as outcomes;
ghost use Rattle.ak_faults.specs.Causes.{GoesOn, HasCauseOf};
ghost use Rattle.ak_keep.specs.Keepers.{IsMarkedAt, WhereTold, back, is_marked};
ghost use Rattle.ak_merge.specs.Soundness.{first_fault};
ghost use Rattle.ak_messages.specs.declared.requests.Ask.{Ask as Asked};
ghost use Rattle.ak_transfers.specs.Transfers.{IsTransfer, IsUpload, MayAsk, StaysUnlessFinished, may_end_upload, upload_errand};
ghost use Rattle.ak_transfers.specs.UploadParts.{Sends};

use crate::asks::{UploadMoments, ask_upload, first_request};
use crate::device_rows::prepare;
use crate::greetings::greet;
use ak_client::{Outcome, outcome_of, test_rows};
use ak_client_wire::Wire;
use ak_device::commit_at;
use ak_exchange::Ids;
use ak_io::Clock;
use ak_keep::Keeper;
use ak_messages::Ask;
use ak_undo::UndoList;
use std::alloc::Global;

/// Uploads the device's collection: the server commits it without its graves, with the usn 1 and a new schema moment, and
/// the device then holds what the server does, with the last sync at its moment. The undo list is emptied before the first
/// message. Whatever ends it, the keeper is not marked then.
pub fn upload_over<K: Keeper, W: Wire, C: Clock>(
    keeper: &mut K,
    undo: &mut UndoList,
    wire: &mut W,
    clock: &mut C,
    ids: Ids,
) -> Outcome
    requires unmarked { is_marked (K.keeping keeper.old) ≡ false }
    requires held { (K.keeping keeper.old).headed.current ≡ true }

    // Over any keeper and wire, what it asks and why it ends. Where they tell what they hold, and the host key is an account's,
    // what the server's log shows of it, in this log and any later one; and if it is finished, that both hold the upload.
    ensures uploads { IsUpload K.spares_memory ids (K.keeping keeper.old) (K.keeping keeper.new)
        (record { line = record { health = W.health wire.old; wire = W.state wire.old }; moments = C.to_come clock.old })
        (record { line = record { health = W.health wire.new; wire = W.state wire.new }; moments = C.to_come clock.new }) result }

    // If it is not finished, the device is as it was.
    ensures device { StaysUnlessFinished (K.keeping keeper.old) (K.keeping keeper.new) result }
    ensures unmarked { is_marked (K.keeping keeper.new) ≡ false }

    // A head is held after it, however it ends.
    ensures held { (K.keeping keeper.new).headed.current ≡ true }
    ensures undo { undo.new ≡ [] }

    // It never ends with no changes, with the need to send the whole collection, at a sanity check or at too many chunks.
    ensures ends { may_end_upload result ≡ true }
    ensures keeper { GoesOn (K.health keeper.old) (K.health keeper.new) }

    // It ends because the keeper failed, or because a request was lost, only if the count of faults of the keeper, or of the wire, rose; it
    // rose at each of three tries.
    ensures kept { HasOutcomeCause outcomes.Keep (K.health keeper.old) (K.health keeper.new) result }
    ensures lost { HasOutcomeCause outcomes.Lost (W.health wire.old) (W.health wire.new) result }
    ensures thrice { HasLostThrice (W.health wire.old) (W.health wire.new)
        (W.state wire.old).silence (W.state wire.new).silence result }

    // If a request was refused, or its answer could not be read or had not its form, the wire shows it.
    ensures shown { ShowsRefusal (W.state wire.old).reading (W.state wire.new).reading (W.state wire.new).said result }
    ensures wire { GoesOn (W.health wire.old) (W.health wire.new) }
    ensures reading { GoesOn (W.state wire.old).reading (W.state wire.new).reading }
{
    // For the proof alone: it says that each row that is told stands under its name.
    let _known = keeper.held();
    undo.clear();
    let alloc = undo.allocator();
    outcome_of(upload_device(alloc, keeper, wire, clock, ids))
}

/// Greets, tests the device's own rows, and uploads a device that may go on.
fn upload_device<K: Keeper, W: Wire, C: Clock>(
    alloc: Global,
    keeper: &mut K,
    wire: &mut W,
    clock: &mut C,
    ids: Ids,
) -> Result<(), Outcome>
    requires unmarked { is_marked (K.keeping keeper.old) ≡ false }
    requires held { (K.keeping keeper.old).headed.current ≡ true }
    ensures transfer { (asked : List Asked)
        × IsTransfer (upload_errand K.spares_memory (K.keeping keeper.old) (K.keeping keeper.new)) ids asked
        (record { line = record { health = W.health wire.old; wire = W.state wire.old }; moments = C.to_come clock.old })
        (record { line = record { health = W.health wire.new; wire = W.state wire.new }; moments = C.to_come clock.new })
        (outcome_of result) }
    ensures device { OnErr result (K.keeping keeper.new ≡ K.keeping keeper.old) }
    ensures unmarked { is_marked (K.keeping keeper.new) ≡ false }
    ensures held { (K.keeping keeper.new).headed.current ≡ true }
    ensures keeper { HasCauseOf outcomes.Keep (K.health keeper.old) (K.health keeper.new) result }
{
    let meta = greet(wire, clock, ids)?;
    test_rows(keeper)?;
    upload_met(alloc, keeper, wire, ids, meta.moment)
}

/// Uploads a device that may go on: what it puts in place is between a mark and a commit.
fn upload_met<K: Keeper, W: Wire>(
    alloc: Global,
    keeper: &mut K,
    wire: &mut W,
    ids: Ids,
    moment: i64,
) -> Result<(), Outcome>
    requires unmarked { is_marked (K.keeping keeper.old) ≡ false }
    requires held { (K.keeping keeper.old).headed.current ≡ true }
    requires sound { WhereTold (K.keeping keeper.old) (λ h. first_fault h.rows ≡ None) }
    ensures asks { (asked : List Asked)
        × MayAsk (upload_errand K.spares_memory (K.keeping keeper.old) (K.keeping keeper.new)) ids moment asked
        (record { health = W.health wire.old; wire = W.state wire.old })
        (record { health = W.health wire.new; wire = W.state wire.new }) (outcome_of result) }
    ensures device { OnErr result (K.keeping keeper.new ≡ K.keeping keeper.old) }
    ensures unmarked { is_marked (K.keeping keeper.new) ≡ false }
    ensures held { (K.keeping keeper.new).headed.current ≡ true }
    ensures keeper { HasCauseOf outcomes.Keep (K.health keeper.old) (K.health keeper.new) result }
{
    keeper.mark()?;
    match send(alloc, keeper, wire, ids, moment) {
        // The usn is the one after 0. From here on memory runs out only if these calls of the keeper take some.
        Ok(told) => Ok(commit_at(keeper, told.moment, told.schema, 0)?),
        Err(outcome) => {
            keeper.back();
            Err(outcome)
        }
    }
}

/// Puts what the upload leaves in place, but for the moments, and asks it. It answers the moments that the server gave.
fn send<K: Keeper, W: Wire>(
    alloc: Global,
    keeper: &mut K,
    wire: &mut W,
    ids: Ids,
    moment: i64,
) -> Result<UploadMoments, Outcome>
    requires marked { is_marked (K.keeping keeper.old) ≡ true }
    requires held { (K.keeping keeper.old).headed.current ≡ true }
    ensures sends { Sends ids moment (K.keeping keeper.old) (K.keeping keeper.new)
        (record { health = W.health wire.old; wire = W.state wire.old })
        (record { health = W.health wire.new; wire = W.state wire.new }) result }
    ensures stays { IsMarkedAt (back (K.keeping keeper.old)) (K.keeping keeper.new) }
    ensures held { IfOk result (λ told. (K.keeping keeper.new).headed.current ≡ true) }
    ensures range { IfOk result (λ told. IsMoment told.moment × IsMoment told.schema) }
    ensures keeper { HasCauseOf outcomes.Keep (K.health keeper.old) (K.health keeper.new) result }
{
    let whole = prepare(alloc, keeper)?;
    let request = first_request(ids, moment, Ask::Upload(whole));
    Ok(ask_upload(wire, &request)?)
}
