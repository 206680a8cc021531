ghost use Rattle.std.specs.Prelude.{◌≡◌, [], true, false, List, OnOk, OnErr};
ghost use Rattle.ak_base.specs.Heads.{IsHeadInRange};
ghost use Rattle.ak_base.specs.Names.{name_cmp};
ghost use Rattle.ak_base.specs.Rows.{IsChecked, name_of};
ghost use Rattle.ak_client.specs.Outcomes.{HasLostThrice, HasOutcomeCause, ShowsRefusal, outcome_of};
ghost use Rattle.ak_client.specs.declared.outcomes.Outcome.TheVariants as outcomes;
ghost use Rattle.ak_faults.specs.Causes.{GoesOn, HasCauseOf};
ghost use Rattle.ak_keep.specs.Keepers.{KeepCause, is_marked};
ghost use Rattle.ak_messages.specs.declared.requests.Ask.{Ask as Asked};
ghost use Rattle.ak_transfers.specs.Transfers.{IsDownload, IsTransfer, StaysUnlessFinished, download_errand, may_end_download, put_in_place};
ghost use Rattle.ak_transfers.specs.UploadParts.{MayBePut};

use crate::asks::{ask_whole, first_request};
use crate::forms::{Held, held_of};
use crate::greetings::greet;
use ak_client::{Outcome, outcome_of};
use ak_client_wire::Wire;
use ak_exchange::Ids;
use ak_io::Clock;
use ak_keep::{KeepFault, Keeper, keep_or_back};
use ak_messages::Ask;
use ak_undo::UndoList;
use std::alloc::Global;

/// Downloads the committed collection: the device then holds it, with its graves and usns, and with the last sync at its
/// moment. The undo list is emptied before the first message. Whatever ends it, the keeper is not marked then.
pub fn download_over<K: Keeper, W: Wire, C: Clock>(
    keeper: &mut K,
    undo: &mut UndoList,
    wire: &mut W,
    clock: &mut C,
    ids: Ids,
) -> Outcome
    requires unmarked { is_marked (K.keeping keeper.old) ≡ false }
    requires held { (K.keeping keeper.old).headed.current ≡ true }

    // Over any keeper and wire, what it asks and why it ends. Where they tell what they hold, and the host key is an account's,
    // what the server's log shows of it, in this log and any later one; and if it is finished, that the device holds what was committed.
    ensures downloads { IsDownload ids (K.keeping keeper.old) (K.keeping keeper.new)
        (record { line = record { health = W.health wire.old; wire = W.state wire.old }; moments = C.to_come clock.old })
        (record { line = record { health = W.health wire.new; wire = W.state wire.new }; moments = C.to_come clock.new }) result }

    // If it is not finished, the device is as it was.
    ensures device { StaysUnlessFinished (K.keeping keeper.old) (K.keeping keeper.new) result }
    ensures unmarked { is_marked (K.keeping keeper.new) ≡ false }

    // A head is held after it, however it ends.
    ensures held { (K.keeping keeper.new).headed.current ≡ true }
    ensures undo { undo.new ≡ [] }

    // It never ends as an upload does not, nor at the device's own check.
    ensures ends { may_end_download result ≡ true }
    ensures keeper { GoesOn (K.health keeper.old) (K.health keeper.new) }

    // It ends because the keeper failed, or because a request was lost, only if the count of faults of the keeper, or of the wire, rose; it
    // rose at each of three tries.
    ensures kept { HasOutcomeCause outcomes.Keep (K.health keeper.old) (K.health keeper.new) result }
    ensures lost { HasOutcomeCause outcomes.Lost (W.health wire.old) (W.health wire.new) result }
    ensures thrice { HasLostThrice (W.health wire.old) (W.health wire.new)
        (W.state wire.old).silence (W.state wire.new).silence result }

    // If a request was refused, or its answer could not be read or may not be held, the wire shows it.
    ensures shown { ShowsRefusal (W.state wire.old).reading (W.state wire.new).reading (W.state wire.new).said result }
    ensures wire { GoesOn (W.health wire.old) (W.health wire.new) }
    ensures reading { GoesOn (W.state wire.old).reading (W.state wire.new).reading }
{
    undo.clear();
    let alloc = undo.allocator();
    outcome_of(download_device(alloc, keeper, wire, clock, ids))
}

/// Greets, asks for the whole collection, and puts it in place of the device's.
fn download_device<K: Keeper, W: Wire, C: Clock>(
    alloc: Global,
    keeper: &mut K,
    wire: &mut W,
    clock: &mut C,
    ids: Ids,
) -> Result<(), Outcome>
    requires unmarked { is_marked (K.keeping keeper.old) ≡ false }
    requires held { (K.keeping keeper.old).headed.current ≡ true }
    ensures transfer { (asked : List Asked)
        × IsTransfer (download_errand (K.keeping keeper.old) (K.keeping keeper.new)) ids asked
        (record { line = record { health = W.health wire.old; wire = W.state wire.old }; moments = C.to_come clock.old })
        (record { line = record { health = W.health wire.new; wire = W.state wire.new }; moments = C.to_come clock.new })
        (outcome_of result) }
    ensures device { OnErr result (K.keeping keeper.new ≡ K.keeping keeper.old) }
    ensures unmarked { is_marked (K.keeping keeper.new) ≡ false }
    ensures held { (K.keeping keeper.new).headed.current ≡ true }
    ensures keeper { HasCauseOf outcomes.Keep (K.health keeper.old) (K.health keeper.new) result }
{
    let meta = greet(wire, clock, ids)?;
    let request = first_request(ids, meta.moment, Ask::Download);
    let whole = ask_whole(wire, &request)?;
    let held = held_of(alloc, whole)?;
    Ok(put_in_place(keeper, held)?)
}

/// Puts this collection in place of the one that is held, and commits it. If it is refused, the device is as it was.
fn put_in_place<K: Keeper>(keeper: &mut K, held: Held) -> Result<(), KeepFault>
    requires unmarked { is_marked (K.keeping keeper.old) ≡ false }
    requires head { IsHeadInRange held.head }
    requires rows { MayBePut held.rows }
    ensures ok { OnOk result (K.keeping keeper.new ≡ put_in_place held.rows held.head (K.keeping keeper.old)) }
    ensures err { OnErr result (K.keeping keeper.new ≡ K.keeping keeper.old) }
    ensures unmarked { is_marked (K.keeping keeper.new) ≡ false }
    ensures cause { KeepCause (K.health keeper.old) (K.health keeper.new) result }
{
    keeper.mark()?;
    let put = keeper.replace_all(held.rows, held.head);
    keep_or_back(keeper, put)
}
