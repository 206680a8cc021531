ghost use Rattle.std.specs.Prelude.{◌≡◌, ◌≤ℤ◌, ◌<ℤ◌, pos, [], true, false, Some, IfOk};
ghost use Rattle.ak_base.specs.Heads.{IsHeadInRange, IsMoment};
ghost use Rattle.ak_base.specs.Limits.{last_head_usn};
ghost use Rattle.ak_client.specs.Endings.{Ends, ExchangesAll};
ghost use Rattle.ak_client.specs.Outcomes.{EndsFor, HasLostThrice, HasOutcomeCause, ShowsRefusal, outcome_of};
ghost use Rattle.ak_client.specs.Syncs.{IsSync, IsSyncEnded, IsSyncSparing, KeepsDevice, TakesMoments};
ghost use Rattle.ak_client.specs.declared.outcomes.Outcome.TheVariants as outcomes;
ghost use Rattle.ak_exchange.specs.Stops.{is_keep};
ghost use Rattle.ak_exchange.specs.declared.stops.Stop.TheVariants as stops;
ghost use Rattle.ak_faults.specs.Causes.{GoesOn, HasCauseOf};
ghost use Rattle.ak_keep.specs.Keepers.{IsMarkedAt, WhereTold, back, is_marked};

use crate::greetings::greet;
use crate::outcomes::{Outcome, outcome_of, shows_bad_check};
use ak_client_wire::Wire;
use ak_device::{commit_at, raise_moments};
use ak_exchange::{Envelopes, Ids, Met, Stop, exchange, finish};
use ak_io::Clock;
use ak_keep::Keeper;
use ak_undo::UndoList;
use std::alloc::Global;

/// Syncs the device's collection with the server to which the wire leads. The undo list is emptied before the first message.
/// Whatever ends it, the keeper is not marked then.
pub fn sync_over<K: Keeper, W: Wire, C: Clock>(
    keeper: &mut K,
    undo: &mut UndoList,
    wire: &mut W,
    clock: &mut C,
    ids: Ids,
) -> Outcome
    requires unmarked { is_marked (K.keeping keeper.old) ≡ false }
    requires held { (K.keeping keeper.old).headed.current ≡ true }

    // Over any keeper and wire, what it asks, in which order and how often. Where they tell what they hold, and the host key is
    // an account's, what the server's log shows of it, in this log and any later one; and if it is finished, that both hold
    // the join.
    ensures syncs { IsSync ids (K.keeping keeper.old) (K.keeping keeper.new) (W.health wire.old) (W.health wire.new)
        (W.state wire.old) (W.state wire.new) result }

    // And why it ended: by what its meta said and the moment of the clock then, in the order of the tests.
    ensures ended { IsSyncEnded ids (K.keeping keeper.old) (K.keeping keeper.new) (W.health wire.old) (W.health wire.new)
        (W.state wire.old) (W.state wire.new) (C.to_come clock.old) result }

    // Over a keeper that spares memory it runs out of memory only before it asks its finish, or in a call of the wire.
    ensures spares { IsSyncSparing K.spares_memory ids (K.keeping keeper.old) (K.keeping keeper.new)
        (W.health wire.old) (W.health wire.new) (W.state wire.old) (W.state wire.new) (C.to_come clock.old) result }

    // If it is not finished, the device is as it was; after a bad sanity check alone both moments have risen, to the second
    // moment that it takes of the clock.
    ensures device { KeepsDevice 1 (K.keeping keeper.old) (K.keeping keeper.new)
        (C.to_come clock.old) (C.to_come clock.new) result }
    ensures unmarked { is_marked (K.keeping keeper.new) ≡ false }

    // A head is held after it, however it ends.
    ensures held { (K.keeping keeper.new).headed.current ≡ true }
    ensures undo { undo.new ≡ [] }

    // It takes one moment of the clock once its meta is granted, and another after a bad sanity check.
    ensures clock { TakesMoments 0 (C.to_come clock.old) (C.to_come clock.new) result }
    ensures keeper { GoesOn (K.health keeper.old) (K.health keeper.new) }

    // It ends because the keeper failed, or because a request was lost, only if the count of faults of the keeper, or of the wire, rose; it
    // rose at each of three tries.
    ensures kept { HasOutcomeCause outcomes.Keep (K.health keeper.old) (K.health keeper.new) result }
    ensures lost { HasOutcomeCause outcomes.Lost (W.health wire.old) (W.health wire.new) result }
    ensures thrice { HasLostThrice (W.health wire.old) (W.health wire.new)
        (W.state wire.old).silence (W.state wire.new).silence result }

    // If a request was refused, or its answer could not be read or had not its form, the wire shows it.
    ensures shown { ShowsRefusal (W.state wire.old).reading (W.state wire.new).reading (W.state wire.new).said result }
    ensures wire { GoesOn (W.health wire.old) (W.health wire.new) }
    ensures reading { GoesOn (W.state wire.old).reading (W.state wire.new).reading }
{
    undo.clear();
    let alloc = undo.allocator();
    outcome_of(sync_device(alloc, keeper, wire, clock, ids))
}

/// Greets, and syncs a device that may go on.
fn sync_device<K: Keeper, W: Wire, C: Clock>(
    alloc: Global,
    keeper: &mut K,
    wire: &mut W,
    clock: &mut C,
    ids: Ids,
) -> Result<(), Outcome>
    requires unmarked { is_marked (K.keeping keeper.old) ≡ false }
    requires held { (K.keeping keeper.old).headed.current ≡ true }
    ensures spares { IsSyncSparing K.spares_memory ids (K.keeping keeper.old) (K.keeping keeper.new)
        (W.health wire.old) (W.health wire.new) (W.state wire.old) (W.state wire.new) (C.to_come clock.old) (outcome_of result) }
    ensures device { KeepsDevice 1 (K.keeping keeper.old) (K.keeping keeper.new)
        (C.to_come clock.old) (C.to_come clock.new) (outcome_of result) }
    ensures unmarked { is_marked (K.keeping keeper.new) ≡ false }
    ensures held { (K.keeping keeper.new).headed.current ≡ true }
    ensures clock { TakesMoments 0 (C.to_come clock.old) (C.to_come clock.new) (outcome_of result) }
    ensures keeper { HasCauseOf outcomes.Keep (K.health keeper.old) (K.health keeper.new) result }
{
    let met = greet(keeper, wire, clock, ids)?;
    sync_met(alloc, keeper, wire, clock, ids, &met)
}

/// Syncs a device that may go on: what it asks and takes is between a mark and a commit.
fn sync_met<K: Keeper, W: Wire, C: Clock>(
    alloc: Global,
    keeper: &mut K,
    wire: &mut W,
    clock: &mut C,
    ids: Ids,
    met: &Met,
) -> Result<(), Outcome>
    requires unmarked { is_marked (K.keeping keeper.old) ≡ false }
    requires held { (K.keeping keeper.old).headed.current ≡ true }
    requires head { IsHeadInRange met.now.head }
    requires own { WhereTold (K.keeping keeper.old) (λ h. h.head ≡ Some met.now.head) }
    requires low { pos 0 ≤ℤ met.now.meta.usn }
    requires number { met.now.meta.usn <ℤ last_head_usn }
    ensures ends { Ends K.spares_memory ids met.now (K.keeping keeper.old) (K.keeping keeper.new)
        (W.health wire.old) (W.health wire.new) (W.state wire.old) (W.state wire.new) (outcome_of result) }
    ensures device { KeepsDevice 0 (K.keeping keeper.old) (K.keeping keeper.new)
        (C.to_come clock.old) (C.to_come clock.new) (outcome_of result) }
    ensures clock { TakesMoments 1 (C.to_come clock.old) (C.to_come clock.new) (outcome_of result) }
    ensures unmarked { is_marked (K.keeping keeper.new) ≡ false }
    ensures held { (K.keeping keeper.new).headed.current ≡ true }
    ensures keeper { HasCauseOf outcomes.Keep (K.health keeper.old) (K.health keeper.new) result }
{
    keeper.mark()?;
    match exchange_all(alloc, keeper, wire, ids, met) {
        Ok(moment) => Ok(commit_at(keeper, moment, met.head.schema, met.meta.usn)?),
        Err(stop) => {
            keeper.back();
            Err(after_stop(keeper, clock, stop))
        }
    }
}

/// All that a sync asks after its meta. It answers the moment that the server committed at, in milliseconds; the device
/// holds what it has to commit then.
fn exchange_all<K: Keeper, W: Wire>(
    alloc: Global,
    keeper: &mut K,
    wire: &mut W,
    ids: Ids,
    met: &Met,
) -> Result<i64, Stop>
    requires marked { is_marked (K.keeping keeper.old) ≡ true }
    requires held { (K.keeping keeper.old).headed.current ≡ true }
    requires low { pos 0 ≤ℤ met.now.meta.usn }
    requires number { met.now.meta.usn <ℤ last_head_usn }
    ensures exchanges { ExchangesAll ids met.now (K.keeping keeper.old) (K.keeping keeper.new)
        (W.health wire.old) (W.health wire.new) (W.state wire.old) (W.state wire.new) result }
    ensures stays { IsMarkedAt (back (K.keeping keeper.old)) (K.keeping keeper.new) }
    ensures held { IfOk result (λ moment. (K.keeping keeper.new).headed.current ≡ true) }
    ensures moment { IfOk result IsMoment }
    ensures keeper { HasCauseOf stops.Keep (K.health keeper.old) (K.health keeper.new) result }
{
    let mut envelopes = Envelopes {
        ids,
        base: met.meta.moment,
        step: 0,
    };
    exchange(alloc, keeper, wire, &mut envelopes, met)?;
    finish(wire, &mut envelopes)
}

/// What follows once a device is back at its mark, and how the sync ends then: after a bad sanity check its moments rise.
pub(crate) fn after_stop<K: Keeper, C: Clock>(keeper: &mut K, clock: &mut C, stop: Stop) -> Outcome
    requires unmarked { is_marked (K.keeping keeper.old) ≡ false }
    requires held { (K.keeping keeper.old).headed.current ≡ true }
    ensures ends { EndsFor stop result }
    ensures device { KeepsDevice 0 (K.keeping keeper.old) (K.keeping keeper.new)
        (C.to_come clock.old) (C.to_come clock.new) result }
    ensures clock { TakesMoments 1 (C.to_come clock.old) (C.to_come clock.new) result }
    ensures unmarked { is_marked (K.keeping keeper.new) ≡ false }
    ensures held { (K.keeping keeper.new).headed.current ≡ true }
    ensures keeper { GoesOn (K.health keeper.old) (K.health keeper.new) }
    ensures cause { is_keep stop ≡ false
        → HasOutcomeCause outcomes.Keep (K.health keeper.old) (K.health keeper.new) result }
{
    if !shows_bad_check(stop) {
        return Outcome::from(stop);
    }
    let at = clock.now();
    match raise_moments(keeper, at) {
        Ok(()) => Outcome::from(stop),
        Err(fault) => Outcome::from(fault),
    }
}
