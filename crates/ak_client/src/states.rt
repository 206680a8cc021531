// A sync state by state, for a caller that has something to do in between. A state holds the keeper and the wire, so that
// nobody else acts on them, and must be spent: by its next call, or by `leave`. Its fields are private, so that only the call
// before makes it. The calls are those of `sync_over`, whose contract does not rest on these states.
ghost use Rattle.std.specs.Prelude.{◌≡◌, ◌≤ℤ◌, ◌<ℤ◌, [], pos, true, false, Ok, IfOk, OnOk};
ghost use Rattle.ak_base.specs.Heads.{IsHeadInRange, IsMoment};
ghost use Rattle.ak_base.specs.Limits.{last_head_usn};
ghost use Rattle.ak_client.specs.Greetings.{GreetsTold, IsGreeting, IsReady};
ghost use Rattle.ak_client.specs.States.{ExchangesChanges, IsInSync, LeadsTo};
ghost use Rattle.ak_exchange.specs.Phases.{HasPassedCheck, HasReceived, at_end_of, at_meta};
ghost use Rattle.ak_keep.specs.Keepers.{IsMarkedAt, IsRightlyKnown, WhereTold, back, is_marked, marked_here};
ghost use Rattle.ak_session.specs.Plans.{planned_changes, planned_chunks, planned_pushes, planned_start};

use crate::greetings::greet;
use crate::outcomes::{Outcome, outcome_of};
use crate::syncs::after_stop;
use ak_client_wire::Wire;
use ak_device::commit_at;
use ak_exchange::{
    Envelopes, Ids, Met, Stop, compare, exchange_changes, finish, pull, push, send_graves, start,
};
use ak_io::Clock;
use ak_keep::Keeper;
use ak_undo::UndoList;
use std::alloc::Global;

/// Nothing was asked yet. The undo list is empty.
pub struct Hello<'a, K: Keeper, W: Wire> {
    alloc: Global,
    keeper: &'a mut K,
    wire: &'a mut W,
    ids: Ids,
}

/// The meta was granted, and the sync may go on. The device is not marked yet.
pub struct Greeted<'a, K: Keeper, W: Wire> {
    alloc: Global,
    keeper: &'a mut K,
    wire: &'a mut W,
    ids: Ids,
    met: Met,
}

/// The device is marked, told the server its usn and moment, and took the graves that it was given.
pub struct Started<'a, K: Keeper, W: Wire> {
    alloc: Global,
    keeper: &'a mut K,
    wire: &'a mut W,
    envelopes: Envelopes,
    met: Met,
}

/// It sent its graves, and both sides gave the other their changes. What it sent is settled.
pub struct Exchanged<'a, K: Keeper, W: Wire> {
    alloc: Global,
    keeper: &'a mut K,
    wire: &'a mut W,
    envelopes: Envelopes,
    met: Met,
}

/// It took the server's chunks.
pub struct Pulled<'a, K: Keeper, W: Wire> {
    alloc: Global,
    keeper: &'a mut K,
    wire: &'a mut W,
    envelopes: Envelopes,
    met: Met,
}

/// It sent its own, and settled them.
pub struct Pushed<'a, K: Keeper, W: Wire> {
    alloc: Global,
    keeper: &'a mut K,
    wire: &'a mut W,
    envelopes: Envelopes,
    met: Met,
}

/// Both sides hold the same, and that is sound. Only the finish is left.
pub struct Checked<'a, K: Keeper, W: Wire> {
    alloc: Global,
    keeper: &'a mut K,
    wire: &'a mut W,
    envelopes: Envelopes,
    met: Met,
}

impl<'a, K: Keeper, W: Wire> Hello<'a, K, W> {
    /// Empties the undo list.
    pub fn new(keeper: &'a mut K, undo: &mut UndoList, wire: &'a mut W, ids: Ids) -> Hello<'a, K, W>
        requires unmarked { is_marked (K.keeping keeper.old) ≡ false }
        requires held { (K.keeping keeper.old).headed.current ≡ true }
        ensures keeper { result.keeper.now ≡ keeper.old }
        ensures wire { result.wire.now ≡ wire.old }
        ensures ids { result.ids ≡ ids }
        ensures undo { undo.new ≡ [] }
    {
        undo.clear();
        Hello {
            alloc: undo.allocator(),
            keeper,
            wire,
            ids,
        }
    }

    /// Sends the meta, and tests what it says.
    pub fn greet<C: Clock>(self, clock: &mut C) -> Result<Greeted<'a, K, W>, Outcome>
        requires unmarked { is_marked (K.keeping self.keeper.now) ≡ false }
        requires held { (K.keeping self.keeper.now).headed.current ≡ true }
        ensures same { IfOk result (λ next. (K.keeping next.keeper.now) ≡ (K.keeping self.entry.keeper.now)) }
        ensures low { IfOk result (λ next. pos 0 ≤ℤ next.met.meta.usn) }
        ensures number { IfOk result (λ next. next.met.meta.usn <ℤ last_head_usn) }
        ensures head { IfOk result (λ next. IsHeadInRange next.met.head) }
        ensures ids { IfOk result (λ next. next.ids ≡ self.entry.ids) }

        // What the meta was answered, what is known of the server then, and of the device.
        ensures heard { IfOk result (λ next. IsGreeting self.entry.ids
            (W.health self.entry.wire.now) (W.health next.wire.now) (W.state self.entry.wire.now) (W.state next.wire.now)
            (C.to_come clock.old) (C.to_come clock.new) (K.keeping self.entry.keeper.now) (Ok next.met)) }
        ensures greets { IfOk result (λ next. GreetsTold self.entry.ids
            (W.state self.entry.wire.now).log (W.state next.wire.now).log (Ok next.met)) }
        ensures ready { IfOk result (λ next. WhereTold (K.keeping self.entry.keeper.now) (λ h. IsReady h next.met)) }
        ensures known { IfOk result (λ next. IsRightlyKnown (K.keeping self.entry.keeper.now)) }
    {
        let Hello {
            alloc,
            keeper,
            wire,
            ids,
        } = self;
        let met = greet(keeper, wire, clock, ids)?;
        Ok(Greeted {
            alloc,
            keeper,
            wire,
            ids,
            met,
        })
    }

    /// Leaves the device as it is.
    pub fn leave(self)
        ensures same { K.keeping self.exit.1.0.now ≡ K.keeping self.entry.keeper.now }
    {
        let Hello {
            alloc: _,
            keeper: _,
            wire: _,
            ids: _,
        } = self;
    }
}

impl<'a, K: Keeper, W: Wire> Greeted<'a, K, W> {
    /// Marks the device, tells the server its usn and moment, and takes the graves that it gives.
    pub fn start(self) -> Result<Started<'a, K, W>, Outcome>
        requires unmarked { is_marked (K.keeping self.keeper.now) ≡ false }
        requires held { (K.keeping self.keeper.now).headed.current ≡ true }
        requires low { pos 0 ≤ℤ self.met.meta.usn }
        requires number { self.met.meta.usn <ℤ last_head_usn }
        requires head { IsHeadInRange self.met.head }
        ensures in_sync { IfOk result (λ next. IsInSync (K.keeping next.keeper.now) next.met) }
        ensures mark { IfOk result (λ next. back (K.keeping next.keeper.now) ≡ (K.keeping self.entry.keeper.now)) }
        ensures met { IfOk result (λ next. next.met ≡ self.entry.met) }
        ensures took { IfOk result (λ next.
            HasReceived next.met.meta.usn (marked_here (K.keeping self.entry.keeper.now)) (K.keeping next.keeper.now)) }
        ensures leads { IfOk result (λ next. LeadsTo 0 0 1 at_meta (at_end_of (λ c s. planned_start c)) next.met
            (marked_here (K.keeping self.entry.keeper.now)) (K.keeping next.keeper.now)
            (record {
              health = W.health self.entry.wire.now;
              wire = W.state self.entry.wire.now;
              envelopes = record { ids = self.entry.ids; base = self.entry.met.meta.moment; step = 0 };
            })
            (record { health = W.health next.wire.now; wire = W.state next.wire.now; envelopes = next.envelopes })) }
    {
        let Greeted {
            alloc,
            keeper,
            wire,
            ids,
            met,
        } = self;
        keeper.mark()?;
        let mut envelopes = Envelopes {
            ids,
            base: met.meta.moment,
            step: 0,
        };
        match start(keeper, wire, &mut envelopes, &met) {
            Ok(()) => Ok(Started {
                alloc,
                keeper,
                wire,
                envelopes,
                met,
            }),
            Err(stop) => {
                keeper.back();
                Err(Outcome::from(stop))
            }
        }
    }

    /// Leaves the device as it is.
    pub fn leave(self) {
        let Greeted {
            alloc: _,
            keeper: _,
            wire: _,
            ids: _,
            met,
        } = self;
        drop(met);
    }
}

impl<'a, K: Keeper, W: Wire> Started<'a, K, W> {
    /// Sends the graves that were not sent yet, and exchanges the changes. What it sends is settled once its request was granted.
    pub fn exchange(self) -> Result<Exchanged<'a, K, W>, Outcome>
        requires in_sync { IsInSync (K.keeping self.keeper.now) self.met }
        ensures in_sync { IfOk result (λ next. IsInSync (K.keeping next.keeper.now) next.met) }
        ensures mark { IfOk result (λ next. back (K.keeping next.keeper.now) ≡ back (K.keeping self.entry.keeper.now)) }
        ensures met { IfOk result (λ next. next.met ≡ self.entry.met) }
        ensures leads { IfOk result (λ next. ExchangesChanges next.met (K.keeping self.entry.keeper.now)
            (K.keeping next.keeper.now)
            (record {
              health = W.health self.entry.wire.now;
              wire = W.state self.entry.wire.now;
              envelopes = self.entry.envelopes;
            })
            (record { health = W.health next.wire.now; wire = W.state next.wire.now; envelopes = next.envelopes })) }
    {
        let Started {
            alloc,
            keeper,
            wire,
            mut envelopes,
            met,
        } = self;
        match send_graves_and_changes(alloc, keeper, wire, &mut envelopes, &met) {
            Ok(()) => Ok(Exchanged {
                alloc,
                keeper,
                wire,
                envelopes,
                met,
            }),
            Err(stop) => {
                keeper.back();
                Err(Outcome::from(stop))
            }
        }
    }

    /// Takes the device back to its mark.
    pub fn leave(self)
        requires marked { is_marked (K.keeping self.keeper.now) ≡ true }
    {
        let Started {
            alloc: _,
            keeper,
            wire: _,
            envelopes: _,
            met,
        } = self;
        keeper.back();
        drop(met);
    }
}

impl<'a, K: Keeper, W: Wire> Exchanged<'a, K, W> {
    /// Takes the server's rows, chunk by chunk.
    pub fn pull(self) -> Result<Pulled<'a, K, W>, Outcome>
        requires in_sync { IsInSync (K.keeping self.keeper.now) self.met }
        ensures in_sync { IfOk result (λ next. IsInSync (K.keeping next.keeper.now) next.met) }
        ensures mark { IfOk result (λ next. back (K.keeping next.keeper.now) ≡ back (K.keeping self.entry.keeper.now)) }
        ensures met { IfOk result (λ next. next.met ≡ self.entry.met) }
        ensures took { IfOk result (λ next.
            HasReceived next.met.meta.usn (K.keeping self.entry.keeper.now) (K.keeping next.keeper.now)) }
        ensures leads { IfOk result (λ next. LeadsTo 40_000 0 0 (at_end_of planned_changes) (at_end_of planned_chunks) next.met
            (K.keeping self.entry.keeper.now)
            (K.keeping next.keeper.now)
            (record {
              health = W.health self.entry.wire.now;
              wire = W.state self.entry.wire.now;
              envelopes = self.entry.envelopes;
            })
            (record { health = W.health next.wire.now; wire = W.state next.wire.now; envelopes = next.envelopes })) }
    {
        let Exchanged {
            alloc,
            keeper,
            wire,
            mut envelopes,
            met,
        } = self;
        match pull(keeper, wire, &mut envelopes, &met) {
            Ok(()) => Ok(Pulled {
                alloc,
                keeper,
                wire,
                envelopes,
                met,
            }),
            Err(stop) => {
                keeper.back();
                Err(Outcome::from(stop))
            }
        }
    }

    /// Takes the device back to its mark.
    pub fn leave(self)
        requires marked { is_marked (K.keeping self.keeper.now) ≡ true }
    {
        let Exchanged {
            alloc: _,
            keeper,
            wire: _,
            envelopes: _,
            met,
        } = self;
        keeper.back();
        drop(met);
    }
}

impl<'a, K: Keeper, W: Wire> Pulled<'a, K, W> {
    /// Sends the rows that were not sent yet, chunk by chunk, and settles those of each chunk.
    pub fn push(self) -> Result<Pushed<'a, K, W>, Outcome>
        requires in_sync { IsInSync (K.keeping self.keeper.now) self.met }
        ensures in_sync { IfOk result (λ next. IsInSync (K.keeping next.keeper.now) next.met) }
        ensures mark { IfOk result (λ next. back (K.keeping next.keeper.now) ≡ back (K.keeping self.entry.keeper.now)) }
        ensures met { IfOk result (λ next. next.met ≡ self.entry.met) }
        ensures leads { IfOk result (λ next. LeadsTo 0 39_999 1 (at_end_of planned_chunks) (at_end_of planned_pushes) next.met
            (K.keeping self.entry.keeper.now)
            (K.keeping next.keeper.now)
            (record {
              health = W.health self.entry.wire.now;
              wire = W.state self.entry.wire.now;
              envelopes = self.entry.envelopes;
            })
            (record { health = W.health next.wire.now; wire = W.state next.wire.now; envelopes = next.envelopes })) }
    {
        let Pulled {
            alloc,
            keeper,
            wire,
            mut envelopes,
            met,
        } = self;
        match push(alloc, keeper, wire, &mut envelopes, &met) {
            Ok(()) => Ok(Pushed {
                alloc,
                keeper,
                wire,
                envelopes,
                met,
            }),
            Err(stop) => {
                keeper.back();
                Err(Outcome::from(stop))
            }
        }
    }

    /// Takes the device back to its mark.
    pub fn leave(self)
        requires marked { is_marked (K.keeping self.keeper.now) ≡ true }
    {
        let Pulled {
            alloc: _,
            keeper,
            wire: _,
            envelopes: _,
            met,
        } = self;
        keeper.back();
        drop(met);
    }
}

impl<'a, K: Keeper, W: Wire> Pushed<'a, K, W> {
    /// Asks whether both sides hold the same, and whether that is sound. If not, both moments of the device rise.
    pub fn check<C: Clock>(self, clock: &mut C) -> Result<Checked<'a, K, W>, Outcome>
        requires in_sync { IsInSync (K.keeping self.keeper.now) self.met }
        ensures in_sync { IfOk result (λ next. IsInSync (K.keeping next.keeper.now) next.met) }
        ensures mark { IfOk result (λ next. back (K.keeping next.keeper.now) ≡ back (K.keeping self.entry.keeper.now)) }
        ensures met { IfOk result (λ next. next.met ≡ self.entry.met) }
        ensures same { IfOk result (λ next. (K.keeping next.keeper.now) ≡ (K.keeping self.entry.keeper.now)) }
        ensures leads { IfOk result (λ next. LeadsTo 0 0 1 (at_end_of planned_pushes) HasPassedCheck next.met
            (K.keeping self.entry.keeper.now)
            (K.keeping next.keeper.now)
            (record {
              health = W.health self.entry.wire.now;
              wire = W.state self.entry.wire.now;
              envelopes = self.entry.envelopes;
            })
            (record { health = W.health next.wire.now; wire = W.state next.wire.now; envelopes = next.envelopes })) }
    {
        let Pushed {
            alloc,
            keeper,
            wire,
            mut envelopes,
            met,
        } = self;
        match compare(keeper, wire, &mut envelopes, &met) {
            Ok(()) => Ok(Checked {
                alloc,
                keeper,
                wire,
                envelopes,
                met,
            }),
            Err(stop) => {
                keeper.back();
                Err(after_stop(keeper, clock, stop))
            }
        }
    }

    /// Takes the device back to its mark.
    pub fn leave(self)
        requires marked { is_marked (K.keeping self.keeper.now) ≡ true }
    {
        let Pushed {
            alloc: _,
            keeper,
            wire: _,
            envelopes: _,
            met,
        } = self;
        keeper.back();
        drop(met);
    }
}

impl<'a, K: Keeper, W: Wire> Checked<'a, K, W> {
    /// Asks the finish, and commits.
    pub fn finish(self) -> Outcome
        requires in_sync { IsInSync (K.keeping self.keeper.now) self.met }
    {
        let Checked {
            alloc: _,
            keeper,
            wire,
            mut envelopes,
            met,
        } = self;
        match finish(wire, &mut envelopes) {
            Ok(moment) => outcome_of(commit_synced(keeper, moment, &met)),
            Err(stop) => {
                keeper.back();
                Outcome::from(stop)
            }
        }
    }

    /// Takes the device back to its mark.
    pub fn leave(self)
        requires marked { is_marked (K.keeping self.keeper.now) ≡ true }
    {
        let Checked {
            alloc: _,
            keeper,
            wire: _,
            envelopes: _,
            met,
        } = self;
        keeper.back();
        drop(met);
    }
}

/// The graves that were not sent yet, and then the changes.
fn send_graves_and_changes<K: Keeper, W: Wire>(
    alloc: Global,
    keeper: &mut K,
    wire: &mut W,
    envelopes: &mut Envelopes,
    met: &Met,
) -> Result<(), Stop>
    requires in_sync { IsInSync (K.keeping keeper.old) met.now }
    ensures leads { OnOk result (ExchangesChanges met.now (K.keeping keeper.old) (K.keeping keeper.new)
        (record { health = W.health wire.old; wire = W.state wire.old; envelopes = envelopes.old })
        (record { health = W.health wire.new; wire = W.state wire.new; envelopes = envelopes.new })) }
    ensures stays { IsMarkedAt (back (K.keeping keeper.old)) (K.keeping keeper.new) }
    ensures held { OnOk result ((K.keeping keeper.new).headed.current ≡ true) }
{
    send_graves(alloc, keeper, wire, envelopes, met)?;
    exchange_changes(alloc, keeper, wire, envelopes, met)
}

/// Commits what was taken and settled, at the moment that the server committed at.
fn commit_synced<K: Keeper>(keeper: &mut K, moment: i64, met: &Met) -> Result<(), Outcome>
    requires in_sync { IsInSync (K.keeping keeper.old) met.now }
    requires moment { IsMoment moment }
{
    Ok(commit_at(keeper, moment, met.head.schema, met.meta.usn)?)
}
