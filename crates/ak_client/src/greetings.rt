ghost use Rattle.std.specs.Prelude.{◌≡◌, ◌≢◌, ◌≤ℤ◌, ◌<ℤ◌, ℤ, pos, true, false, Some, None, IfOk, IfErr, OnOk, ◌⊎◌};
ghost use Rattle.ak_base.specs.Heads.{IsHeadInRange, IsWithin};
ghost use Rattle.ak_base.specs.Limits.{last_head_usn};
ghost use Rattle.ak_client.specs.Endings.{IsOfGreeting};
ghost use Rattle.ak_client.specs.Greetings.{EndsAtDevice, GreetsTold, IsGreeting, IsReady, are_far_apart, clock_stop, have_equal_heads, head_stop, is_unchanged};
ghost use Rattle.ak_client.specs.Outcomes.{changes_device, end_or_go, outcome_at};
ghost use Rattle.ak_client.specs.Syncs.{HasGiven, TakesMoments};
ghost use Rattle.ak_client.specs.declared.outcomes.Outcome.TheVariants as outcomes;
ghost use Rattle.ak_exchange.specs.Stops.{keep_stop};
ghost use Rattle.ak_faults.specs.Causes.{HasCauseOf};
ghost use Rattle.ak_io.specs.Arrivals.{GivesNext, IsClockMoment};
ghost use Rattle.ak_keep.specs.Keepers.{IsRightlyKnown, WhereTold};
ghost use Rattle.ak_keep.specs.Readings.{ReadsBy};
ghost use Rattle.ak_merge.specs.Edits.{second_of};
ghost use Rattle.ak_merge.specs.Soundness.{first_fault};
ghost use Rattle.ak_merge.specs.declared.checks.CheckFault.{CheckFault};

use crate::outcomes::Outcome;
use crate::unsent::has_unsent;
use ak_base::{Head, LAST_HEAD_USN};
use ak_client_wire::{MetaSaid, Wire, ask};
use ak_exchange::{Ids, Met, meta_request};
use ak_io::Clock;
use ak_keep::{KeepFault, Keeper};
use ak_merge::check;
use ak_sync_rows::head_of;

/// The most seconds that two clocks may be apart.
const MOST_APART: i64 = 300;

/// Sends the meta, and tests what it says: whether the sync may go on, the clocks, whether there is something to sync, the
/// schema moments, the server's usn, and the device's own check. Nothing is marked or changed.
pub(crate) fn greet<K: Keeper, W: Wire, C: Clock>(
    keeper: &mut K,
    wire: &mut W,
    clock: &mut C,
    ids: Ids,
) -> Result<Met, Outcome>
    requires held { (K.keeping keeper.old).headed.current ≡ true }

    // Where the wire tells its log, what is known of the server.
    ensures greets { GreetsTold ids (W.state wire.old).log (W.state wire.new).log result }

    // If the sync may go on, the device's head, and that moments, schema moments, usns and the check let it.
    ensures ready { IfOk result (λ met. WhereTold (K.keeping keeper.old) (λ h. IsReady h met)) }
    ensures low { IfOk result (λ met. pos 0 ≤ℤ met.meta.usn) }
    ensures number { IfOk result (λ met. met.meta.usn <ℤ last_head_usn) }
    ensures head { IfOk result (λ met. IsHeadInRange met.head) }
    ensures known { IfOk result (λ met. IsRightlyKnown (K.keeping keeper.old)) }
    ensures same { K.keeping keeper.new ≡ K.keeping keeper.old }

    // If it may, the server lets it, and the clocks are near.
    ensures clocks { IfOk result (λ met. (at : ℤ) × GivesNext (C.to_come clock.old) (C.to_come clock.new) at
        × (clock_stop met.meta (second_of at) ≡ None)) }

    // What its meta was answered, and if it ends, why: its tests come in this order.
    ensures heard { IsGreeting ids (W.health wire.old) (W.health wire.new) (W.state wire.old) (W.state wire.new)
        (C.to_come clock.old) (C.to_come clock.new) (K.keeping keeper.old) result }

    // It ends with the device unchanged, and takes one moment of the clock once its meta is granted.
    ensures early { IfErr result (λ outcome. changes_device outcome ≡ false) }
    ensures once { OnOk result (HasGiven 1 (C.to_come clock.old) (C.to_come clock.new)) }
    ensures clock { IfErr result (TakesMoments 0 (C.to_come clock.old) (C.to_come clock.new)) }
    ensures keeper { HasCauseOf outcomes.Keep (K.health keeper.old) (K.health keeper.new) result }
{
    let request = meta_request(ids);
    let meta: MetaSaid = ask(wire, &request)?;
    let at = clock.now();
    let second = second_of(at);
    test_clocks(meta, second)?;
    let head = test_device(keeper, meta)?;
    Ok(Met { meta, head })
}

/// The second in which a moment lies.
pub fn second_of(at: i64) -> i64
    requires clock { IsClockMoment at }
    ensures second { result ≡ second_of at }
    ensures range { IsWithin (pos 0) (pos 4_294_967_294) result }
{
    at / 1000
}

/// Whether the server lets the device go on, and the clocks are at most 300 seconds apart.
pub fn test_clocks(meta: MetaSaid, second: i64) -> Result<(), Outcome>
    requires { IsWithin (pos 0) (pos 4_294_967_294) second }
    ensures stop { result ≡ end_or_go (clock_stop meta second) }
    ensures early { IfErr result IsOfGreeting }
    ensures unkept { IfErr result (λ outcome. outcome ≢ outcomes.Keep) }
{
    if !meta.cont {
        return Err(Outcome::Stopped);
    }
    if are_far_apart(second, meta.ts) {
        return Err(Outcome::ClockOff {
            device: second,
            server: meta.ts,
        });
    }
    Ok(())
}

/// Whether two clocks, in seconds, are over 300 seconds apart. The first is the device's, which is in a clock's range.
fn are_far_apart(device: i64, server: i64) -> bool
    requires { IsWithin (pos 0) (pos 4_294_967_294) device }
    ensures { result ≡ are_far_apart device server }
{
    server < device - MOST_APART || device + MOST_APART < server
}

/// Reads the device's head, and tests whether there is something to sync, no need to send the whole collection, and
/// whether the device's own collection is sound.
fn test_device<K: Keeper>(keeper: &mut K, meta: MetaSaid) -> Result<Head, Outcome>
    requires held { (K.keeping keeper.old).headed.current ≡ true }
    requires usn { IsWithin (pos 0) last_head_usn meta.usn }
    ensures ready { IfOk result (λ head. WhereTold (K.keeping keeper.old) (λ h. IsReady h (record { meta = meta; head = head }))) }
    ensures number { IfOk result (λ head. meta.usn <ℤ last_head_usn) }
    ensures head { IfOk result IsHeadInRange }
    ensures known { IfOk result (λ head. IsRightlyKnown (K.keeping keeper.old)) }
    ensures same { K.keeping keeper.new ≡ K.keeping keeper.old }
    ensures ends { IfErr result (EndsAtDevice meta (K.keeping keeper.old)) }
    ensures early { IfErr result IsOfGreeting }
    ensures keeper { HasCauseOf outcomes.Keep (K.health keeper.old) (K.health keeper.new) result }
{
    let head = head_of(keeper)?;
    let unchanged = is_unchanged(keeper, meta, &head)?;
    test_heads(meta, &head, unchanged)?;
    test_rows(keeper)?;
    Ok(head)
}

/// Whether there is nothing to sync. No row is read if moments, schema moments or usns differ.
fn is_unchanged<K: Keeper>(keeper: &mut K, meta: MetaSaid, head: &Head) -> Result<bool, KeepFault>
    ensures reads { ReadsBy K.Lookup keeper.old keeper.new result (λ h unchanged. unchanged ≡ is_unchanged meta head.now h.rows) }
    ensures unread { have_equal_heads meta head.now ≡ false → keeper.new ≡ keeper.old }
    ensures known { IsRightlyKnown (K.keeping keeper.old) }
{
    // For the proof alone: they say that what the keeper tells is well formed.
    let _checks = keeper.marked();
    let _formed = keeper.held();
    if !have_equal_heads(meta, head) {
        return Ok(false);
    }
    Ok(!has_unsent(keeper, head.tags.as_slice())?)
}

/// Whether moments, schema moments and usns of device and server are equal.
fn have_equal_heads(meta: MetaSaid, head: &Head) -> bool
    ensures { result ≡ have_equal_heads meta head.now }
{
    head.moment == meta.moment && head.schema == meta.scm && head.usn == meta.usn
}

/// Whether there is something to sync, and no need to send the whole collection.
fn test_heads(meta: MetaSaid, head: &Head, unchanged: bool) -> Result<(), Outcome>
    ensures stop { result ≡ end_or_go (head_stop meta head.now unchanged) }
    ensures early { IfErr result IsOfGreeting }
    ensures unkept { IfErr result (λ outcome. outcome ≢ outcomes.Keep) }
{
    if unchanged {
        return Err(Outcome::NoChanges);
    }
    if head.schema != meta.scm {
        return Err(Outcome::FullSchema {
            device: head.schema,
            server: meta.scm,
        });
    }
    if meta.usn == LAST_HEAD_USN {
        return Err(Outcome::FullSequence { usn: meta.usn });
    }
    Ok(())
}

/// Whether the device's own collection is sound.
pub fn test_rows<K: Keeper>(keeper: &mut K) -> Result<(), Outcome>
    ensures sound { OnOk result (WhereTold (K.keeping keeper.old) (λ h. first_fault h.rows ≡ None)) }
    ensures same { K.keeping keeper.new ≡ K.keeping keeper.old }
    ensures fault { IfErr result (λ outcome. ((fault : KeepFault) × (outcome ≡ outcome_at (keep_stop fault)))
        ⊎ ((fault : CheckFault) × (outcome ≡ outcomes.OwnCheck fault)
        × WhereTold (K.keeping keeper.old) (λ h. first_fault h.rows ≡ Some fault))) }
    ensures early { IfErr result IsOfGreeting }
    ensures keeper { HasCauseOf outcomes.Keep (K.health keeper.old) (K.health keeper.new) result }
{
    match check(keeper)? {
        Some(fault) => Err(Outcome::OwnCheck(fault)),
        None => Ok(()),
    }
}
