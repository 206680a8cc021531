// How a sync ends that nothing stops.
ghost use Rattle.std.specs.Prelude.{◌≡◌, ◌⊎◌};
ghost use Rattle.ak_client.specs.declared.outcomes.Outcome.{Outcome};
ghost use Rattle.ak_client.specs.declared.outcomes.Outcome.TheVariants as outcomes;
ghost use Rattle.ak_exchange.specs.declared.envelopes.Ids.{Ids};
ghost use Rattle.ak_faults.specs.Causes.{Rose};
ghost use Rattle.ak_keep.specs.Collections.{Collection};
ghost use Rattle.ak_protocol.specs.Accounts.{AccountState};
ghost use Rattle.ak_sync_completes.specs.Completing.{EndsWell, IsSyncOver, IsUnhindered, SyncEnds};

use ak_client_wire::Wire;

/// A sync that nothing stops is finished, or memory ran out, on the device or at the server. If calls of its wire fail too, one of its
/// requests may be lost besides. A sync over a wire within the program to whose server nobody else comes, with keepers in memory and a
/// clock that is a list of moments, is such a sync if its host key is a lawful account's, its session key is unused, the device is linked,
/// the two collections are joinable, the clocks are within 300 seconds at each meta, and no call of either keeper is made to fail.
pub fn syncs_complete<W: Wire>()
    ensures faultless { (ids : Ids) (c : Collection) (account : AccountState) (before after : SyncEnds W.kind) (outcome : Outcome)
        → (it : IsUnhindered ids c account before after) → IsSyncOver ids before after outcome
        → (Rose before.health after.health → ⊥) → EndsWell it.growth outcome }
    ensures lossy { (ids : Ids) (c : Collection) (account : AccountState) (before after : SyncEnds W.kind) (outcome : Outcome)
        → (it : IsUnhindered ids c account before after) → IsSyncOver ids before after outcome
        → EndsWell it.growth outcome ⊎ (outcome ≡ outcomes.Lost) }
{}
