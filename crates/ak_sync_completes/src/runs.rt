// What the command `sync` comes to, if nothing stops its sync.
ghost use Rattle.std.specs.Prelude.{◌≡◌, ◌⊎◌, ℕ, Bool, List, Option};
ghost use Rattle.ak_base.specs.declared.keys.HostKey.{HostKey};
ghost use Rattle.ak_faults.specs.Causes.{Rose};
ghost use Rattle.ak_keep.specs.Collections.{Collection};
ghost use Rattle.ak_protocol.specs.Accounts.{AccountState};
ghost use Rattle.ak_sync_completes.specs.Runs.{RunEndsWell, RunsUnhindered};
ghost use Rattle.ak_sync_runs.specs.SyncRuns.{EndsSync, HasStatusCause, SyncOutside};

use ak_client_wire::Wire;

/// If nothing stops the sync, and the output does not fail, the command `sync` prints `finished` and ends with 0, or
/// memory ran out: it ends with 8, or with 13 where the server's did. If calls of its wire fail, it may end with 7 besides.
pub fn runs_complete<W: Wire>()
    ensures faultless { (spares : Bool) (host : HostKey) (c : Collection) (account : AccountState) (status : ℕ)
        → (before after : SyncOutside W.kind) (old new : Option (List ℕ))
        → (it : RunsUnhindered host c account status before after) → EndsSync spares host status before after old new
        → HasStatusCause 7 before.health after.health status → (Rose before.health after.health → ⊥)
        → RunEndsWell it.sync.growth status old new }
    ensures lossy { (spares : Bool) (host : HostKey) (c : Collection) (account : AccountState) (status : ℕ)
        → (before after : SyncOutside W.kind) (old new : Option (List ℕ))
        → (it : RunsUnhindered host c account status before after) → EndsSync spares host status before after old new
        → RunEndsWell it.sync.growth status old new ⊎ (status ≡ 7) }
{}
