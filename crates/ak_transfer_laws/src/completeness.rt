// How an upload and a download end that nothing stops.
ghost use Rattle.std.specs.Prelude.{◌≡◌, ◌⊎◌, ℕ, Bool, List, Option};
ghost use Rattle.ak_base.specs.declared.keys.HostKey.{HostKey};
ghost use Rattle.ak_faults.specs.Causes.{Rose};
ghost use Rattle.ak_keep.specs.Collections.{Collection};
ghost use Rattle.ak_merge.specs.Holdings.{row_under};
ghost use Rattle.ak_merge.specs.Soundness.{IsSound};
ghost use Rattle.ak_protocol.specs.Accounts.{AccountState};
ghost use Rattle.ak_sync_completes.specs.Runs.{RunEndsWell};
ghost use Rattle.ak_sync_runs.specs.SyncRuns.{SyncOutside, ids_of};
ghost use Rattle.ak_transfer_laws.specs.Completing.{HaveMomentsLeft, RunsAlone, committed_before};
ghost use Rattle.ak_transfer_runs.specs.TransferRuns.{EndsDownload, EndsUpload};

use ak_client_wire::Wire;

/// If nothing stops it, the device's collection is sound and no moment of either side is the last one, the command `upload` prints
/// `finished` and ends with 0; or memory ran out: it ends with 8, or with 13 where the server's did. If calls of its wire fail, it may
/// end with 7 besides. Whatever the schema moments are, and whether the device is linked, makes no difference.
pub fn uploads_complete<W: Wire>()
    ensures faultless { (spares : Bool) (host : HostKey) (c : Collection) (account : AccountState) (status : ℕ)
        → (before after : SyncOutside W.kind) (old new : Option (List ℕ))
        → (it : RunsAlone host c account status before after) → IsSound (row_under c)
        → HaveMomentsLeft c (committed_before (ids_of host it.word) account it.session.old)
        → EndsUpload spares host status before after old new → (Rose before.health after.health → ⊥)
        → RunEndsWell it.session.growth status old new }
    ensures lossy { (spares : Bool) (host : HostKey) (c : Collection) (account : AccountState) (status : ℕ)
        → (before after : SyncOutside W.kind) (old new : Option (List ℕ))
        → (it : RunsAlone host c account status before after) → IsSound (row_under c)
        → HaveMomentsLeft c (committed_before (ids_of host it.word) account it.session.old)
        → EndsUpload spares host status before after old new
        → RunEndsWell it.session.growth status old new ⊎ (status ≡ 7) }
{}

/// The same of the command `download`, whatever the device's collection and the moments are.
pub fn downloads_complete<W: Wire>()
    ensures faultless { (host : HostKey) (c : Collection) (account : AccountState) (status : ℕ)
        → (before after : SyncOutside W.kind) (old new : Option (List ℕ))
        → (it : RunsAlone host c account status before after) → EndsDownload host status before after old new
        → (Rose before.health after.health → ⊥) → RunEndsWell it.session.growth status old new }
    ensures lossy { (host : HostKey) (c : Collection) (account : AccountState) (status : ℕ)
        → (before after : SyncOutside W.kind) (old new : Option (List ℕ))
        → (it : RunsAlone host c account status before after) → EndsDownload host status before after old new
        → RunEndsWell it.session.growth status old new ⊎ (status ≡ 7) }
{}
