// What an upload and a download leave for the syncs after them.
ghost use Rattle.std.specs.Prelude.{◌≡◌, ◌≢◌, ◌⊎◌, ◌≤ℤ◌, List, refl, true};
ghost use Rattle.ak_client.specs.declared.outcomes.Outcome.{Outcome};
ghost use Rattle.ak_client.specs.declared.outcomes.Outcome.TheVariants as outcomes;
ghost use Rattle.ak_exchange.specs.declared.envelopes.Ids.{Ids};
ghost use Rattle.ak_faults.specs.Causes.{Rose};
ghost use Rattle.ak_keep.specs.Collections.{Collection};
ghost use Rattle.ak_keep.specs.Keepers.{Keeping};
ghost use Rattle.ak_merge.specs.Commits.{IsCopyOf};
ghost use Rattle.ak_merge.specs.Holdings.{SameContent, content_of};
ghost use Rattle.ak_merge.specs.Links.{AreLinkedParts};
ghost use Rattle.ak_messages.specs.declared.requests.Ask.{Ask};
ghost use Rattle.ak_protocol.specs.Accounts.{AccountState};
ghost use Rattle.ak_protocol.specs.Logs.{Log};
ghost use Rattle.ak_session.specs.Plans.{Asker};
ghost use Rattle.ak_sync_completes.specs.Completing.{IsSyncOver, SyncEnds, have_nothing_to_sync};
ghost use Rattle.ak_transfer_laws.specs.Completing.{EndsWith, IsLeftAlone, committed_before};
ghost use Rattle.ak_transfers.specs.Transfers.{Downloaded, HoldsUpload, MayTransfer, Uploaded};

use ak_client_wire::Wire;

/// A device that holds a copy of what is committed, as after an upload and a download, has nothing to sync: a sync that nothing stops says
/// that there are no changes, or memory ran out. If calls of its wire fail, its meta may be lost besides.
pub fn copies_have_nothing_to_sync<W: Wire>()
    ensures faultless { (ids : Ids) (c : Collection) (account : AccountState) (before after : SyncEnds W.kind) (outcome : Outcome)
        → (it : IsLeftAlone ids c account before after) → IsCopyOf (committed_before ids account it.old) c
        → IsSyncOver ids before after outcome → (Rose before.health after.health → ⊥)
        → EndsWith outcomes.NoChanges it.growth outcome }
    ensures lossy { (ids : Ids) (c : Collection) (account : AccountState) (before after : SyncEnds W.kind) (outcome : Outcome)
        → (it : IsLeftAlone ids c account before after) → IsCopyOf (committed_before ids account it.old) c
        → IsSyncOver ids before after outcome → EndsWith outcomes.NoChanges it.growth outcome ⊎ (outcome ≡ outcomes.Lost) }
{}

/// So has any device whose moments and number are the server's and that has nothing to send: a sync that nothing stops says that there are no
/// changes, or memory ran out. If calls of its wire fail, its meta may be lost besides.
pub fn equal_sides_have_nothing_to_sync<W: Wire>()
    ensures faultless { (ids : Ids) (c : Collection) (account : AccountState) (before after : SyncEnds W.kind) (outcome : Outcome)
        → (it : IsLeftAlone ids c account before after)
        → have_nothing_to_sync c (committed_before ids account it.old) ≡ true → IsSyncOver ids before after outcome
        → (Rose before.health after.health → ⊥) → EndsWith outcomes.NoChanges it.growth outcome }
    ensures lossy { (ids : Ids) (c : Collection) (account : AccountState) (before after : SyncEnds W.kind) (outcome : Outcome)
        → (it : IsLeftAlone ids c account before after)
        → have_nothing_to_sync c (committed_before ids account it.old) ≡ true → IsSyncOver ids before after outcome
        → EndsWith outcomes.NoChanges it.growth outcome ⊎ (outcome ≡ outcomes.Lost) }
{}

/// A device whose schema moment is not the server's, as after an upload elsewhere, needs the whole collection: a sync that nothing stops
/// says so, with both moments, or memory ran out. If calls of its wire fail, its meta may be lost besides.
pub fn other_schemas_need_a_whole<W: Wire>()
    ensures faultless { (ids : Ids) (c : Collection) (account : AccountState) (before after : SyncEnds W.kind) (outcome : Outcome)
        → (it : IsLeftAlone ids c account before after)
        → c.head.schema ≢ (committed_before ids account it.old).head.schema → IsSyncOver ids before after outcome
        → (Rose before.health after.health → ⊥)
        → EndsWith (outcomes.FullSchema c.head.schema (committed_before ids account it.old).head.schema) it.growth outcome }
    ensures lossy { (ids : Ids) (c : Collection) (account : AccountState) (before after : SyncEnds W.kind) (outcome : Outcome)
        → (it : IsLeftAlone ids c account before after)
        → c.head.schema ≢ (committed_before ids account it.old).head.schema → IsSyncOver ids before after outcome
        → EndsWith (outcomes.FullSchema c.head.schema (committed_before ids account it.old).head.schema) it.growth outcome
        ⊎ (outcome ≡ outcomes.Lost) }
{}

/// So a device that uploaded or downloaded has nothing to sync, as long as nothing else is committed. A device elsewhere needs the whole
/// collection after an upload, if its schema moment was at most the one that was committed before.
pub fn syncs_after_transfers_say_why<W: Wire>()
    ensures upload { (who : Asker) (asked : List Ask) (sent : Collection) (account : AccountState) (was now : Log) (left : Keeping)
        → (up : Uploaded who asked sent account was now left outcomes.Finished)
        → (ids : Ids) (before after : SyncEnds W.kind) (outcome : Outcome)
        → (it : IsLeftAlone ids (up.finished refl).device account before after)
        → committed_before ids account it.old ≡ (up.finished refl).committed.after → IsSyncOver ids before after outcome
        → EndsWith outcomes.NoChanges it.growth outcome ⊎ (outcome ≡ outcomes.Lost) }
    ensures download { (who : Asker) (asked : List Ask) (account : AccountState) (was now : Log) (left : Keeping)
        → (down : Downloaded who asked account was now left outcomes.Finished)
        → (ids : Ids) (before after : SyncEnds W.kind) (outcome : Outcome)
        → (it : IsLeftAlone ids (down.finished refl).device account before after)
        → committed_before ids account it.old ≡ (down.finished refl).base → IsSyncOver ids before after outcome
        → EndsWith outcomes.NoChanges it.growth outcome ⊎ (outcome ≡ outcomes.Lost) }
    ensures elsewhere { (ids : Ids) (c sent base : Collection) (account : AccountState) (before after : SyncEnds W.kind) (outcome : Outcome)
        → (it : IsLeftAlone ids c account before after) → HoldsUpload sent base (committed_before ids account it.old)
        → c.head.schema ≤ℤ base.head.schema → IsSyncOver ids before after outcome
        → EndsWith (outcomes.FullSchema c.head.schema (committed_before ids account it.old).head.schema) it.growth outcome
        ⊎ (outcome ≡ outcomes.Lost) }
{}

/// An upload and a download that are finished leave the device linked with what was committed at their place, by all six parts, and with
/// its content. So edits and syncs go on from there.
pub fn transfers_leave_linked()
    ensures upload { (who : Asker) (asked : List Ask) (c : Collection) (account : AccountState) (old now : Log) (left : Keeping)
        → MayTransfer who account old → (it : Uploaded who asked c account old now left outcomes.Finished)
        → let up = it.finished refl in AreLinkedParts up.device up.committed.after
        × SameContent (content_of up.device) (content_of up.committed.after) }
    ensures download { (who : Asker) (asked : List Ask) (account : AccountState) (old now : Log) (left : Keeping)
        → MayTransfer who account old → (it : Downloaded who asked account old now left outcomes.Finished)
        → let down = it.finished refl in AreLinkedParts down.device down.base
        × SameContent (content_of down.device) (content_of down.base) }
{}
