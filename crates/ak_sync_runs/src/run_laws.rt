// What the end of a sync tells whoever reads it.
ghost use Rattle.std.specs.Prelude.{◌≡◌, ◌≢◌, ◌⊎◌, ℕ, List, [], ◌∷◌, ◌++◌, Bool, true, Option, Some, codes};
ghost use Rattle.ak_base.specs.declared.keys.HostKey.{HostKey};
ghost use Rattle.ak_client.specs.Syncs.{HasRaised};
ghost use Rattle.ak_sync_runs.specs.Retries.{HealsNext};
ghost use Rattle.ak_sync_runs.specs.SyncRuns.{AgreesNext, CommitsNextOnce, EndsSync, FinishesNext, RunsOutNextEarly, SyncOutside};

use ak_client_wire::Wire;

/// If `finished` is what was printed, and the status is 0, then the device holds the join of what it and the server held, and so
/// does what the server committed for this sync, once.
pub fn a_printed_finish_joins<W: Wire>()
    ensures { (spares : Bool) (host : HostKey) (before after : SyncOutside W.kind) (old : List ℕ)
        → EndsSync spares host 0 before after (Some old) (Some (old ++ (codes "finished" ++ 10 ∷ [])))
        → FinishesNext host before after }
{}

/// If `no changes` is what was printed, and the status is 0, then the device holds the content of what the server had committed at
/// some moment of the sync.
pub fn a_printed_no_changes_agrees<W: Wire>()
    ensures { (spares : Bool) (host : HostKey) (before after : SyncOutside W.kind) (old : List ℕ)
        → EndsSync spares host 0 before after (Some old) (Some (old ++ (codes "no changes" ++ 10 ∷ [])))
        → AgreesNext host before after }
{}

/// The device is as it was if `no changes` is what was printed and the status is 0, or if the status is none of 0, 5, 8 and 11. With 8 it
/// is as it was too, or only its two moments have risen, after a bad sanity check; with 11 they have risen. Besides 0, only 5 may follow
/// a finished sync: the output failed in its line.
pub fn other_ends_keep_the_device<W: Wire>()
    ensures unchanged { (spares : Bool) (host : HostKey) (before after : SyncOutside W.kind) (old : List ℕ)
        → EndsSync spares host 0 before after (Some old) (Some (old ++ (codes "no changes" ++ 10 ∷ [])))
        → after.keeping ≡ before.keeping }
    ensures unfinished { (spares : Bool) (host : HostKey) (status : ℕ) (before after : SyncOutside W.kind) (old new : Option (List ℕ))
        → EndsSync spares host status before after old new → status ≢ 0 → status ≢ 5 → status ≢ 8 → status ≢ 11
        → after.keeping ≡ before.keeping }
    ensures untold { (spares : Bool) (host : HostKey) (before after : SyncOutside W.kind) (old new : Option (List ℕ))
        → EndsSync spares host 8 before after old new
        → (after.keeping ≡ before.keeping) ⊎ HasRaised 1 before.keeping after.keeping before.moments after.moments }
{}

/// Whatever was printed, and whatever the status: the server committed at most once for this sync, the join of what both held, and so it
/// stays if what the sync asked comes again later. A lost reply to a finish is one such end.
pub fn a_sync_commits_once<W: Wire>()
    ensures { (spares : Bool) (host : HostKey) (status : ℕ) (before after : SyncOutside W.kind) (old new : Option (List ℕ))
        → EndsSync spares host status before after old new → CommitsNextOnce host status before after }
{}

/// With status 8, over a keeper that spares memory: nothing was asked; or memory ran out before the finish was asked, or in the last call
/// of the wire; or the sync ended for a reason whose text has a number, a word or a fault in it, and memory ran out for the text.
pub fn memory_runs_out_early<W: Wire>()
    ensures { (host : HostKey) (before after : SyncOutside W.kind) (old new : Option (List ℕ))
        → EndsSync true host 8 before after old new → RunsOutNextEarly host before after }
{}

/// If a sync left the device as it was, be it that the reply to its finish was lost, and nothing came to the server before the next sync, that one,
/// if it prints `finished` with status 0, leaves both with the join of what they held before the first one: what was joined is joined once.
pub fn a_lost_finish_is_healed<W: Wire>()
    ensures { (spares : Bool) (host : HostKey) (status : ℕ) (before mid again after : SyncOutside W.kind)
        → (old new : Option (List ℕ)) (text : List ℕ) → EndsSync spares host status before mid old new
        → EndsSync spares host 0 again after (Some text) (Some (text ++ (codes "finished" ++ 10 ∷ [])))
        → HealsNext host before mid again after }
{}
