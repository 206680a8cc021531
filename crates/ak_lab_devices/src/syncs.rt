// Syncs, uploads and downloads of a collection in memory, over a wire in memory.
ghost use Rattle.ak_client.specs.Outcomes.{HasOutcomeCause};
ghost use Rattle.ak_client.specs.Syncs.{IsSyncSparing, KeepsDevice};
ghost use Rattle.ak_client.specs.declared.outcomes.Outcome.TheVariants as outcomes;
ghost use Rattle.ak_faults.specs.Calls.{names_none};
ghost use Rattle.ak_keep.specs.Keepers.{all_known};
ghost use Rattle.ak_sync_in_memory.specs.LoopWires.{health_over, inside_with, state_of_loop};
ghost use Rattle.std.specs.Prelude.{◌≡◌, ◌≢◌, [], true, Some};

use crate::held_collections::HeldCollection;
use ak_base::List;
use ak_client::{Ids, Outcome, sync_over};
use ak_io::ListClock;
use ak_sync_in_memory::{Between, LoopWire};
use ak_transfers::{download_over, upload_over};
use ak_undo::UndoList;

impl HeldCollection {
    ghost use Rattle.ak_lab_devices.specs.Devices.{given_outside};
    ghost use Rattle.ak_transfers.specs.Transfers.{IsDownload, IsUpload, StaysUnlessFinished, may_end_download, may_end_upload};

    /// Syncs over a wire, between whose calls others may act, by a clock. The calls of the keeper that are listed fail meanwhile, counted
    /// from 0, and no later ones. Without any it never ends because the keeper failed. It runs out of memory only before it asks its finish, or
    /// in a call of the wire.
    pub fn sync<B: Between>(
        &mut self,
        undo: &mut UndoList,
        wire: &mut LoopWire<B>,
        clock: &mut ListClock,
        ids: Ids,
        fails: List<u64>,
    ) -> Outcome
        ensures ended { IsSyncSparing true ids (all_known self.old) (all_known self.new)
            (health_over wire.old.counts wire.old.mishaps) (health_over wire.new.counts wire.new.mishaps)
            (state_of_loop B.acts B.idle
            (inside_with wire.old.server wire.old.between wire.old.moment wire.old.mishaps wire.old.counts))
            (state_of_loop B.acts B.idle
            (inside_with wire.new.server wire.new.between wire.new.moment wire.new.mishaps wire.new.counts)) (Some clock.old) result }
        ensures device { KeepsDevice 1 (all_known self.old) (all_known self.new) (Some clock.old) (Some clock.new) result }
        ensures unfailed { names_none fails ≡ true → result ≢ outcomes.Keep }
        ensures lost { HasOutcomeCause outcomes.Lost (health_over wire.old.counts wire.old.mishaps)
            (health_over wire.new.counts wire.new.mishaps) result }
        ensures undo { undo.new ≡ [] }
    {
        let alloc = fails.allocator();
        self.keeper.fail_at(fails);
        let outcome = sync_over(&mut self.keeper, undo, wire, clock, ids);
        // A call that the sync did not reach fails in no later one.
        self.keeper.fail_at(List::new(alloc));
        outcome
    }

    /// Uploads over a wire, by a clock. It never ends because the keeper failed.
    pub fn upload<B: Between>(
        &mut self,
        undo: &mut UndoList,
        wire: &mut LoopWire<B>,
        clock: &mut ListClock,
        ids: Ids,
    ) -> Outcome
        ensures uploads { IsUpload true ids (all_known self.old) (all_known self.new)
            (given_outside (health_over wire.old.counts wire.old.mishaps)
            (state_of_loop B.acts B.idle
            (inside_with wire.old.server wire.old.between wire.old.moment wire.old.mishaps wire.old.counts)) (Some clock.old))
            (given_outside (health_over wire.new.counts wire.new.mishaps)
            (state_of_loop B.acts B.idle
            (inside_with wire.new.server wire.new.between wire.new.moment wire.new.mishaps wire.new.counts)) (Some clock.new)) result }
        ensures device { StaysUnlessFinished (all_known self.old) (all_known self.new) result }
        ensures ends { may_end_upload result ≡ true }
        ensures unfailed { result ≢ outcomes.Keep }
        ensures lost { HasOutcomeCause outcomes.Lost (health_over wire.old.counts wire.old.mishaps)
            (health_over wire.new.counts wire.new.mishaps) result }
        ensures undo { undo.new ≡ [] }
    {
        upload_over(&mut self.keeper, undo, wire, clock, ids)
    }

    /// Downloads over a wire, by a clock. It never ends because the keeper failed.
    pub fn download<B: Between>(
        &mut self,
        undo: &mut UndoList,
        wire: &mut LoopWire<B>,
        clock: &mut ListClock,
        ids: Ids,
    ) -> Outcome
        ensures downloads { IsDownload ids (all_known self.old) (all_known self.new)
            (given_outside (health_over wire.old.counts wire.old.mishaps)
            (state_of_loop B.acts B.idle
            (inside_with wire.old.server wire.old.between wire.old.moment wire.old.mishaps wire.old.counts)) (Some clock.old))
            (given_outside (health_over wire.new.counts wire.new.mishaps)
            (state_of_loop B.acts B.idle
            (inside_with wire.new.server wire.new.between wire.new.moment wire.new.mishaps wire.new.counts)) (Some clock.new)) result }
        ensures device { StaysUnlessFinished (all_known self.old) (all_known self.new) result }
        ensures ends { may_end_download result ≡ true }
        ensures unfailed { result ≢ outcomes.Keep }
        ensures lost { HasOutcomeCause outcomes.Lost (health_over wire.old.counts wire.old.mishaps)
            (health_over wire.new.counts wire.new.mishaps) result }
        ensures undo { undo.new ≡ [] }
    {
        download_over(&mut self.keeper, undo, wire, clock, ids)
    }
}
