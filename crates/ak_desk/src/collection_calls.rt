ghost use Rattle.std.specs.Prelude.{◌≡◌, drop, [], Err, IfErr, IfOk, OnErr, OnOk};
ghost use Rattle.std.specs.Result.{IsErrOf};
ghost use Rattle.ak_desk.specs.Desks.{IsIdle};
ghost use Rattle.ak_edit.specs.Ends.{IsHeldRightly};
ghost use Rattle.ak_edit.specs.Refusals.{DeskCause, IsFromOutside, IsUndoFault};
ghost use Rattle.ak_edit.specs.Undos.{AnswersUndo, UndoneBy};
ghost use Rattle.ak_edit.specs.declared.desk_faults.DeskFault.TheVariants as faults;
ghost use Rattle.ak_keep.specs.Keepers.{WhereHeld, WhereTold};
ghost use Rattle.ak_merge.specs.Soundness.{first_fault};

use crate::desks::Desk;
use ak_edit::{DeskFault, undo};
use ak_keep::Keeper;
use ak_merge::{CheckFault, check};

impl<'a, K: Keeper> Desk<'a, K> {
    /// Undoes the latest step, at a moment in milliseconds. It is refused as `ak_edit::undo` is.
    pub fn undo(&mut self, at: i64) -> Result<(), DeskFault>
        requires idle { IsIdle (K.keeping self.old.keeper.now) }
        ensures ok { OnOk result (UndoneBy at (K.keeping self.old.keeper.now) (K.keeping self.new.keeper.now)
            self.old.undo.now self.new.undo.now) }
        ensures err { OnErr result (K.keeping self.new.keeper.now ≡ K.keeping self.old.keeper.now) }
        ensures kept { OnErr result (self.new.undo.now ≡ self.old.undo.now) }
        ensures stays { (K.keeping self.new.keeper.now).headed ≡ (K.keeping self.old.keeper.now).headed }
        ensures refused { AnswersUndo at (K.keeping self.old.keeper.now) self.old.undo.now result }
        ensures left { OnOk result (self.new.undo.now ≡ drop 1 self.old.undo.now) }
        ensures empty { self.old.undo.now ≡ [] → result ≡ Err faults.NothingToUndo }
        ensures nothing { IsErrOf result faults.NothingToUndo → self.old.undo.now ≡ [] }
        ensures listed { IfErr result IsUndoFault }
        ensures known { WhereHeld (K.keeping self.old.keeper.now) IsHeldRightly }
        ensures cause { DeskCause (K.health self.old.keeper.now) (K.health self.new.keeper.now) result }
        ensures lent { (self.new.keeper.ghost_name ≡ self.old.keeper.ghost_name)
            × (self.new.undo.ghost_name ≡ self.old.undo.ghost_name) }
    {
        undo(self.keeper, self.undo, at)
    }

    /// The first fault of the collection, or none if it is sound.
    pub fn check(&mut self) -> Result<Option<CheckFault>, DeskFault>
        requires idle { IsIdle (K.keeping self.old.keeper.now) }
        ensures told { IfOk result (λ fault. WhereTold (K.keeping self.old.keeper.now)
            (λ h. fault ≡ first_fault h.rows)) }
        ensures same { K.keeping self.new.keeper.now ≡ K.keeping self.old.keeper.now }
        ensures kept { self.new.undo.now ≡ self.old.undo.now }
        ensures listed { IfErr result IsFromOutside }
        ensures cause { DeskCause (K.health self.old.keeper.now) (K.health self.new.keeper.now) result }
        ensures lent { (self.new.keeper.ghost_name ≡ self.old.keeper.ghost_name)
            × (self.new.undo.ghost_name ≡ self.old.undo.ghost_name) }
    {
        let fault = check(self.keeper)?;
        Ok(fault)
    }
}
