ghost use Rattle.std.specs.Prelude.{◌≡◌, [], true, false, IfErr, OnErr, OnOk};
ghost use Rattle.ak_edit.specs.Ends.{AnswersEnd, IsHeldRightly};
ghost use Rattle.ak_edit.specs.Refusals.{DeskCause, IsEndFault};
ghost use Rattle.ak_filtered.specs.ClearedEdits.{ClearedBy};
ghost use Rattle.ak_keep.specs.Keepers.{WhereHeld, is_marked};

use ak_edit::{Change, DeskFault};
use ak_keep::Keeper;
use ak_undo::UndoList;

/// Ends the edit at a moment in milliseconds, in one commit, and clears the undo list, also if the edit changes nothing. A refusal
/// leaves both as they were.
pub fn finish_cleared<K: Keeper>(
    change: Change,
    keeper: &mut K,
    steps: &mut UndoList,
    at: i64,
) -> Result<(), DeskFault>
    requires unmarked { is_marked (K.keeping keeper.old) ≡ false }
    requires held { (K.keeping keeper.old).headed.current ≡ true }
    ensures ok { OnOk result (ClearedBy at change (K.keeping keeper.old) (K.keeping keeper.new) steps.new) }
    ensures list { OnOk result (steps.new ≡ []) }
    ensures err { OnErr result (K.keeping keeper.new ≡ K.keeping keeper.old) }
    ensures kept { OnErr result (steps.new ≡ steps.old) }
    ensures stays { (K.keeping keeper.new).headed ≡ (K.keeping keeper.old).headed }
    ensures refused { AnswersEnd at change (K.keeping keeper.old) result }
    ensures listed { IfErr result IsEndFault }
    ensures known { WhereHeld (K.keeping keeper.old) IsHeldRightly }
    ensures cause { DeskCause (K.health keeper.old) (K.health keeper.new) result }
{
    change.finish(keeper, steps, at)?;
    steps.clear();
    Ok(())
}
