// What every edit and every undo keeps.
ghost use Rattle.std.specs.Prelude.{◌≡◌, ◌↔◌, [], None, Result, Some, ℤ, List};
ghost use Rattle.ak_content_laws.specs.SoundCalls.{EndsOrStays, HoldsSound, IsSoundInRange, collection_told};
ghost use Rattle.ak_edit.specs.Ends.{IsFinished, IsHeldRightly};
ghost use Rattle.ak_edit.specs.Undos.{UndoneBy};
ghost use Rattle.ak_edit.specs.declared.desk_faults.DeskFault.{DeskFault};
ghost use Rattle.ak_filtered.specs.ClearedEdits.{IsCleared};
ghost use Rattle.ak_keep.specs.Collections.{Collection};
ghost use Rattle.ak_keep.specs.Keepers.{Keeping};
ghost use Rattle.ak_merge.specs.Edits.{Edit, IsEdited};
ghost use Rattle.ak_merge.specs.Holdings.{row_under};
ghost use Rattle.ak_merge.specs.Soundness.{IsSound, first_fault};
ghost use Rattle.ak_undo.specs.declared.steps.Step.{Step};

/// What an edit leaves is sound exactly if the rows that it asks for are: stamps, usns and graves make no difference.
pub fn edits_leave_what_they_ask_for()
    ensures { (at : ℤ) (c after : Collection) (edit : Edit) → IsEdited at c edit after → IsSound edit.rows ↔ IsSound (row_under after) }
{}

/// A collection whose rows pass their checks and in which the basic check finds nothing is one to begin with, if there is no step to
/// undo. In each one that is kept so the check finds nothing.
pub fn sound_begins_with_a_check()
    ensures begins { (k : Keeping) (c : Collection) → collection_told k ≡ Some c → IsHeldRightly c → first_fault c.rows ≡ None
        → HoldsSound k [] }
    ensures finds { (k : Keeping) (steps : List Step) → (held : HoldsSound k steps) → IsHeldRightly held.c → first_fault held.c.rows ≡ None }
{}

/// An edit that asks for sound rows keeps that what is held is sound and that each undo leaves it so, whether it has a step or clears
/// the undo list.
pub fn edits_keep_sound()
    ensures finished { (at : ℤ) (edit : Edit) (before now : Keeping) (steps left : List Step) → (held : HoldsSound before steps)
        → IsFinished at held.c edit before now steps left → IsSoundInRange edit.rows → HoldsSound now left }
    ensures cleared { (at : ℤ) (edit : Edit) (before now : Keeping) (steps left : List Step) → (held : HoldsSound before steps)
        → IsCleared at held.c edit before now left → IsSoundInRange edit.rows → HoldsSound now left }
{}

/// An undo, accepted or refused, keeps it.
pub fn undos_keep_sound()
    ensures { (at : ℤ) (before now : Keeping) (steps left : List Step) (result : Result (Unit {0}) DeskFault)
        → EndsOrStays (λ _. UndoneBy at before now steps left) before now steps left result → HoldsSound before steps → HoldsSound now left }
{}
