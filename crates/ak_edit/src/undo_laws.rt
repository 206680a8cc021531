// What follows for every caller from the contract of an undo.
ghost use Rattle.std.specs.Prelude.{ℤ, List};
ghost use Rattle.ak_keep.specs.Collections.{Collection};
ghost use Rattle.ak_keep.specs.Keepers.{Keeping};
ghost use Rattle.ak_undo.specs.declared.steps.Step.{Step};
ghost use Rattle.ak_edit.specs.Undos.{IsLatestUndone, SuitsNow, UndoKeepsAll};

/// What an undo keeps, if the undo list suited what was held: names, graves, links with servers,
/// that steps fit them, and that the list without the step suits what is left.
pub fn undone_steps_keep_all()
    ensures { (at : ℤ) (c : Collection) (k l : Keeping) (steps left : List Step) → (is : IsLatestUndone at c k l steps left) → SuitsNow steps c → UndoKeepsAll c is.step left is.after }
{}
