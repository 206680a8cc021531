ghost use Rattle.ak_keep.specs.Collections.{Collection};
ghost use Rattle.std.specs.Prelude.{◌≡◌, ℤ, false, true, List, [], ◌∷◌, ◌++◌};
ghost use Rattle.ak_base.specs.declared.heads.Tag.{Tag};
ghost use Rattle.ak_keep.specs.Graves.{RowsByName};
ghost use Rattle.ak_merge.specs.Holdings.{row_under, AreNamed, IsSingle};
ghost use Rattle.ak_merge.specs.Links.{AreLinked};
ghost use Rattle.ak_merge.specs.Edits.{Edit, Reversal, Admits, IsEdited, GivesFreshSchema, reversal_of};
ghost use Rattle.ak_merge.specs.Undoing.{IsEdit, IsListAfter, IsUndone, IsBack, StepFits, StepsSuit};

/// An edit that leaves the schema keeps a device's collection linked with every collection of a
/// server with which it was linked.
pub fn edits_keep_links()
    ensures { (at : ℤ) (c after s : Collection) (edit : Edit) → Admits c edit → edit.schema ≡ false → IsEdited at c edit after → AreLinked c s → AreLinked after s }
{}

/// After an edit that changes the schema, a device's collection is linked with every collection of a
/// server that has not by chance the very schema moment that the edit gives.
#[tactic(auto, using(crate::proofs::EditLaws::schema_edits_part))]
pub fn schema_edits_part()
    ensures { (at : ℤ) (c after s : Collection) (edit : Edit) → edit.schema ≡ true → IsEdited at c edit after → GivesFreshSchema at c s → AreLinked after s }
{}

/// The step of an edit that leaves the schema fits every collection of a server with which the device
/// was linked.
pub fn steps_fit()
    ensures { (at : ℤ) (c after s : Collection) (edit : Edit) → Admits c edit → edit.schema ≡ false → IsEdited at c edit after → AreLinked c s → StepFits after (reversal_of c edit) s }
{}

/// The undo list with the step of an edit that leaves the schema suits what the edit leaves. Each row
/// of the collection stands under its name.
pub fn lists_suit()
    ensures { (at : ℤ) (c after : Collection) (edit : Edit) (steps : List Reversal) → AreNamed (row_under c) → Admits c edit → edit.schema ≡ false → IsEdited at c edit after → StepsSuit steps (row_under c) c.head.tags → StepsSuit (reversal_of c edit ∷ steps) (row_under after) after.head.tags }
{}

/// What the undo list becomes by an edit suits what the edit leaves.
pub fn lists_after_suit()
    ensures { (at : ℤ) (c after : Collection) (edit : Edit) (steps now : List Reversal) → IsEdit at c edit after → AreNamed (row_under c) → IsListAfter c edit after steps now → StepsSuit steps (row_under c) c.head.tags → StepsSuit now (row_under after) after.head.tags }
{}

/// An undo of the latest step keeps a device's collection linked with every collection of a server
/// with which it was linked and that the step fits.
pub fn undos_keep_links()
    ensures { (at : ℤ) (c after s : Collection) (step : Reversal) (steps : List Reversal) → IsUndone at c step after → StepsSuit (step ∷ steps) (row_under c) c.head.tags → StepFits c step s → AreLinked c s → AreLinked after s }
{}

/// After an undo the undo list without the latest step suits what is left.
pub fn lists_suit_after_undo()
    ensures { (at : ℤ) (c after : Collection) (step : Reversal) (steps : List Reversal) → IsUndone at c step after → StepsSuit (step ∷ steps) (row_under c) c.head.tags → StepsSuit steps (row_under after) after.head.tags }
{}

/// An undo list that suits a collection still does when its oldest step is dropped.
pub fn oldest_may_go()
    ensures { (steps : List Reversal) (old : Reversal) (at : RowsByName) (tags : List Tag) → StepsSuit (steps ++ old ∷ []) at tags → StepsSuit steps at tags }
{}

/// A step that fits a collection of a server still does after further edits and undos on the device,
/// none of which changes the schema.
pub fn steps_still_fit()
    ensures { (c after s : Collection) (step : Reversal) → after.head.schema ≡ c.head.schema → after.head.usn ≡ c.head.usn → StepFits c step s → StepFits after step s }
{}

/// After an edit, of the schema too, each row stands under its name, and none beside its own grave if none did.
pub fn edits_keep_names()
    ensures named { (at : ℤ) (c after : Collection) (edit : Edit) → Admits c edit → IsEdited at c edit after → AreNamed (row_under c) → AreNamed (row_under after) }
    ensures single { (at : ℤ) (c after : Collection) (edit : Edit) → Admits c edit → IsEdited at c edit after → IsSingle (row_under c) → IsSingle (row_under after) }
{}

/// After an undo each row stands under its name, and none beside its own grave.
pub fn undos_keep_names()
    ensures { (at : ℤ) (c after : Collection) (step : Reversal) (steps : List Reversal) → IsUndone at c step after → StepsSuit (step ∷ steps) (row_under c) c.head.tags → AreNamed (row_under c) → AreNamed (row_under after) × IsSingle (row_under after) }
{}

/// The undo of an edit gives the collection before it, but for stamps and usns.
pub fn undos_give_back()
    ensures { (at later : ℤ) (c after back : Collection) (edit : Edit) → IsEdited at c edit after → IsUndone later after (reversal_of c edit) back → IsBack c back }
{}
