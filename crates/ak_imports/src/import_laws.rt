// What follows for every caller from the rules of an import.
ghost use Rattle.std.specs.Prelude.{ℤ, List};
ghost use Rattle.ak_imports.specs.Imports.{AreRecordsDone, IsImported, Progress, arrival_of, edit_to, start_of};
ghost use Rattle.ak_imports.specs.NewNotes.{AreAllAdded, AreNewGuids};
ghost use Rattle.ak_imports.specs.declared.imports.Import.{Import};
ghost use Rattle.ak_imports.specs.declared.imports.Imported.{Imported};
ghost use Rattle.ak_keep.specs.Collections.{Collection};
ghost use Rattle.ak_keep.specs.Keepers.{Keeping};
ghost use Rattle.ak_merge.specs.Edits.{Admits};
ghost use Rattle.ak_merge.specs.Holdings.{AreNamed, row_under};
ghost use Rattle.ak_undo.specs.declared.steps.Step.{Step};

/// The edit of an import is admitted, so it keeps links with servers and that the undo list suits.
#[tactic(auto, using(crate::proofs::Admitting::imports_are_admitted))]
pub fn imports_are_admitted()
    ensures { (at : ℤ) (given : Import) (c : Collection) (end : Progress) → AreNamed (row_under c)
        → AreRecordsDone (arrival_of given at) given.records (start_of c) end → Admits c (edit_to end.collection end.tags) }
{}

/// If no note that is held has a record's guid, and no two records have the same, an import adds a note of each record, in
/// their order, with its guid, its fields and its tags.
#[tactic(auto, using(crate::proofs::NewNotes::new_guids_are_added))]
pub fn new_guids_are_added()
    ensures { (at : ℤ) (given : Import) (c : Collection) (before now : Keeping) (steps left : List Step) (counts : Imported)
        → (is : IsImported at given c before now steps left counts) → AreNewGuids c.rows given.records
        → AreAllAdded given.note_type c.rows is.done.after.rows given.records counts }
{}
