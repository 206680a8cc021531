// What follows for every caller from the rules of these calls: their edits are admitted, so each keeps links with servers, and the
// undo list suits what each leaves.
ghost use Rattle.std.specs.Prelude.{ℤ, List};
ghost use Rattle.ak_base.specs.declared.cards.Card.{Card};
ghost use Rattle.ak_base.specs.declared.heads.Conf.{Conf};
ghost use Rattle.ak_base.specs.declared.note_types.NoteType.{NoteType};
ghost use Rattle.ak_keep.specs.Collections.{Collection};
ghost use Rattle.ak_merge.specs.Edits.{Admits};
ghost use Rattle.ak_merge.specs.Holdings.{AreNamed, row_under};
ghost use Rattle.ak_types.specs.TypeAdditions.{given_addition};
ghost use Rattle.ak_types.specs.TypeDeletions.{type_deletion};
ghost use Rattle.ak_types.specs.TypeEdits.{IsRetyping, retyping};
ghost use Rattle.ak_types.specs.declared.type_edits.TypeEdit.{TypeEdit};

/// The edit that adds a note type is admitted: types leave no graves, so any id will do.
pub fn additions_are_admitted()
    ensures { (note_type : NoteType) (id : ℤ) (c : Collection) → AreNamed (row_under c) → Admits c (given_addition note_type id c) }
{}

/// The edit that deletes a note type is admitted.
pub fn deletions_are_admitted()
    ensures { (note_type : ℤ) (c : Collection) → AreNamed (row_under c) → Admits c (type_deletion note_type c) }
{}

/// The edit that puts a note type in place of another is admitted.
pub fn edits_are_admitted()
    ensures { (at : ℤ) (given : TypeEdit) (c : Collection) (old : NoteType) (cards : List Card) (conf : Conf) → AreNamed (row_under c)
        → IsRetyping at given c old cards conf → Admits c (retyping given old cards conf c) }
{}
