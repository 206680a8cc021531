// What follows for every caller from the rules of the calls on notes.
ghost use Rattle.std.specs.Prelude.{ℤ, List};
ghost use Rattle.ak_keep.specs.Collections.{Collection};
ghost use Rattle.ak_merge.specs.Edits.{Admits};
ghost use Rattle.ak_merge.specs.Holdings.{AreNamed, row_under};
ghost use Rattle.ak_notes.specs.Additions.{IsAddition};
ghost use Rattle.ak_notes.specs.Deletions.{deletion};
ghost use Rattle.ak_notes.specs.MadeNotes.{made_edit};
ghost use Rattle.ak_notes.specs.NoteEdits.{IsNoteEdit};
ghost use Rattle.ak_notes.specs.declared.additions.NewNote.{NewNote};
ghost use Rattle.ak_notes.specs.declared.made_notes.MadeNote.{MadeNote};
ghost use Rattle.ak_notes.specs.declared.note_edits.NoteEdit.{NoteEdit};

/// The edit that deletes notes is admitted, so it keeps links with servers and that the undo list suits.
pub fn deletions_are_admitted()
    ensures { (notes : List ℤ) (c : Collection) → AreNamed (row_under c) → Admits c (deletion notes c) }
{}

/// The edit that adds a note with its cards is admitted, so it keeps links with servers and that the undo list suits.
pub fn additions_are_admitted()
    ensures { (at : ℤ) (new : NewNote) (c : Collection) (made : MadeNote) → AreNamed (row_under c) → IsAddition at new c.rows c.head made → Admits c (made_edit new.tags made c) }
{}

/// The edit that changes a note and makes the cards that it lacks is admitted, so it keeps links with servers and that the
/// undo list suits.
pub fn note_edits_are_admitted()
    ensures { (at : ℤ) (given : NoteEdit) (c : Collection) (made : MadeNote) → AreNamed (row_under c) → IsNoteEdit at given c.rows c.head made → Admits c (made_edit given.tags made c) }
{}
