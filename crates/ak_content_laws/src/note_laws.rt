// What the calls on notes keep.
ghost use Rattle.std.specs.Prelude.{Result, ℤ, List};
ghost use Rattle.ak_content_laws.specs.KeptContents.{SaysTexts};
ghost use Rattle.ak_content_laws.specs.SoundCalls.{EndsOrStays, HoldsSound};
ghost use Rattle.ak_edit.specs.Ends.{IsHeldRightly};
ghost use Rattle.ak_edit.specs.declared.desk_faults.DeskFault.{DeskFault};
ghost use Rattle.ak_edit_calls.specs.Calls.{EndsEdit};
ghost use Rattle.ak_keep.specs.Collections.{Collection};
ghost use Rattle.ak_keep.specs.Keepers.{Keeping};
ghost use Rattle.ak_notes.specs.Additions.{DoesAdd, IsAdded, RefusesAddition};
ghost use Rattle.ak_notes.specs.Deletions.{RefusesDeletion, deletion};
ghost use Rattle.ak_notes.specs.NoteEdits.{DoesEditNote, IsNoteEdited, RefusesNoteEdit};
ghost use Rattle.ak_notes.specs.declared.additions.Added.{Added};
ghost use Rattle.ak_notes.specs.declared.additions.NewNote.{NewNote};
ghost use Rattle.ak_notes.specs.declared.note_edits.NoteEdit.{NoteEdit};
ghost use Rattle.ak_undo.specs.declared.steps.Step.{Step};

/// A call that adds a note, accepted or refused, keeps what is held sound, and each undo: the note has its type and a card, and each of its cards
/// its template.
pub fn added_notes_keep_sound()
    ensures { (at : ℤ) (new : NewNote) (before now : Keeping) (steps left : List Step) (result : Result Added DeskFault)
        → EndsOrStays (DoesAdd at new before now steps left) before now steps left result → HoldsSound before steps → HoldsSound now left }
{}

/// So does one that edits a note and makes the cards that it lacks.
pub fn edited_notes_keep_sound()
    ensures { (at : ℤ) (given : NoteEdit) (before now : Keeping) (steps left : List Step) (result : Result (Unit {0}) DeskFault)
        → EndsOrStays (λ _. DoesEditNote at given before now steps left) before now steps left result → HoldsSound before steps → HoldsSound now left }
{}

/// So does one that deletes notes with their cards.
pub fn deleted_notes_keep_sound()
    ensures { (at : ℤ) (notes : List ℤ) (before now : Keeping) (steps left : List Step) (result : Result (Unit {0}) DeskFault)
        → EndsEdit at (deletion notes) (RefusesDeletion at notes) before now steps left result → HoldsSound before steps → HoldsSound now left }
{}

/// A note that was added says the fields that were given, as many as its type has, and the tags that were given, each of them and no
/// other. The other notes are as they were.
pub fn added_notes_say_what_was_given()
    ensures { (at : ℤ) (new : NewNote) (c : Collection) (before now : Keeping) (steps left : List Step) (added : Added) → IsHeldRightly c
        → ((fault : DeskFault) → RefusesAddition at new c fault → ⊥) → (is : IsAdded at new c before now steps left added)
        → SaysTexts new.fields new.tags added.note c is.done.after }
{}

/// So does a note that was edited.
pub fn edited_notes_say_what_was_given()
    ensures { (at : ℤ) (given : NoteEdit) (c : Collection) (before now : Keeping) (steps left : List Step) → IsHeldRightly c
        → ((fault : DeskFault) → RefusesNoteEdit at given c fault → ⊥) → (is : IsNoteEdited at given c before now steps left)
        → SaysTexts given.fields given.tags given.note c is.done.after }
{}
