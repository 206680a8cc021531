// What the calls on note types keep.
ghost use Rattle.std.specs.Prelude.{◌≡◌, ◌≢◌, Result, Some, ℤ, Bool, List};
ghost use Rattle.ak_base.specs.declared.cards.Card.{Card};
ghost use Rattle.ak_base.specs.declared.note_types.NoteType.{NoteType};
ghost use Rattle.ak_content_laws.specs.KeptContents.{MovesFields};
ghost use Rattle.ak_content_laws.specs.SoundCalls.{EndsOrStays, HoldsSound, IsSoundInRange};
ghost use Rattle.ak_edit.specs.Refusals.{AnswersBy};
ghost use Rattle.ak_edit.specs.declared.desk_faults.DeskFault.{DeskFault};
ghost use Rattle.ak_edit_calls.specs.Additions.{EndsAddition};
ghost use Rattle.ak_edit_calls.specs.Calls.{EndsEdit};
ghost use Rattle.ak_keep.specs.Collections.{Collection};
ghost use Rattle.ak_keep.specs.Keepers.{Keeping, WhereHeld};
ghost use Rattle.ak_keep.specs.Lookups.{card_at};
ghost use Rattle.ak_merge.specs.Holdings.{row_under};
ghost use Rattle.ak_types.specs.TypeAdditions.{given_type};
ghost use Rattle.ak_types.specs.TypeDeletions.{RefusesDeletion, type_deletion};
ghost use Rattle.ak_types.specs.TypeEdits.{DoesEditType, IsTypeEdited, RefusesTypeEdit};
ghost use Rattle.ak_types.specs.declared.type_edits.TypeEdit.{TypeEdit};
ghost use Rattle.ak_undo.specs.declared.steps.Step.{Step};

/// A call that adds a note type, accepted or refused, keeps what is held sound, and each undo.
pub fn added_types_keep_sound()
    ensures { (at : ℤ) (note_type : NoteType) (before now : Keeping) (steps left : List Step) (result : Result ℤ DeskFault)
        → EndsAddition (given_type at note_type) before now steps left result
        → HoldsSound before steps → HoldsSound now left }
{}

/// So does one that deletes a note type.
pub fn deleted_types_keep_sound()
    ensures { (at note_type : ℤ) (allow : Bool) (before now : Keeping) (steps left : List Step) (result : Result (Unit {0}) DeskFault)
        → EndsEdit at (type_deletion note_type) (RefusesDeletion at note_type allow) before now steps left result
        → HoldsSound before steps → HoldsSound now left }
{}

/// So does one that puts a note type in place of the one of its id: each of its notes has a card afterwards, and each card that stays a
/// template of the new type.
pub fn edited_types_keep_sound()
    ensures { (at : ℤ) (given : TypeEdit) (before now : Keeping) (steps left : List Step) (result : Result (Unit {0}) DeskFault)
        → EndsOrStays (λ _. DoesEditType at given before now steps left) before now steps left result
        → WhereHeld before (λ c. AnswersBy (RefusesTypeEdit at given c) result) → HoldsSound before steps → HoldsSound now left }
{}

/// No two cards of one note that stay in an edit of its type get one ord, if they had two: of a sound collection.
pub fn kept_cards_stay_apart()
    ensures { (at : ℤ) (given : TypeEdit) (c : Collection) (before now : Keeping) (steps left : List Step)
        → ((fault : DeskFault) → RefusesTypeEdit at given c fault → ⊥) → (is : IsTypeEdited at given c before now steps left)
        → IsSoundInRange (row_under c) → (one other a b : Card) → card_at c.rows one.id ≡ Some one → card_at c.rows other.id ≡ Some other
        → one.nid ≡ other.nid → one.ord ≢ other.ord → card_at is.done.after.rows one.id ≡ Some a
        → card_at is.done.after.rows other.id ≡ Some b → a.ord ≢ b.ord }
{}

/// The notes of a type that is edited have the fields to which its map leads, as many as the new type has, and their tags; notes of
/// other types are as they were: of a sound collection.
pub fn edited_types_move_fields()
    ensures { (at : ℤ) (given : TypeEdit) (c : Collection) (before now : Keeping) (steps left : List Step)
        → ((fault : DeskFault) → RefusesTypeEdit at given c fault → ⊥) → (is : IsTypeEdited at given c before now steps left)
        → IsSoundInRange (row_under c) → MovesFields given c is.done.after }
{}
