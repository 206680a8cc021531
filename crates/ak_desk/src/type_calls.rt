ghost use Rattle.std.specs.Prelude.{◌≡◌, IfErr, IfOk, OnErr, OnOk};
ghost use Rattle.ak_desk.specs.Desks.{EditsAt, IsIdle};
ghost use Rattle.ak_edit.specs.Refusals.{AnswersBy, DeskCause};
ghost use Rattle.ak_edit_calls.specs.Additions.{AddsBy};
ghost use Rattle.ak_keep.specs.Collections.{IsId};
ghost use Rattle.ak_keep.specs.Keepers.{WhereHeld};
ghost use Rattle.ak_types.specs.TypeAdditions.{IsAdditionFault, given_type};
ghost use Rattle.ak_types.specs.TypeDeletions.{IsDeletionFault, RefusesDeletion, type_deletion};
ghost use Rattle.ak_types.specs.TypeEdits.{DoesEditType, IsTypeEditFault, RefusesTypeEdit};

use crate::desks::Desk;
use ak_base::NoteType;
use ak_edit::DeskFault;
use ak_keep::Keeper;
use ak_types::{DeleteNoteType, TypeEdit, add_note_type, delete_note_type, edit_note_type};

impl<'a, K: Keeper> Desk<'a, K> {
    /// Adds a note type, at a moment in milliseconds, and gives its id. It is refused as `ak_types::add_note_type` is.
    pub fn add_note_type(&mut self, note_type: NoteType, at: i64) -> Result<i64, DeskFault>
        requires idle { IsIdle (K.keeping self.old.keeper.now) }
        ensures adds { AddsBy K.Lookup self.old.keeper.now self.new.keeper.now self.old.undo.now self.new.undo.now
            result (given_type at note_type) }
        ensures range { IfOk result IsId }
        ensures listed { IfErr result IsAdditionFault }
        ensures cause { DeskCause (K.health self.old.keeper.now) (K.health self.new.keeper.now) result }
        ensures lent { (self.new.keeper.ghost_name ≡ self.old.keeper.ghost_name)
            × (self.new.undo.ghost_name ≡ self.old.undo.ghost_name) }
    {
        add_note_type(self.keeper, self.undo, note_type, at)
    }

    /// Puts a note type in place of the one of its id, at a moment in milliseconds; its notes and their cards follow. If a
    /// map of places is not the whole old list, the schema changes, and the undo list is emptied. It is refused as
    /// `ak_types::edit_note_type` is.
    pub fn edit_note_type(&mut self, given: &TypeEdit, at: i64) -> Result<(), DeskFault>
        requires idle { IsIdle (K.keeping self.old.keeper.now) }
        ensures ok { OnOk result (DoesEditType at given.now
            (K.keeping self.old.keeper.now) (K.keeping self.new.keeper.now) self.old.undo.now self.new.undo.now) }
        ensures err { OnErr result (K.keeping self.new.keeper.now ≡ K.keeping self.old.keeper.now) }
        ensures kept { OnErr result (self.new.undo.now ≡ self.old.undo.now) }
        ensures stays { (K.keeping self.new.keeper.now).headed ≡ (K.keeping self.old.keeper.now).headed }
        ensures refused { WhereHeld (K.keeping self.old.keeper.now)
            (λ c. AnswersBy (RefusesTypeEdit at given.now c) result) }
        ensures listed { IfErr result (IsTypeEditFault given.now.note_type.id) }
        ensures cause { DeskCause (K.health self.old.keeper.now) (K.health self.new.keeper.now) result }
        ensures lent { (self.new.keeper.ghost_name ≡ self.old.keeper.ghost_name)
            × (self.new.undo.ghost_name ≡ self.old.undo.ghost_name) }
    {
        edit_note_type(self.keeper, self.undo, given, at)
    }

    /// Deletes a note type that no note has, at a moment in milliseconds: the schema changes, and the undo list is emptied.
    /// It is refused as `ak_types::delete_note_type` is.
    pub fn delete_note_type(&mut self, deleted: &DeleteNoteType, at: i64) -> Result<(), DeskFault>
        requires idle { IsIdle (K.keeping self.old.keeper.now) }
        ensures edits { EditsAt K.Lookup self.old self.new result at
            (type_deletion deleted.now.note_type) (RefusesDeletion at deleted.now.note_type deleted.now.allow) }
        ensures listed { IfErr result (IsDeletionFault deleted.now.note_type) }
        ensures cause { DeskCause (K.health self.old.keeper.now) (K.health self.new.keeper.now) result }
        ensures lent { (self.new.keeper.ghost_name ≡ self.old.keeper.ghost_name)
            × (self.new.undo.ghost_name ≡ self.old.undo.ghost_name) }
    {
        delete_note_type(self.keeper, self.undo, deleted, at)
    }
}
