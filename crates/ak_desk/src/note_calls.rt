ghost use Rattle.std.specs.Prelude.{◌≡◌, IfErr, IfOk, OnErr, OnOk};
ghost use Rattle.ak_base.specs.declared.names.Table.TheVariants as tables;
ghost use Rattle.ak_desk.specs.Desks.{EditsAt, IsIdle};
ghost use Rattle.ak_edit.specs.Refusals.{AnswersBy, DeskCause};
ghost use Rattle.ak_edit_calls.specs.Calls.{IsMissingOrEnd};
ghost use Rattle.ak_keep.specs.Keepers.{WhereHeld};
ghost use Rattle.ak_notes.specs.Additions.{DoesAdd, IsAddFault, RefusesAddition};
ghost use Rattle.ak_notes.specs.Deletions.{RefusesDeletion, deletion};
ghost use Rattle.ak_notes.specs.NoteEdits.{DoesEditNote, IsNoteEditFault, RefusesNoteEdit};

use crate::desks::Desk;
use ak_edit::DeskFault;
use ak_keep::Keeper;
use ak_notes::{Added, NewNote, NoteEdit, add_note, delete_notes, edit_note};

impl<'a, K: Keeper> Desk<'a, K> {
    /// Adds a note with its cards, at a moment in milliseconds, and gives their ids. It is refused as
    /// `ak_notes::add_note` is.
    pub fn add_note(&mut self, new: &NewNote, at: i64) -> Result<Added, DeskFault>
        requires idle { IsIdle (K.keeping self.old.keeper.now) }
        ensures ok { IfOk result (DoesAdd at new.now (K.keeping self.old.keeper.now) (K.keeping self.new.keeper.now)
            self.old.undo.now self.new.undo.now) }
        ensures err { OnErr result (K.keeping self.new.keeper.now ≡ K.keeping self.old.keeper.now) }
        ensures kept { OnErr result (self.new.undo.now ≡ self.old.undo.now) }
        ensures stays { (K.keeping self.new.keeper.now).headed ≡ (K.keeping self.old.keeper.now).headed }
        ensures refused { WhereHeld (K.keeping self.old.keeper.now)
            (λ c. AnswersBy (RefusesAddition at new.now c) result) }
        ensures listed { IfErr result (IsAddFault new.now) }
        ensures cause { DeskCause (K.health self.old.keeper.now) (K.health self.new.keeper.now) result }
        ensures lent { (self.new.keeper.ghost_name ≡ self.old.keeper.ghost_name)
            × (self.new.undo.ghost_name ≡ self.old.undo.ghost_name) }
    {
        add_note(self.keeper, self.undo, new, at)
    }

    /// Gives a note other fields and tags, at a moment in milliseconds, and makes the cards that it lacks. It is
    /// refused as `ak_notes::edit_note` is.
    pub fn edit_note(&mut self, given: &NoteEdit, at: i64) -> Result<(), DeskFault>
        requires idle { IsIdle (K.keeping self.old.keeper.now) }
        ensures ok { OnOk result (DoesEditNote at given.now
            (K.keeping self.old.keeper.now) (K.keeping self.new.keeper.now) self.old.undo.now self.new.undo.now) }
        ensures err { OnErr result (K.keeping self.new.keeper.now ≡ K.keeping self.old.keeper.now) }
        ensures kept { OnErr result (self.new.undo.now ≡ self.old.undo.now) }
        ensures stays { (K.keeping self.new.keeper.now).headed ≡ (K.keeping self.old.keeper.now).headed }
        ensures refused { WhereHeld (K.keeping self.old.keeper.now)
            (λ c. AnswersBy (RefusesNoteEdit at given.now c) result) }
        ensures listed { IfErr result (IsNoteEditFault given.now) }
        ensures cause { DeskCause (K.health self.old.keeper.now) (K.health self.new.keeper.now) result }
        ensures lent { (self.new.keeper.ghost_name ≡ self.old.keeper.ghost_name)
            × (self.new.undo.ghost_name ≡ self.old.undo.ghost_name) }
    {
        edit_note(self.keeper, self.undo, given, at)
    }

    /// Deletes notes with their cards, at a moment in milliseconds. It is refused as `ak_notes::delete_notes` is.
    pub fn delete_notes(&mut self, notes: &[i64], at: i64) -> Result<(), DeskFault>
        requires idle { IsIdle (K.keeping self.old.keeper.now) }
        ensures edits { EditsAt K.Lookup self.old self.new result at
            (deletion notes.now) (RefusesDeletion at notes.now) }
        ensures listed { IfErr result (IsMissingOrEnd tables.Note) }
        ensures cause { DeskCause (K.health self.old.keeper.now) (K.health self.new.keeper.now) result }
        ensures lent { (self.new.keeper.ghost_name ≡ self.old.keeper.ghost_name)
            × (self.new.undo.ghost_name ≡ self.old.undo.ghost_name) }
    {
        delete_notes(self.keeper, self.undo, notes, at)
    }
}
