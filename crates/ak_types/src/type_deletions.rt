ghost use Rattle.std.specs.Prelude.{◌≡◌, true, false, IfErr};
ghost use Rattle.ak_edit.specs.Refusals.{DeskCause};
ghost use Rattle.ak_edit_calls.specs.Calls.{EditsBy};
ghost use Rattle.ak_keep.specs.Keepers.{is_marked};
ghost use Rattle.ak_notes.specs.MadeNotes.{AnswersIn};
ghost use Rattle.ak_types.specs.TypeDeletions.{IsKeptFault, IsDeletionFault, RefusesKept, RefusesDeletion, type_deletion};

use crate::used_types::has_notes;
use ak_base::{Name, Table};
use ak_edit::{Change, DeskFault};
use ak_edit_calls::held_row;
use ak_keep::Keeper;
use ak_undo::UndoList;

/// The id of a note type, and whether the schema may change.
#[derive(Clone, Copy, Debug)]
pub struct DeleteNoteType {
    pub note_type: i64,
    pub allow: bool,
}

/// Deletes a note type that no note has, at a moment in milliseconds. The schema changes, so the undo list is emptied, and the next
/// sync is a full one. It is refused if the type is not held, then if a note has it, then if the schema may not change, and then
/// for a moment that can't rise.
pub fn delete_note_type<K: Keeper>(
    keeper: &mut K,
    steps: &mut UndoList,
    deleted: &DeleteNoteType,
    at: i64,
) -> Result<(), DeskFault>
    requires unmarked { is_marked (K.keeping keeper.old) ≡ false }
    requires held { (K.keeping keeper.old).headed.current ≡ true }
    ensures edits { EditsBy K.Lookup keeper.old keeper.new steps.old steps.new result at
        (type_deletion deleted.now.note_type) (RefusesDeletion at deleted.now.note_type deleted.now.allow) }
    ensures listed { IfErr result (IsDeletionFault deleted.now.note_type) }
    ensures cause { DeskCause (K.health keeper.old) (K.health keeper.new) result }
{
    let name = Name {
        table: Table::NoteType,
        id: deleted.note_type,
    };
    let held = held_row(keeper, name)?;
    drop(held);
    test_kept(keeper, deleted)?;
    let mut change = Change::new(steps.allocator());
    change.change_schema();
    change.remove(name)?;
    change.finish(keeper, steps, at)
}

/// Refuses a type that a note has, and then a change of the schema that is not allowed.
fn test_kept<K: Keeper>(keeper: &mut K, deleted: &DeleteNoteType) -> Result<(), DeskFault>
    ensures same { K.keeping keeper.new ≡ K.keeping keeper.old }
    ensures refused { AnswersIn K.Lookup keeper.old result (RefusesKept deleted.now.note_type deleted.now.allow) }
    ensures listed { IfErr result (IsKeptFault deleted.now.note_type) }
    ensures cause { DeskCause (K.health keeper.old) (K.health keeper.new) result }
{
    if has_notes(keeper, deleted.note_type)? {
        return Err(DeskFault::InUse(Name {
            table: Table::NoteType,
            id: deleted.note_type,
        }));
    }
    if !deleted.allow {
        return Err(DeskFault::SchemaAsk);
    }
    Ok(())
}
