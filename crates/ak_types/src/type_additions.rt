ghost use Rattle.std.specs.Prelude.{◌≡◌, true, false, IfErr, IfOk};
ghost use Rattle.ak_base.specs.NoteTypes.{IsCheckedNoteType};
ghost use Rattle.ak_edit.specs.Refusals.{DeskCause};
ghost use Rattle.ak_edit_calls.specs.Additions.{AddsBy};
ghost use Rattle.ak_keep.specs.Collections.{IsId};
ghost use Rattle.ak_keep.specs.Keepers.{is_marked};
ghost use Rattle.ak_types.specs.GivenTypes.{as_given};
ghost use Rattle.ak_types.specs.TypeAdditions.{IsAdditionFault, given_type, new_type};

use crate::given_types::{as_given, check_given, check_sides, with_id};
use ak_base::{NoteType, Row, Table};
use ak_edit::DeskFault;
use ak_edit_calls::{add_row, new_name};
use ak_keep::Keeper;
use ak_undo::UndoList;

/// Adds a note type, at a moment in milliseconds, and gives its id: the least free one from the moment on. The given id, stamp
/// and usn are replaced. It is refused if the given type is out of its ranges, then if no id is free, then if
/// a side of a template can't be read, and then for a stamp or a moment that can't rise.
pub fn add_note_type<K: Keeper>(
    keeper: &mut K,
    steps: &mut UndoList,
    note_type: NoteType,
    at: i64,
) -> Result<i64, DeskFault>
    requires unmarked { is_marked (K.keeping keeper.old) ≡ false }
    requires held { (K.keeping keeper.old).headed.current ≡ true }
    ensures adds { AddsBy K.Lookup keeper.old keeper.new steps.old steps.new result (given_type at note_type) }
    ensures range { IfOk result IsId }
    ensures listed { IfErr result IsAdditionFault }
    ensures cause { DeskCause (K.health keeper.old) (K.health keeper.new) result }
{
    // The given id is not looked at: any one in range stands in for it.
    let given = with_id(as_given(note_type), 1);
    check_given(&given)?;
    add_type(keeper, steps, given, at)
}

/// Adds a type that is in its ranges, and gives its id.
fn add_type<K: Keeper>(
    keeper: &mut K,
    steps: &mut UndoList,
    note_type: NoteType,
    at: i64,
) -> Result<i64, DeskFault>
    requires unmarked { is_marked (K.keeping keeper.old) ≡ false }
    requires held { (K.keeping keeper.old).headed.current ≡ true }
    requires checked { IsCheckedNoteType (as_given note_type) }
    ensures adds { AddsBy K.Lookup keeper.old keeper.new steps.old steps.new result (new_type at note_type) }
    ensures range { IfOk result IsId }
    ensures listed { IfErr result IsAdditionFault }
    ensures cause { DeskCause (K.health keeper.old) (K.health keeper.new) result }
{
    let name = new_name(keeper, Table::NoteType, at)?;
    check_sides(steps.allocator(), &note_type)?;
    add_row(
        keeper,
        steps,
        Row::NoteType(with_id(note_type, name.id)),
        at,
    )
}
