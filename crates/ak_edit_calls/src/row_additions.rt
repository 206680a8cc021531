ghost use Rattle.std.specs.Prelude.{◌≡◌, pos, true, false, None, IfErr, IfOk};
ghost use Rattle.ak_base.specs.Rows.{IsChecked, name_of};
ghost use Rattle.ak_base.specs.Tables.{buried_in};
ghost use Rattle.ak_edit.specs.Refusals.{DeskCause, IsEndFault};
ghost use Rattle.ak_edit_calls.specs.Calls.{EditsBy};
ghost use Rattle.ak_edit_calls.specs.RowEdits.{RefusesRowEdit, row_edit};
ghost use Rattle.ak_keep.specs.Keepers.{is_marked};
ghost use Rattle.ak_merge.specs.Edits.{edited};

use crate::row_edits::edit_row;
use ak_base::Row;
use ak_edit::DeskFault;
use ak_keep::Keeper;
use ak_undo::UndoList;

/// Puts a row that has a new id, no grave, at a moment in milliseconds, and gives the id. Its stamp and its usn are
/// replaced. It is refused for a stamp or a moment that can't rise.
pub fn add_row<K: Keeper>(
    keeper: &mut K,
    steps: &mut UndoList,
    row: Row,
    at: i64,
) -> Result<i64, DeskFault>
    requires unmarked { is_marked (K.keeping keeper.old) ≡ false }
    requires held { (K.keeping keeper.old).headed.current ≡ true }
    requires checked { IsChecked (edited (pos 0) row) }
    requires plain { buried_in (name_of row).table ≡ None }
    ensures id { IfOk result (λ id. id ≡ (name_of row).id) }
    ensures edits { EditsBy K.Lookup keeper.old keeper.new steps.old steps.new result at
        (row_edit row) (RefusesRowEdit at row) }
    ensures listed { IfErr result IsEndFault }
    ensures cause { DeskCause (K.health keeper.old) (K.health keeper.new) result }
{
    let id = row.name().id;
    edit_row(keeper, steps, row, at)?;
    Ok(id)
}
