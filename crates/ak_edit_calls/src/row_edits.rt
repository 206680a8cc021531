ghost use Rattle.std.specs.Prelude.{◌≡◌, pos, true, false, None, IfErr};
ghost use Rattle.ak_base.specs.Rows.{IsChecked, name_of};
ghost use Rattle.ak_base.specs.Tables.{buried_in};
ghost use Rattle.ak_edit_calls.specs.Calls.{EditsBy};
ghost use Rattle.ak_edit_calls.specs.RowEdits.{RefusesRowEdit, row_edit};
ghost use Rattle.ak_edit.specs.Refusals.{DeskCause, IsEndFault};
ghost use Rattle.ak_merge.specs.Edits.{edited};
ghost use Rattle.ak_keep.specs.Keepers.{is_marked};

use ak_base::Row;
use ak_edit::{Change, DeskFault};
use ak_keep::Keeper;
use ak_undo::UndoList;

/// Puts a row, no grave, under its name, at a moment in milliseconds. Its stamp and its usn are replaced. A row that
/// is held with the same fields is left alone. It is refused for a stamp or a moment that can't rise.
pub fn edit_row<K: Keeper>(
    keeper: &mut K,
    steps: &mut UndoList,
    row: Row,
    at: i64,
) -> Result<(), DeskFault>
    requires unmarked { is_marked (K.keeping keeper.old) ≡ false }
    requires held { (K.keeping keeper.old).headed.current ≡ true }
    requires checked { IsChecked (edited (pos 0) row) }
    requires plain { buried_in (name_of row).table ≡ None }
    ensures edits { EditsBy K.Lookup keeper.old keeper.new steps.old steps.new result at
        (row_edit row) (RefusesRowEdit at row) }
    ensures listed { IfErr result IsEndFault }
    ensures cause { DeskCause (K.health keeper.old) (K.health keeper.new) result }
{
    let mut change = Change::new(steps.allocator());
    change.put(row)?;
    change.finish(keeper, steps, at)
}
