ghost use Rattle.std.specs.Prelude.{◌≡◌, ◌⊎◌, Some, IfErr, IfOk};
ghost use Rattle.std.specs.FinMap.{get};
ghost use Rattle.ak_base.specs.Rows.{IsChecked, name_of};
ghost use Rattle.ak_edit.specs.Refusals.{AnswersBy, DeskCause, IsFromOutside};
ghost use Rattle.ak_edit.specs.declared.desk_faults.DeskFault.TheVariants as faults;
ghost use Rattle.ak_edit_calls.specs.Calls.{RefusesAbsent};
ghost use Rattle.ak_keep.specs.Keepers.{WhereTold};

use ak_base::{Name, Row};
use ak_edit::DeskFault;
use ak_keep::Keeper;

/// The row of this name, which the call needs: it is refused if the row is not held.
pub fn held_row<K: Keeper>(keeper: &mut K, name: Name) -> Result<Row, DeskFault>
    ensures same { K.keeping keeper.new ≡ K.keeping keeper.old }
    ensures held { IfOk result (λ row. WhereTold (K.keeping keeper.old) (λ h. get h.rows name ≡ Some row)) }
    ensures named { IfOk result (λ row. name_of row ≡ name) }
    ensures checked { IfOk result IsChecked }
    ensures refused { WhereTold (K.keeping keeper.old) (λ h. AnswersBy (RefusesAbsent (get h.rows) name) result) }
    ensures listed { IfErr result (λ fault. IsFromOutside fault ⊎ (fault ≡ faults.NoSuch name)) }
    ensures cause { DeskCause (K.health keeper.old) (K.health keeper.new) result }
{
    // For the proof alone: it says that what the keeper gives passes its check.
    let _checks = keeper.marked();
    match keeper.get(name)? {
        Some(row) => Ok(row),
        None => Err(DeskFault::NoSuch(name)),
    }
}
