ghost use Rattle.std.specs.Prelude.{◌≡◌, ◌≤ℤ◌, ◌⊎◌, pos, IfErr, IfOk};
ghost use Rattle.std.specs.FinMap.{get};
ghost use Rattle.ak_edit.specs.Refusals.{DeskCause, IsFromOutside};
ghost use Rattle.ak_edit.specs.declared.desk_faults.DeskFault.TheVariants as faults;
ghost use Rattle.ak_edit_calls.specs.Calls.{AnswersFrom};
ghost use Rattle.ak_edit_calls.specs.NewNames.{IsFreeIn, IsNewName, IsNoneFreeFrom, RefusesId, first_name};
ghost use Rattle.ak_keep.specs.Collections.{IsId};
ghost use Rattle.ak_keep.specs.FreeNames.{IsFoundFrom};
ghost use Rattle.ak_keep.specs.Keepers.{WhereTold};

use ak_base::{Name, Table};
use ak_edit::DeskFault;
use ak_keep::Keeper;

/// The name of a row that is added to the table at a moment in milliseconds: its id is the least free one from the moment on.
pub fn new_name<K: Keeper>(keeper: &mut K, table: Table, at: i64) -> Result<Name, DeskFault>
    ensures same { K.keeping keeper.new ≡ K.keeping keeper.old }
    ensures new { IfOk result (λ name. WhereTold (K.keeping keeper.old) (λ h. IsNewName at table (get h.rows) name)) }
    ensures table { IfOk result (λ name. name.table ≡ table) }
    ensures range { IfOk result (λ name. IsId name.id) }
    ensures refused { AnswersFrom K.Lookup keeper.old result (RefusesId at table) }
    ensures listed { IfErr result (λ fault. IsFromOutside fault ⊎ (fault ≡ faults.IdEnd)) }
    ensures cause { DeskCause (K.health keeper.old) (K.health keeper.new) result }
{
    next_free(keeper, first_name(table, at))
}

/// The first free name from this one on.
pub fn next_free<K: Keeper>(keeper: &mut K, first: Name) -> Result<Name, DeskFault>
    requires { pos 1 ≤ℤ first.id }
    ensures same { K.keeping keeper.new ≡ K.keeping keeper.old }
    ensures range { IfOk result (IsFoundFrom first) }
    ensures free { IfOk result (λ name. WhereTold (K.keeping keeper.old) (IsFreeIn first name)) }
    ensures none { IfErr result (IsNoneFreeFrom (K.keeping keeper.old) first) }
    ensures cause { DeskCause (K.health keeper.old) (K.health keeper.new) result }
{
    match keeper.free_name(first)? {
        Some(name) => Ok(name),
        None => Err(DeskFault::IdEnd),
    }
}

/// The name from which on a new row of the table looks for its own at a moment in milliseconds.
pub fn first_name(table: Table, at: i64) -> Name
    ensures name { result ≡ first_name table at }
    ensures id { pos 1 ≤ℤ result.id }
{
    Name {
        table,
        id: at.max(1),
    }
}
