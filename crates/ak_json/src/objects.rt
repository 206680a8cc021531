ghost use Rattle.std.specs.Prelude.{◌≡◌, OnOk};
ghost use Rattle.serde_json.specs.View.{view, members_view};
ghost use Rattle.ak_json.specs.Objects.{object_form_fault, put_at, put_cells};
ghost use Rattle.ak_json.specs.Written.{cells_data};

use crate::form_faults::{FormFault, first_form_fault};
use crate::keys::Place;
use crate::kinds::Kind;
use crate::written::Cell;
use ak_base::Memory;
use serde_json::{Map, Value};
use std::alloc::Global;

/// The first fault of an object of these columns.
pub(crate) fn object_form_fault(form: &[(Place, Kind)], value: &Value) -> Option<FormFault>
    ensures { result ≡ object_form_fault form.now (view value.now) }
{
    if value.is_object() {
        return first_form_fault(form, value);
    }
    Some(FormFault::WholeValue)
}

/// Puts each cell where its column stands.
pub(crate) fn put_cells(
    alloc: Global,
    form: &[(Place, Kind)],
    cells: &[Cell<'_>],
    members: &mut Map<String, Value>,
) -> Result<(), Memory>
    ensures { OnOk result (members_view members.new.entries ≡ put_cells form.now (cells_data cells.now) (members_view members.old.entries)) }
{
    if let Some(((place, _), columns)) = form.split_first() {
        if let Some((cell, others)) = cells.split_first() {
            let value = cell.value(alloc)?;
            put_at(alloc, *place, value, members)?;
            return put_cells(alloc, columns, others, members);
        }
    }
    Ok(())
}

/// Puts a value where the column stands.
fn put_at(
    alloc: Global,
    place: Place,
    value: Value,
    members: &mut Map<String, Value>,
) -> Result<(), Memory>
    ensures { OnOk result (members_view members.new.entries ≡ put_at place (view value) (members_view members.old.entries)) }
{
    if let Place::Key(key) = place {
        serde_json::put(members, alloc, key.text(), value)?;
    }
    Ok(())
}
