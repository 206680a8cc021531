ghost use Rattle.std.specs.Prelude.{◌≡◌, true, None, IfOk, IfErr};
ghost use Rattle.serde_json.specs.Data.{Members, object};
ghost use Rattle.serde_json.specs.View.{view, members_view};
ghost use Rattle.serde_json.specs.Written.{compact_text};
ghost use Rattle.ak_json.specs.Faults.{Tells};
ghost use Rattle.ak_json.specs.Members.{unknown};
ghost use Rattle.ak_json.specs.Rests.{kept, rest_text, deep_fault, deep_key, rest_members, object_json};
ghost use Rattle.ak_json.specs.Written.{cells_data};

use crate::JsonFault;
use crate::keys::Place;
use crate::kinds::Kind;
use crate::members::{deep_member, unknown};
use crate::objects::put_cells;
use crate::written::Cell;
use ak_base::{Memory, Owner, Rest, Text};
use serde_json::{Map, Value};
use std::alloc::Global;

/// The rest of an object: the members of which no column is one.
pub(crate) fn read_rest<O: Owner>(
    alloc: Global,
    form: &[(Place, Kind)],
    value: &Value,
) -> Result<Rest<O>, JsonFault>
    requires { (members : Members) → O.ignores (unknown form.now members) ≡ true }
    ensures plain { IfOk result (λ rest. deep_key form.now (view value.now) ≡ None) }
    ensures text { IfOk result (λ rest. rest.text ≡ rest_text form.now (view value.now)) }
    ensures err { IfErr result (Tells (deep_key form.now (view value.now))) }
{
    let members = kept(alloc, form, value)?;
    as_rest(alloc, members)
}

/// The members of an object of which no column is one.
pub(crate) fn kept(
    alloc: Global,
    form: &[(Place, Kind)],
    value: &Value,
) -> Result<Map<String, Value>, Memory>
    ensures { IfOk result (λ members. members_view members.entries ≡ kept form.now (view value.now)) }
{
    match value.as_object() {
        Some(members) => unknown(alloc, form, members),
        None => Ok(Map::new(alloc)),
    }
}

/// The rest of these members. It is refused if one nests too deep or holds a number that is not whole.
pub(crate) fn as_rest<O: Owner>(
    alloc: Global,
    members: Map<String, Value>,
) -> Result<Rest<O>, JsonFault>
    requires { O.ignores (members_view members.entries) ≡ true }
    ensures plain { IfOk result (λ rest. deep_fault (members_view members.entries) ≡ None) }
    ensures text { IfOk result (λ rest. rest.text ≡ compact_text (object (members_view members.entries))) }
    ensures err { IfErr result (Tells (deep_fault (members_view members.entries))) }
{
    match deep_member(&members) {
        Some(key) => {
            let key = Text::of(alloc, key)?;
            Err(JsonFault::WrongKind(key))
        },
        None => {
            let object = Value::Object(members);
            let rest = Rest::of(alloc, &object)?;
            Ok(rest)
        },
    }
}

/// The object of these cells and the members of a rest.
pub(crate) fn write_object<O: Owner>(
    alloc: Global,
    form: &[(Place, Kind)],
    cells: &[Cell<'_>],
    rest: &Rest<O>,
) -> Result<Value, Memory>
    ensures { IfOk result (λ value. view value ≡ object_json form.now (cells_data cells.now) rest.now.text) }
{
    let mut members = members_of(alloc, rest)?;
    put_cells(alloc, form, cells, &mut members)?;
    Ok(Value::Object(members))
}

/// The members that a rest keeps.
pub(crate) fn members_of<O: Owner>(
    alloc: Global,
    rest: &Rest<O>,
) -> Result<Map<String, Value>, Memory>
    ensures { IfOk result (λ members. members_view members.entries ≡ rest_members rest.now.text) }
{
    match rest.value(alloc)? {
        Value::Object(members) => Ok(members),
        _ => Ok(Map::new(alloc)),
    }
}
