ghost use Rattle.std.specs.Prelude.{◌≡◌, None, unwrap_or, IfOk, OnOk, IfErr, option_map};
ghost use Rattle.ak_json.specs.Faults.{told, Tells};
ghost use Rattle.serde_json.specs.Data.{no_items};
ghost use Rattle.serde_json.specs.Find.{as_array};
ghost use Rattle.serde_json.specs.View.{view};
ghost use Rattle.ak_json.specs.FormFaults.{plain_form_fault, inner_form_fault, part_form_fault, parts_form_fault, form_fault_inside, column_form_fault, first_form_fault, array_form_fault};

use crate::JsonFault;
use crate::forms::{FIELD, LAPSE, NEW, OLD_LAPSE, OLD_NEW, OLD_REV, REV, TEMPLATE};
use crate::keys::Place;
use crate::kinds::Kind;
use crate::members::has_deep;
use ak_base::{Memory, Text};
use serde_json::Value;
use std::alloc::Global;

/// How a value departs from the form of a row.
#[derive(Clone, Copy)]
pub(crate) enum FormFault {
    /// It is no array or no object, as needed.
    WholeValue,
    /// Nothing stands there.
    Missing(Place),
    /// What stands there is of another kind.
    WrongKind(Place),
}

/// Tells of a fault, if there is one.
pub(crate) fn refuse(alloc: Global, fault: Option<FormFault>) -> Result<(), JsonFault>
    ensures ok { OnOk result (fault ≡ None) }
    ensures err { IfErr result (Tells (option_map told fault)) }
{
    match fault {
        Some(fault) => Err(fault.told(alloc)?),
        None => Ok(()),
    }
}

impl FormFault {
    /// The fault that tells of it.
    fn told(self, alloc: Global) -> Result<JsonFault, Memory>
        ensures { IfOk result (λ fault. fault ≡ told self) }
    {
        match self {
            FormFault::WholeValue => Ok(JsonFault::WrongKind(Text::of(alloc, "")?)),
            FormFault::Missing(place) => Ok(JsonFault::Missing(place.text(alloc)?)),
            FormFault::WrongKind(place) => Ok(JsonFault::WrongKind(place.text(alloc)?)),
        }
    }
}

/// The first fault of an array of these columns; one column too many comes last.
pub(crate) fn array_form_fault(form: &[(Place, Kind)], value: &Value) -> Option<FormFault>
    ensures { result ≡ array_form_fault form.now (view value.now) }
{
    if !value.is_array() {
        return Some(FormFault::WholeValue);
    }
    if let Some(fault) = first_form_fault(form, value) {
        return Some(fault);
    }
    if value.get(form.len()).is_some() {
        return Some(FormFault::WrongKind(Place::At(form.len())));
    }
    None
}

/// The fault of the first column that has one.
pub(crate) fn first_form_fault(form: &[(Place, Kind)], value: &Value) -> Option<FormFault>
    ensures { result ≡ first_form_fault form.now (view value.now) }
{
    for (place, kind) in form {
        if let Some(fault) = column_form_fault(*place, *kind, value) {
            return Some(fault);
        }
    }
    None
}

/// The fault of one column of a row, if there is one. What is inside is told by the row's own key.
fn column_form_fault(place: Place, kind: Kind, value: &Value) -> Option<FormFault>
    ensures { result ≡ column_form_fault (place, kind) (view value.now) }
{
    if let Some(fault) = plain_form_fault(place, kind, value) {
        return Some(fault);
    }
    match place.find(value) {
        None => None,
        Some(found) => match form_fault_inside(kind, found) {
            None => None,
            Some(FormFault::Missing(_)) => Some(FormFault::Missing(place)),
            Some(_) => Some(FormFault::WrongKind(place)),
        },
    }
}

/// The fault of one column, if there is one, but not of what stands inside.
fn plain_form_fault(place: Place, kind: Kind, value: &Value) -> Option<FormFault>
    ensures { result ≡ plain_form_fault (place, kind) (view value.now) }
{
    match place.find(value) {
        None => {
            if kind.may_lack() {
                return None;
            }
            Some(FormFault::Missing(place))
        },
        Some(found) => {
            if kind.holds(found) {
                return None;
            }
            Some(FormFault::WrongKind(place))
        },
    }
}

/// The fault of what stands inside a column of a kind that holds objects.
fn form_fault_inside(kind: Kind, value: &Value) -> Option<FormFault>
    ensures { result ≡ form_fault_inside kind (view value.now) }
{
    match kind {
        Kind::Fields => parts_form_fault(&FIELD, value),
        Kind::Templates => parts_form_fault(&TEMPLATE, value),
        Kind::New => inner_form_fault(&NEW, value),
        Kind::Rev => inner_form_fault(&REV, value),
        Kind::Lapse => inner_form_fault(&LAPSE, value),
        Kind::OldNew => inner_form_fault(&OLD_NEW, value),
        Kind::OldRev => inner_form_fault(&OLD_REV, value),
        Kind::OldLapse => inner_form_fault(&OLD_LAPSE, value),
        _ => None,
    }
}

/// The fault of the first object of a list that has one.
fn parts_form_fault(form: &[(Place, Kind)], value: &Value) -> Option<FormFault>
    ensures { result ≡ parts_form_fault form.now (unwrap_or (as_array (view value.now)) no_items) }
{
    if let Some(parts) = value.as_array() {
        for part in parts {
            if let Some(fault) = part_form_fault(form, part) {
                return Some(fault);
            }
        }
    }
    None
}

/// The fault of an object of a list: of its known keys, else of its unknown ones.
fn part_form_fault(form: &[(Place, Kind)], value: &Value) -> Option<FormFault>
    ensures { result ≡ part_form_fault form.now (view value.now) }
{
    match value.as_object() {
        None => Some(FormFault::WholeValue),
        Some(members) => {
            if let Some(fault) = inner_form_fault(form, value) {
                return Some(fault);
            }
            if has_deep(form, members) {
                return Some(FormFault::WholeValue);
            }
            None
        },
    }
}

/// The fault of the first column that has one, in an object inside a row.
fn inner_form_fault(form: &[(Place, Kind)], value: &Value) -> Option<FormFault>
    ensures { result ≡ inner_form_fault form.now (view value.now) }
{
    for (place, kind) in form {
        if let Some(fault) = plain_form_fault(*place, *kind, value) {
            return Some(fault);
        }
    }
    None
}
