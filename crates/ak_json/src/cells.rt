ghost use Rattle.std.specs.Prelude.{◌≡◌, IfOk, option_map};
ghost use Rattle.serde_json.specs.View.{view, items_view};
ghost use Rattle.ak_json.specs.Cells.{cell_at, integer_at, permille_at, text_at, bool_at, part_at, count_at, integers, steps_at, inner_at};

use crate::keys::Place;
use crate::kinds::{Kind, permille_of};
use ak_base::{Count, List, Memory, Text};
use serde_json::Value;
use std::alloc::Global;

/// What stands in a column, counted from 0, of a value of this form.
#[tactic(auto, using(crate::proofs::CellPlaces::cell_within, crate::proofs::CellPlaces::cell_past))]
pub(crate) fn cell_at<'a>(
    form: &[(Place, Kind)],
    column: usize,
    value: &'a Value,
) -> Option<&'a Value>
    ensures { option_map (λ found. view found.now) result ≡ cell_at form.now column (view value.now) }
{
    match form.get(column) {
        Some((place, _)) => place.find(value),
        None => None,
    }
}

/// The number in a column of whole numbers. It is 0 if the value has no such form.
pub(crate) fn integer_at(form: &[(Place, Kind)], column: usize, value: &Value) -> i64
    ensures { result ≡ integer_at form.now column (view value.now) }
{
    match cell_at(form, column, value) {
        Some(found) => found.as_i64().unwrap_or(0),
        None => 0,
    }
}

/// The thousandths in a column of whole numbers of them or of decimal texts. They are 0 if the value has no such form.
pub(crate) fn permille_at(form: &[(Place, Kind)], column: usize, value: &Value) -> i64
    ensures { result ≡ permille_at form.now column (view value.now) }
{
    match cell_at(form, column, value) {
        Some(found) => permille_of(found).unwrap_or(0),
        None => 0,
    }
}

/// The text in a column of texts. It is empty if the value has no such form.
pub(crate) fn text_at(
    alloc: Global,
    form: &[(Place, Kind)],
    column: usize,
    value: &Value,
) -> Result<Text, Memory>
    ensures { IfOk result (λ text. text ≡ text_at form.now column (view value.now)) }
{
    match cell_at(form, column, value) {
        Some(found) => match found.as_str() {
            Some(text) => Text::of(alloc, text),
            None => Text::of(alloc, ""),
        },
        None => Text::of(alloc, ""),
    }
}

/// The truth value in a column of them. It is false if the value has no such form.
pub(crate) fn bool_at(form: &[(Place, Kind)], column: usize, value: &Value) -> bool
    ensures { result ≡ bool_at form.now column (view value.now) }
{
    match cell_at(form, column, value) {
        Some(found) => found.as_bool().unwrap_or(false),
        None => false,
    }
}

/// The count in a column of pairs. Its numbers are 0 if the value has no such form.
pub(crate) fn count_at(form: &[(Place, Kind)], column: usize, value: &Value) -> Count
    ensures { result ≡ count_at form.now column (view value.now) }
{
    Count {
        day: part_at(form, column, 0, value),
        count: part_at(form, column, 1, value),
    }
}

/// The number at a place of the list in a column.
pub(crate) fn part_at(form: &[(Place, Kind)], column: usize, place: usize, value: &Value) -> i64
    ensures { result ≡ part_at form.now column place (view value.now) }
{
    match cell_at(form, column, value) {
        Some(found) => match found.get(place) {
            Some(number) => number.as_i64().unwrap_or(0),
            None => 0,
        },
        None => 0,
    }
}

/// The numbers in a column of lists of them. There are none if the value has no such form.
pub(crate) fn steps_at(
    alloc: Global,
    form: &[(Place, Kind)],
    column: usize,
    value: &Value,
) -> Result<List<i64>, Memory>
    ensures { IfOk result (λ numbers. numbers ≡ steps_at form.now column (view value.now)) }
{
    match cell_at(form, column, value) {
        Some(found) => match found.as_array() {
            Some(values) => integers(alloc, values.as_slice()),
            None => Ok(List::new(alloc)),
        },
        None => Ok(List::new(alloc)),
    }
}

/// The numbers of a list of whole numbers.
pub fn integers(alloc: Global, values: &[Value]) -> Result<List<i64>, Memory>
    ensures { IfOk result (λ numbers. numbers ≡ integers (items_view values.now)) }
{
    let mut numbers = List::new(alloc);
    for value in values {
        numbers.push(value.as_i64().unwrap_or(0))?;
    }
    Ok(numbers)
}

/// The object in a column of objects. It is the whole value if that has no such form.
pub(crate) fn inner_at<'a>(form: &[(Place, Kind)], column: usize, value: &'a Value) -> &'a Value
    ensures { view result.now ≡ inner_at form.now column (view value.now) }
{
    match cell_at(form, column, value) {
        Some(found) => found,
        None => value,
    }
}
