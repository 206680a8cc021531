// The JSON that ends a `filter` line: an array of a name, a search, a limit and an order.
ghost use Rattle.std.specs.Prelude.{◌≡◌, Some, None, IfOk, IfErr, OnOk};
ghost use Rattle.serde_json.specs.Find.{as_str};
ghost use Rattle.serde_json.specs.View.{view};
ghost use Rattle.ak_desk_language.specs.Contents.{InJson, RefusesJson, json_line, part_of, wrong_kind};
ghost use Rattle.ak_desk_language.specs.Faults.{OrMemory};
ghost use Rattle.ak_desk_language.specs.FilterPlans.{IsFilterPlan, RefusesEntries, RefusesFilterPlan, four_fault};
ghost use Rattle.ak_json.specs.Kinds.{integer_of};

use crate::LineFault;
use crate::contents::{missing, part_of, read_json, wrong_kind};
use ak_base::Text;
use serde_json::Value;
use std::alloc::Global;

/// What a `filter` line gives: the name of a deck, and its plan as it was written.
#[derive(Debug, Drop)]
pub(crate) struct FilterPlan {
    pub(crate) name: Text,
    pub(crate) search: Text,
    pub(crate) limit: i64,
    pub(crate) order: i64,
}

/// The name and the plan of a JSON text of an array of these four.
pub(crate) fn read_filter_plan(alloc: Global, json: &str) -> Result<FilterPlan, LineFault>
    ensures ok { IfOk result (λ made. InJson json.now (λ d. IsFilterPlan d made.name made.search made.limit made.order)) }
    ensures err { IfErr result (OrMemory (RefusesJson RefusesFilterPlan json.now)) }
{
    let value = read_json(alloc, json)?;
    filter_plan_of(alloc, &value)
}

/// The name and the plan of an array of these four.
#[tactic(auto, using(crate::proofs::Refusing::entries_told))]
fn filter_plan_of(alloc: Global, value: &Value) -> Result<FilterPlan, LineFault>
    ensures ok { IfOk result (λ made. IsFilterPlan (view value.now) made.name made.search made.limit made.order) }
    ensures err { IfErr result (OrMemory (RefusesFilterPlan (view value.now))) }
{
    check_four(alloc, value)?;
    entries_of(alloc, value)
}

/// Refuses a value that is no array of four.
fn check_four(alloc: Global, value: &Value) -> Result<(), LineFault>
    ensures ok { OnOk result (four_fault (view value.now) ≡ None) }
    ensures err { IfErr result (OrMemory (λ fault. json_line (four_fault (view value.now)) ≡ Some fault)) }
{
    if !value.is_array() {
        return Err(wrong_kind(alloc, ""));
    }
    if value.get(0).is_none() {
        return Err(missing(alloc, "0"));
    }
    if value.get(1).is_none() {
        return Err(missing(alloc, "1"));
    }
    if value.get(2).is_none() {
        return Err(missing(alloc, "2"));
    }
    if value.get(3).is_none() {
        return Err(missing(alloc, "3"));
    }
    if value.get(4).is_some() {
        return Err(wrong_kind(alloc, "4"));
    }
    Ok(())
}

/// The four entries, read from left to right.
fn entries_of(alloc: Global, value: &Value) -> Result<FilterPlan, LineFault>
    ensures name { IfOk result (λ made. as_str (part_of 0 (view value.now)) ≡ Some made.name) }
    ensures search { IfOk result (λ made. as_str (part_of 1 (view value.now)) ≡ Some made.search) }
    ensures limit { IfOk result (λ made. integer_of (part_of 2 (view value.now)) ≡ Some made.limit) }
    ensures order { IfOk result (λ made. integer_of (part_of 3 (view value.now)) ≡ Some made.order) }
    ensures err { IfErr result (OrMemory (RefusesEntries (view value.now))) }
{
    let name = read_text(alloc, part_of(0, value), "0")?;
    let search = read_text(alloc, part_of(1, value), "1")?;
    let limit = read_integer(alloc, part_of(2, value), "2")?;
    let order = read_integer(alloc, part_of(3, value), "3")?;
    Ok(FilterPlan {
        name,
        search,
        limit,
        order,
    })
}

/// The text that a value is. The second text tells where it stands.
fn read_text(alloc: Global, value: &Value, place: &str) -> Result<Text, LineFault>
    ensures ok { IfOk result (λ text. as_str (view value.now) ≡ Some text) }
    ensures err { IfErr result
        (OrMemory (λ fault. (as_str (view value.now) ≡ None) × (fault ≡ wrong_kind place.now))) }
{
    match value.as_str() {
        Some(text) => {
            let text = Text::of(alloc, text)?;
            Ok(text)
        },
        None => Err(wrong_kind(alloc, place)),
    }
}

/// The whole number that a value is, if it fits 64 bits with its sign. The text tells where it stands.
fn read_integer(alloc: Global, value: &Value, place: &str) -> Result<i64, LineFault>
    ensures ok { IfOk result (λ number. integer_of (view value.now) ≡ Some number) }
    ensures err { IfErr result
        (OrMemory (λ fault. (integer_of (view value.now) ≡ None) × (fault ≡ wrong_kind place.now))) }
{
    match value.as_i64() {
        Some(number) => Ok(number),
        None => Err(wrong_kind(alloc, place)),
    }
}
