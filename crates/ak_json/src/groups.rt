ghost use Rattle.std.specs.Prelude.{◌≡◌, None, IfOk, OnOk, IfErr};
ghost use Rattle.serde_json.specs.Data.{object};
ghost use Rattle.serde_json.specs.View.{view, members_view};
ghost use Rattle.ak_json.specs.Faults.{Tells};
ghost use Rattle.ak_json.specs.Groups.{put_group, options_kept, options_kept_by, group_members, group_json, new_json, rev_cells, rev_json, lapse_json};
ghost use Rattle.ak_json.specs.Groups.{IsOptions, IsOptionsBy, options_json, rest_object};
ghost use Rattle.ak_json.specs.Rests.{deep_fault};
ghost use Rattle.ak_json.specs.Cells.{text_at, steps_at, inner_at};
ghost use Rattle.ak_json.specs.Written.{cells_data};
ghost use Rattle.serde_json.specs.Written.{compact_text};
ghost use Rattle.ak_json.specs.Forms.{options_form};
ghost use Rattle.ak_json.specs.Versions.{new_form_of, lapse_form_of};

use crate::JsonFault;
use crate::cells::{bool_at, inner_at, integer_at, part_at, permille_at, steps_at, text_at};
use crate::forms::{LAPSE, NEW, OPTIONS, REV};
use crate::keys::{Key, Place};
use crate::kinds::Kind;
use crate::objects::put_cells;
use crate::rests::{as_rest, kept, members_of, write_object};
use crate::versions::Version;
use crate::written::Cell;
use ak_base::{Count, List, Memory, OfOptions, Options, Rest, Text};
use serde_json::{Map, Value};
use std::alloc::Global;

/// What takes memory in an option group.
#[derive(Drop)]
struct Copied {
    name: Text,
    new_steps: List<i64>,
    lapse_steps: List<i64>,
    rest: Rest<OfOptions>,
}

/// The option group of an object of its form, its steps in the unit of its version.
pub(crate) fn options_of(alloc: Global, value: &Value) -> Result<Options, JsonFault>
    ensures ok { IfOk result (IsOptions (view value.now)) }
    ensures plain { IfOk result (λ made. deep_fault (options_kept (view value.now)) ≡ None) }
    ensures err { IfErr result (Tells (deep_fault (options_kept (view value.now)))) }
{
    options_by(alloc, Version::of(value), value)
}

/// The option group of an object of that version.
fn options_by(alloc: Global, version: Version, value: &Value) -> Result<Options, JsonFault>
    ensures ok { IfOk result (IsOptionsBy version (view value.now)) }
    ensures plain { IfOk result (λ made. deep_fault (options_kept_by version (view value.now)) ≡ None) }
    ensures err { IfErr result (Tells (deep_fault (options_kept_by version (view value.now)))) }
{
    let members = kept_of(alloc, version, value)?;
    let rest = as_rest(alloc, members)?;
    let name = text_at(alloc, &OPTIONS, 3, value)?;
    let new_steps = steps_at(alloc, version.new_form(), 0, inner_at(&OPTIONS, 5, value))?;
    let lapse_steps = steps_at(alloc, version.lapse_form(), 0, inner_at(&OPTIONS, 7, value))?;
    let copied = Copied {
        name,
        new_steps,
        lapse_steps,
        rest,
    };
    Ok(assembled(version, value, copied))
}

/// The unknown keys of an option group, those inside `new`, `rev` and `lapse` under these.
fn kept_of(alloc: Global, version: Version, value: &Value) -> Result<Map<String, Value>, Memory>
    ensures { IfOk result (λ members. members_view members.entries ≡ options_kept_by version (view value.now)) }
{
    let mut members = kept(alloc, &OPTIONS, value)?;
    let new = kept(alloc, version.new_form(), inner_at(&OPTIONS, 5, value))?;
    put_group(alloc, Key::New, new, &mut members)?;
    let rev = kept(alloc, version.rev_form(), inner_at(&OPTIONS, 6, value))?;
    put_group(alloc, Key::Rev, rev, &mut members)?;
    let lapse = kept(alloc, version.lapse_form(), inner_at(&OPTIONS, 7, value))?;
    put_group(alloc, Key::Lapse, lapse, &mut members)?;
    Ok(members)
}

/// Puts what a group keeps under its key, if it keeps anything.
#[tactic(auto, using(crate::proofs::OptionRests::group_none, crate::proofs::OptionRests::group_some))]
fn put_group(
    alloc: Global,
    key: Key,
    group: Map<String, Value>,
    members: &mut Map<String, Value>,
) -> Result<(), Memory>
    ensures { OnOk result (members_view members.new.entries ≡ put_group key (members_view group.entries) (members_view members.old.entries)) }
{
    if group.is_empty() {
        return Ok(());
    }
    serde_json::put(members, alloc, key.text(), Value::Object(group))?;
    Ok(())
}

/// The option group of an object of its form, with what was copied of it.
fn assembled(version: Version, value: &Value, copied: Copied) -> Options
    requires name { copied.name ≡ text_at options_form 3 (view value.now) }
    requires new_steps { copied.new_steps ≡ steps_at (new_form_of version) 0 (inner_at options_form 5 (view value.now)) }
    requires lapse_steps { copied.lapse_steps ≡ steps_at (lapse_form_of version) 0 (inner_at options_form 7 (view value.now)) }
    requires rest { copied.rest.text ≡ compact_text (object (options_kept_by version (view value.now))) }
    ensures { IsOptionsBy version (view value.now) result }
{
    let new = inner_at(&OPTIONS, 5, value);
    let rev = inner_at(&OPTIONS, 6, value);
    let lapse = inner_at(&OPTIONS, 7, value);
    let new_form = version.new_form();
    let rev_form = version.rev_form();
    let lapse_form = version.lapse_form();
    Options {
        id: integer_at(&OPTIONS, 0, value),
        stamp: integer_at(&OPTIONS, 1, value),
        usn: integer_at(&OPTIONS, 2, value),
        name: copied.name,
        max_taken: integer_at(&OPTIONS, 4, value),
        new_steps: copied.new_steps,
        grad_ivl: part_at(new_form, 1, 0, new),
        easy_ivl: part_at(new_form, 1, 1, new),
        initial_factor: integer_at(new_form, 2, new),
        new_per_day: integer_at(new_form, 3, new),
        new_bury: bool_at(new_form, 4, new),
        rev_per_day: integer_at(rev_form, 0, rev),
        ease4: permille_at(rev_form, 1, rev),
        ivl_fct: permille_at(rev_form, 2, rev),
        max_ivl: integer_at(rev_form, 3, rev),
        hard_factor: permille_at(rev_form, 4, rev),
        rev_bury: bool_at(rev_form, 5, rev),
        lapse_steps: copied.lapse_steps,
        mult: permille_at(lapse_form, 1, lapse),
        min_int: integer_at(lapse_form, 2, lapse),
        leech_fails: integer_at(lapse_form, 3, lapse),
        leech_action: integer_at(lapse_form, 4, lapse),
        rest: copied.rest,
    }
}

/// The object of an option group.
pub(crate) fn write_options(alloc: Global, options: &Options) -> Result<Value, Memory>
    ensures { IfOk result (λ value. view value ≡ options_json options.now) }
{
    let kept = rest_object(alloc, &options.rest)?;
    let new = write_new(alloc, options, &kept)?;
    let rev = write_rev(alloc, options, &kept)?;
    let lapse = write_lapse(alloc, options, &kept)?;
    write_object(
        alloc,
        &OPTIONS,
        &[
            Cell::Integer(options.id),
            Cell::Integer(options.stamp),
            Cell::Integer(options.usn),
            Cell::Text(&options.name),
            Cell::Integer(options.max_taken),
            Cell::Made(&new),
            Cell::Made(&rev),
            Cell::Made(&lapse),
        ],
        &options.rest,
    )
}

/// The object of the members that a rest keeps.
fn rest_object(alloc: Global, rest: &Rest<OfOptions>) -> Result<Value, Memory>
    ensures { IfOk result (λ value. view value ≡ rest_object rest.now.text) }
{
    let members = members_of(alloc, rest)?;
    Ok(Value::Object(members))
}

/// What is written under `new`.
fn write_new(alloc: Global, options: &Options, kept: &Value) -> Result<Value, Memory>
    ensures { IfOk result (λ value. view value ≡ new_json options.now (view kept.now)) }
{
    let ints = Count {
        day: options.grad_ivl,
        count: options.easy_ivl,
    };
    let cells = [
        Cell::Steps(&options.new_steps),
        Cell::Pair(ints),
        Cell::Integer(options.initial_factor),
        Cell::Integer(options.new_per_day),
        Cell::Bool(options.new_bury),
    ];
    write_group(alloc, Key::New, &NEW, &cells, kept)
}

/// What is written under `rev`.
fn write_rev(alloc: Global, options: &Options, kept: &Value) -> Result<Value, Memory>
    ensures { IfOk result (λ value. view value ≡ rev_json options.now (view kept.now)) }
{
    write_group(alloc, Key::Rev, &REV, &rev_cells(options), kept)
}

/// What is written into the columns for reviews.
fn rev_cells(options: &Options) -> [Cell<'static>; 6]
    ensures { cells_data result ≡ rev_cells options.now }
{
    [
        Cell::Integer(options.rev_per_day),
        Cell::Decimal(options.ease4),
        Cell::Decimal(options.ivl_fct),
        Cell::Integer(options.max_ivl),
        Cell::Decimal(options.hard_factor),
        Cell::Bool(options.rev_bury),
    ]
}

/// What is written under `lapse`.
fn write_lapse(alloc: Global, options: &Options, kept: &Value) -> Result<Value, Memory>
    ensures { IfOk result (λ value. view value ≡ lapse_json options.now (view kept.now)) }
{
    let cells = [
        Cell::Steps(&options.lapse_steps),
        Cell::Decimal(options.mult),
        Cell::Integer(options.min_int),
        Cell::Integer(options.leech_fails),
        Cell::Integer(options.leech_action),
    ];
    write_group(alloc, Key::Lapse, &LAPSE, &cells, kept)
}

/// The object of a group: these cells, and the members that the rest keeps for it.
fn write_group(
    alloc: Global,
    key: Key,
    form: &[(Place, Kind)],
    cells: &[Cell<'_>],
    kept: &Value,
) -> Result<Value, Memory>
    ensures { IfOk result (λ value. view value ≡ group_json key form.now (cells_data cells.now) (view kept.now)) }
{
    let mut members = group_members(alloc, key, kept)?;
    put_cells(alloc, form, cells, &mut members)?;
    Ok(Value::Object(members))
}

/// The members that a rest keeps under the key of a group.
fn group_members(alloc: Global, key: Key, kept: &Value) -> Result<Map<String, Value>, Memory>
    ensures { IfOk result (λ members. members_view members.entries ≡ group_members key (view kept.now)) }
{
    match kept.get(key.text()) {
        Some(group) => match group.clone()? {
            Value::Object(members) => Ok(members),
            _ => Ok(Map::new(alloc)),
        },
        None => Ok(Map::new(alloc)),
    }
}
