ghost use Rattle.std.specs.Prelude.{◌≡◌, ◌∷◌, [], map, OnOk, IfOk};
ghost use Rattle.serde_json.specs.Data.{put, string, no_members};
ghost use Rattle.serde_json.specs.View.{view, members_view};
ghost use Rattle.ak_wire.specs.Keys.{key_text};
ghost use Rattle.ak_wire.specs.Written.{object_of, array_of, ids_json, graves_json, chunk_json, newer_pairs, decks_json, changes_json, counts_json, with_members};

use crate::keys::Key;
use crate::parts::write_each;
use ak_base::{List, Memory, Text};
use ak_json::write_conf;
use ak_messages::{Changes, Chunk, GraveIds, Newer, SanityCounts};
use serde_json::{Map, Value};
use std::alloc::Global;

/// Adds a member to an object.
pub(crate) fn add(
    alloc: Global,
    key: Key,
    value: Value,
    members: &mut Map<String, Value>,
) -> Result<(), Memory>
    ensures { OnOk result (members_view members.new.entries ≡ put (key_text key) (view value) (members_view members.old.entries)) }
{
    serde_json::put(members, alloc, key.text(), value)?;
    Ok(())
}

/// The object with one member.
pub(crate) fn holding(alloc: Global, key: Key, value: Value) -> Result<Value, Memory>
    ensures { IfOk result (λ made. view made ≡ object_of ((key_text key, view value) ∷ [])) }
{
    let mut members = Map::new(alloc);
    add(alloc, key, value, &mut members)?;
    Ok(Value::Object(members))
}

/// The object of ids of graves.
pub(crate) fn write_graves(alloc: Global, ids: &GraveIds) -> Result<Value, Memory>
    ensures { IfOk result (λ value. view value ≡ graves_json ids.now) }
{
    let cards = write_ids(alloc, ids.cards.as_slice())?;
    let decks = write_ids(alloc, ids.decks.as_slice())?;
    let notes = write_ids(alloc, ids.notes.as_slice())?;
    let mut members = Map::new(alloc);
    add(alloc, Key::Cards, cards, &mut members)?;
    add(alloc, Key::Decks, decks, &mut members)?;
    add(alloc, Key::Notes, notes, &mut members)?;
    Ok(Value::Object(members))
}

/// The array of these ids.
fn write_ids(alloc: Global, ids: &[i64]) -> Result<Value, Memory>
    ensures { IfOk result (λ value. view value ≡ ids_json ids.now) }
{
    let mut values = Vec::new(alloc);
    for id in ids {
        values.push(Value::from(*id))?;
    }
    Ok(Value::Array(values))
}

/// The object of a chunk.
pub(crate) fn write_chunk(alloc: Global, chunk: &Chunk) -> Result<Value, Memory>
    ensures { IfOk result (λ value. view value ≡ chunk_json chunk.now) }
{
    let cards = write_each(alloc, chunk.cards.as_slice())?;
    let notes = write_each(alloc, chunk.notes.as_slice())?;
    let reviews = write_each(alloc, chunk.reviews.as_slice())?;
    let mut members = Map::new(alloc);
    add(alloc, Key::Cards, cards, &mut members)?;
    add(alloc, Key::Done, Value::Bool(chunk.done), &mut members)?;
    add(alloc, Key::Notes, notes, &mut members)?;
    add(alloc, Key::Revlog, reviews, &mut members)?;
    Ok(Value::Object(members))
}

/// The object of changes.
pub(crate) fn write_changes(alloc: Global, changes: &Changes) -> Result<Value, Memory>
    ensures { IfOk result (λ value. view value ≡ changes_json changes.now) }
{
    let decks = write_decks(alloc, changes)?;
    let models = write_each(alloc, changes.models.as_slice())?;
    let tags = write_tag_names(alloc, changes.tags.as_slice())?;
    let mut members = write_newer(alloc, &changes.newer)?;
    add(alloc, Key::Decks, decks, &mut members)?;
    add(alloc, Key::Models, models, &mut members)?;
    add(alloc, Key::Tags, tags, &mut members)?;
    Ok(Value::Object(members))
}

/// The members of the settings of the newer side, if there are any.
fn write_newer(alloc: Global, newer: &Option<Newer>) -> Result<Map<String, Value>, Memory>
    ensures { IfOk result (λ members. members_view members.entries ≡ with_members (newer_pairs newer.now) no_members) }
{
    let mut members = Map::new(alloc);
    if let Some(newer) = newer {
        let conf = write_conf(alloc, &newer.conf)?;
        add(alloc, Key::Conf, conf, &mut members)?;
        add(alloc, Key::Crt, Value::from(newer.crt), &mut members)?;
    }
    Ok(members)
}

/// The array of the decks and of the option groups of changes.
fn write_decks(alloc: Global, changes: &Changes) -> Result<Value, Memory>
    ensures { IfOk result (λ value. view value ≡ decks_json changes.now) }
{
    let decks = write_each(alloc, changes.decks.as_slice())?;
    let options = write_each(alloc, changes.options.as_slice())?;
    let mut values = Vec::new(alloc);
    values.push(decks)?;
    values.push(options)?;
    Ok(Value::Array(values))
}

/// The array of these names of tags.
fn write_tag_names(alloc: Global, names: &[Text]) -> Result<Value, Memory>
    ensures { IfOk result (λ value. view value ≡ array_of (map string names.now)) }
{
    let mut values = Vec::new(alloc);
    for name in names {
        let value = Value::try_from_str(alloc, name.as_str())?;
        values.push(value)?;
    }
    Ok(Value::Array(values))
}

/// The array of the counts of a side, after what is due, of which nothing is counted.
pub(crate) fn write_counts(alloc: Global, counts: &SanityCounts) -> Result<Value, Memory>
    ensures { IfOk result (λ value. view value ≡ counts_json counts.now) }
{
    let due = vec![in alloc; Value::from(0_u64), Value::from(0_u64), Value::from(0_u64)]?;
    let values = vec![in alloc;
        Value::Array(due),
        Value::from(counts.cards),
        Value::from(counts.notes),
        Value::from(counts.reviews),
        Value::from(counts.graves),
        Value::from(counts.models),
        Value::from(counts.decks),
        Value::from(counts.options),
    ]?;
    Ok(Value::Array(values))
}
