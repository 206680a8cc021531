// The texts that end lines: the JSON of texts, option groups and note types, and searches.
ghost use Rattle.std.specs.Prelude.{◌≡◌, Some, None, IfOk, IfErr, OnOk};
ghost use Rattle.serde_json.specs.Find.{as_str};
ghost use Rattle.serde_json.specs.Read.{read};
ghost use Rattle.serde_json.specs.View.{view, items_view};
ghost use Rattle.ak_base.specs.declared.names.Table.TheVariants as tables;
ghost use Rattle.ak_base.specs.declared.rows.Row.TheVariants as rows;
ghost use Rattle.ak_desk_language.specs.Contents.{InJson, IsGroup, IsSearch, json_line, RefusesContent, RefusesRowValue, RefusesTypeWithMaps, RefusesMaps, texts_in_array, each_of, entry_of, map_of, has_id_zero, with_id_one, options_value, place_in, part_of, parts_fault, IsTypeWithMaps, wrong_kind};
ghost use Rattle.ak_desk_language.specs.Faults.{OrMemory};
ghost use Rattle.ak_desk_language.specs.Verbs.{ListOfTexts, OptionGroup, TypeAlone, TypeWithMaps, Searching};
ghost use Rattle.ak_desk_language.specs.declared.line_faults.LineFault.TheVariants as faults;
ghost use Rattle.ak_json.specs.Rows.{ReadsRow};
ghost use Rattle.ak_json.specs.declared.faults.JsonFault.TheVariants as jsons;

use crate::LineFault;
use ak_base::{List, Memory, NoteType, Options, Row, Table, Text};
use ak_json::{JsonFault, read_row};
use ak_search::{Expr, parse};
use serde_json::Value;
use std::alloc::Global;

/// A note type and where its fields and templates come from: of each the place of the old one, from 0, or
/// None if it is new.
#[derive(Debug, Drop)]
pub(crate) struct TypeAndMaps {
    pub(crate) note_type: NoteType,
    pub(crate) fields: List<Option<u16>>,
    pub(crate) templates: List<Option<u16>>,
}

/// The texts of a JSON text of an array of texts.
pub(crate) fn read_texts(alloc: Global, json: &str) -> Result<List<Text>, LineFault>
    ensures ok { IfOk result (λ texts. InJson json.now (λ d. texts_in_array d ≡ Some texts)) }
    ensures err { IfErr result (OrMemory (RefusesContent ListOfTexts json.now)) }
{
    let value = read_json(alloc, json)?;
    match texts_in_array(alloc, &value)? {
        Some(texts) => Ok(texts),
        None => Err(wrong_kind(alloc, "")),
    }
}

/// The value of a JSON text.
pub(crate) fn read_json(alloc: Global, json: &str) -> Result<Value, LineFault>
    ensures ok { IfOk result (λ value. read json.now ≡ Some (view value)) }
    ensures err { IfErr result (OrMemory (λ fault. (read json.now ≡ None) × (fault ≡ faults.Json jsons.NotJson))) }
{
    match Value::from_str(alloc, json) {
        Ok(value) => Ok(value),
        Err(error) => {
            if error.is_memory() {
                return Err(LineFault::Memory);
            }
            Err(LineFault::Json(JsonFault::NotJson))
        },
    }
}

/// A value of another form. The text tells where, and is empty if it is the whole value.
pub(crate) fn wrong_kind(alloc: Global, place: &str) -> LineFault
    ensures { OrMemory (λ fault. fault ≡ wrong_kind place.now) result }
{
    match Text::of(alloc, place) {
        Ok(place) => LineFault::Json(JsonFault::WrongKind(place)),
        Err(_) => LineFault::Memory,
    }
}

/// The texts of an array of texts. None if the value is none.
fn texts_in_array(alloc: Global, value: &Value) -> Result<Option<List<Text>>, Memory>
    ensures { IfOk result (λ texts. texts ≡ texts_in_array (view value.now)) }
{
    match value.as_array() {
        Some(values) => each_text(alloc, values.as_slice()),
        None => Ok(None),
    }
}

/// The texts that values are. None if one is none.
fn each_text(alloc: Global, values: &[Value]) -> Result<Option<List<Text>>, Memory>
    ensures { IfOk result (λ texts. texts ≡ each_of as_str (items_view values.now)) }
{
    let mut texts = List::new(alloc);
    for value in values {
        match value.as_str() {
            Some(text) => {
                let text = Text::of(alloc, text)?;
                texts.push(text)?;
            },
            None => return Ok(None),
        }
    }
    Ok(Some(texts))
}

/// The option group of a JSON text, and whether it is to be added: if its id is 0, it is read as if that were 1.
pub(crate) fn read_options(alloc: Global, json: &str) -> Result<(bool, Options), LineFault>
    ensures ok { IfOk result (λ p. InJson json.now (IsGroup p.0 p.1)) }
    ensures err { IfErr result (OrMemory (RefusesContent OptionGroup json.now)) }
{
    let value = read_json(alloc, json)?;
    let is_new = has_id_zero(&value);
    let value = options_value(alloc, value)?;
    let options = options_of(alloc, &value)?;
    Ok((is_new, options))
}

/// Whether the id of an object is 0.
fn has_id_zero(value: &Value) -> bool
    ensures { result ≡ has_id_zero (view value.now) }
{
    match value.get("id") {
        Some(id) => id.as_i64() == Some(0),
        None => false,
    }
}

/// The value that is read for an option group: with the id 1, if its id is 0.
fn options_value(alloc: Global, value: Value) -> Result<Value, Memory>
    ensures { IfOk result (λ made. view made ≡ options_value (view value)) }
{
    if has_id_zero(&value) {
        return with_id_one(alloc, value);
    }
    Ok(value)
}

/// An object with the id 1; any other value as it is.
fn with_id_one(alloc: Global, value: Value) -> Result<Value, Memory>
    ensures { IfOk result (λ made. view made ≡ with_id_one (view value)) }
{
    match value {
        Value::Object(mut members) => {
            serde_json::put(&mut members, alloc, "id", Value::from(1))?;
            Ok(Value::Object(members))
        },
        other => Ok(other),
    }
}

/// The option group of an object.
fn options_of(alloc: Global, value: &Value) -> Result<Options, LineFault>
    ensures ok { IfOk result (λ options. ReadsRow tables.Options (view value.now) (rows.Options options)) }
    ensures err { IfErr result (OrMemory (RefusesRowValue tables.Options (view value.now))) }
{
    match read_row(alloc, Table::Options, value)? {
        Row::Options(options) => Ok(options),
        _ => unreachable!(),
    }
}

/// The note type of a JSON text.
pub(crate) fn read_type(alloc: Global, json: &str) -> Result<NoteType, LineFault>
    ensures ok { IfOk result (λ made. InJson json.now (λ d. ReadsRow tables.NoteType d (rows.NoteType made))) }
    ensures err { IfErr result (OrMemory (RefusesContent TypeAlone json.now)) }
{
    let value = read_json(alloc, json)?;
    note_type_of(alloc, &value)
}

/// The note type of an object.
fn note_type_of(alloc: Global, value: &Value) -> Result<NoteType, LineFault>
    ensures ok { IfOk result (λ made. ReadsRow tables.NoteType (view value.now) (rows.NoteType made)) }
    ensures err { IfErr result (OrMemory (RefusesRowValue tables.NoteType (view value.now))) }
{
    match read_row(alloc, Table::NoteType, value)? {
        Row::NoteType(note_type) => Ok(note_type),
        _ => unreachable!(),
    }
}

/// The note type and the two maps of a JSON text of an array of these three.
pub(crate) fn read_type_with_maps(alloc: Global, json: &str) -> Result<TypeAndMaps, LineFault>
    ensures ok { IfOk result
        (λ made. InJson json.now (λ d. IsTypeWithMaps d made.note_type made.fields made.templates)) }
    ensures err { IfErr result (OrMemory (RefusesContent TypeWithMaps json.now)) }
{
    let value = read_json(alloc, json)?;
    type_with_maps_of(alloc, &value)
}

/// The note type and the two maps of an array of these three.
#[tactic(auto, using(crate::proofs::Refusing::maps_told))]
fn type_with_maps_of(alloc: Global, value: &Value) -> Result<TypeAndMaps, LineFault>
    ensures ok { IfOk result (λ made. IsTypeWithMaps (view value.now) made.note_type made.fields made.templates) }
    ensures err { IfErr result (OrMemory (RefusesTypeWithMaps (view value.now))) }
{
    check_parts(alloc, value)?;
    let note_type = note_type_of(alloc, part_of(0, value))?;
    with_maps(alloc, note_type, value)
}

/// Refuses a value that is no array of three.
fn check_parts(alloc: Global, value: &Value) -> Result<(), LineFault>
    ensures ok { OnOk result (parts_fault (view value.now) ≡ None) }
    ensures err { IfErr result (OrMemory (λ fault. json_line (parts_fault (view value.now)) ≡ Some fault)) }
{
    if !value.is_array() {
        return Err(wrong_kind(alloc, ""));
    }
    if value.get(0).is_none() {
        return Err(missing(alloc, "0"));
    }
    if value.get(1).is_none() {
        return Err(missing(alloc, "1"));
    }
    if value.get(2).is_none() {
        return Err(missing(alloc, "2"));
    }
    if value.get(3).is_some() {
        return Err(wrong_kind(alloc, "3"));
    }
    Ok(())
}

/// A value of this place that is not there.
pub(crate) fn missing(alloc: Global, place: &str) -> LineFault
    ensures { OrMemory (λ fault. fault ≡ faults.Json (jsons.Missing place.now)) result }
{
    match Text::of(alloc, place) {
        Ok(place) => LineFault::Json(JsonFault::Missing(place)),
        Err(_) => LineFault::Memory,
    }
}

/// The value at a place of the array.
pub(crate) fn part_of(place: usize, value: &Value) -> &Value
    ensures { view result.now ≡ part_of place (view value.now) }
{
    match value.get(place) {
        Some(part) => part,
        None => value,
    }
}

/// The note type with the maps of the array.
fn with_maps(alloc: Global, note_type: NoteType, value: &Value) -> Result<TypeAndMaps, LineFault>
    ensures same { IfOk result (λ made. made.note_type ≡ note_type) }
    ensures fields { IfOk result (λ made. map_of (part_of 1 (view value.now)) ≡ Some made.fields) }
    ensures templates { IfOk result (λ made. map_of (part_of 2 (view value.now)) ≡ Some made.templates) }
    ensures err { IfErr result (OrMemory (RefusesMaps (view value.now))) }
{
    let fields = read_map(alloc, part_of(1, value), "1")?;
    let templates = read_map(alloc, part_of(2, value), "2")?;
    Ok(TypeAndMaps {
        note_type,
        fields,
        templates,
    })
}

/// The entries of a map. The text tells where it stands.
fn read_map(alloc: Global, value: &Value, place: &str) -> Result<List<Option<u16>>, LineFault>
    ensures ok { IfOk result (λ entries. map_of (view value.now) ≡ Some entries) }
    ensures err { IfErr result
        (OrMemory (λ fault. (map_of (view value.now) ≡ None) × (fault ≡ wrong_kind place.now))) }
{
    match map_of(alloc, value)? {
        Some(entries) => Ok(entries),
        None => Err(wrong_kind(alloc, place)),
    }
}

/// The entries of a map. None if the value is none.
fn map_of(alloc: Global, value: &Value) -> Result<Option<List<Option<u16>>>, Memory>
    ensures { IfOk result (λ entries. entries ≡ map_of (view value.now)) }
{
    match value.as_array() {
        Some(values) => each_entry(alloc, values.as_slice()),
        None => Ok(None),
    }
}

/// The entries that values are. None if one is none.
fn each_entry(alloc: Global, values: &[Value]) -> Result<Option<List<Option<u16>>>, Memory>
    ensures { IfOk result (λ entries. entries ≡ each_of entry_of (items_view values.now)) }
{
    let mut entries = List::new(alloc);
    for value in values {
        match entry_of(value) {
            Some(entry) => entries.push(entry)?,
            None => return Ok(None),
        }
    }
    Ok(Some(entries))
}

/// An entry of a map: None for what is new, else the place of the old one. No entry if the value is neither.
fn entry_of(value: &Value) -> Option<Option<u16>>
    ensures { result ≡ entry_of (view value.now) }
{
    if value.is_null() {
        return Some(None);
    }
    let place = place_in(value.as_u64()?)?;
    Some(Some(place))
}

/// The place, if it is at most 65,535.
fn place_in(place: u64) -> Option<u16>
    ensures { result ≡ place_in place }
{
    if place <= 65_535 {
        Some(place as u16)
    } else {
        None
    }
}

/// The search of a text.
pub(crate) fn read_search(alloc: Global, text: &str) -> Result<Expr, LineFault>
    ensures ok { IfOk result (IsSearch text.now) }
    ensures err { IfErr result (OrMemory (RefusesContent Searching text.now)) }
{
    let search = parse(alloc, text)?;
    Ok(search)
}
