ghost use Rattle.std.specs.Prelude.{◌≡◌, pos, None, OnOk, IfErr, IfOk, [], unwrap_or, option_map};
ghost use Rattle.serde_json.specs.View.{view, items_view, members_view};
ghost use Rattle.serde_json.specs.Find.{at, as_str};
ghost use Rattle.ak_json.specs.Kinds.{integer_of};
ghost use Rattle.ak_wire.specs.Faults.{OrMemory, Is};
ghost use Rattle.ak_wire.specs.Keys.{key_text};
ghost use Rattle.ak_wire.specs.Values.{told, key_fault, first_key_fault, object_key_fault, first_fault, object_fault, integer_under, bool_under, text_under, value_under, items_of, items_under, ids_under, texts, counts_under, count_at, tags_of, tags_under};

use crate::WireFault;
use crate::keys::Key;
use crate::kinds::Kind;
use ak_base::{List, Memory, Tag, Text};
use ak_json::{JsonFault, integers};
use ak_messages::SanityCounts;
use serde_json::{Map, Value};
use std::alloc::Global;

/// How a value departs from the form of an object.
#[derive(Clone, Copy)]
pub(crate) enum KeyFault {
    NoObject,
    /// Nothing stands under the key.
    Missing(Key),
    /// What stands under the key is of another kind.
    WrongKind(Key),
}

/// Refuses a value that is no object, or whose keys are not of the form, by the first key that has a fault.
pub(crate) fn check_object(
    alloc: Global,
    form: &[(Key, Kind)],
    value: &Value,
) -> Result<(), WireFault>
    ensures ok { OnOk result (object_fault form.now (view value.now) ≡ None) }
    ensures err { IfErr result (OrMemory (Is (object_fault form.now (view value.now)))) }
{
    refuse(alloc, object_key_fault(form, value))
}

/// Refuses an object whose keys are not of the form, by the first key that has a fault.
pub(crate) fn check_keys(
    alloc: Global,
    form: &[(Key, Kind)],
    value: &Value,
) -> Result<(), WireFault>
    ensures ok { OnOk result (first_fault form.now (view value.now) ≡ None) }
    ensures err { IfErr result (OrMemory (Is (first_fault form.now (view value.now)))) }
{
    refuse(alloc, first_key_fault(form, value))
}

/// Tells of a fault, if there is one.
fn refuse(alloc: Global, fault: Option<KeyFault>) -> Result<(), WireFault>
    ensures ok { OnOk result (option_map told fault ≡ None) }
    ensures err { IfErr result (OrMemory (Is (option_map told fault))) }
{
    match fault {
        Some(fault) => Err(fault.told(alloc)?),
        None => Ok(()),
    }
}

impl KeyFault {
    /// The fault that tells of it.
    fn told(self, alloc: Global) -> Result<WireFault, Memory>
        ensures { IfOk result (λ fault. fault ≡ told self) }
    {
        match self {
            KeyFault::NoObject => {
                let none = Text::of(alloc, "")?;
                Ok(WireFault::Json(JsonFault::WrongKind(none)))
            },
            KeyFault::Missing(key) => {
                let key = Text::of(alloc, key.text())?;
                Ok(WireFault::Json(JsonFault::Missing(key)))
            },
            KeyFault::WrongKind(key) => {
                let key = Text::of(alloc, key.text())?;
                Ok(WireFault::Json(JsonFault::WrongKind(key)))
            },
        }
    }
}

/// The fault of a value that is no object, or the first fault of its keys.
fn object_key_fault(form: &[(Key, Kind)], value: &Value) -> Option<KeyFault>
    ensures { result ≡ object_key_fault form.now (view value.now) }
{
    if value.is_object() {
        return first_key_fault(form, value);
    }
    Some(KeyFault::NoObject)
}

/// The fault of the first key that has one.
fn first_key_fault(form: &[(Key, Kind)], value: &Value) -> Option<KeyFault>
    ensures { result ≡ first_key_fault form.now (view value.now) }
{
    for (key, kind) in form {
        if let Some(fault) = key_fault(*key, *kind, value) {
            return Some(fault);
        }
    }
    None
}

/// The fault of one key, if nothing stands there or a value of another kind.
fn key_fault(key: Key, kind: Kind, value: &Value) -> Option<KeyFault>
    ensures { result ≡ key_fault (key, kind) (view value.now) }
{
    match value.get(key.text()) {
        None => Some(KeyFault::Missing(key)),
        Some(found) => {
            if kind.holds(found) {
                return None;
            }
            Some(KeyFault::WrongKind(key))
        },
    }
}

/// The whole number under a key. It is 0 if the object is not of that form.
pub(crate) fn integer_under(key: Key, value: &Value) -> i64
    ensures { result ≡ integer_under (key_text key) (view value.now) }
{
    match value.get(key.text()) {
        Some(found) => found.as_i64().unwrap_or(0),
        None => 0,
    }
}

/// The truth value under a key. It is false if the object is not of that form.
pub(crate) fn bool_under(key: Key, value: &Value) -> bool
    ensures { result ≡ bool_under (key_text key) (view value.now) }
{
    match value.get(key.text()) {
        Some(found) => found.as_bool().unwrap_or(false),
        None => false,
    }
}

/// The text under a key. It is empty if the object is not of that form.
pub(crate) fn text_under(key: Key, value: &Value) -> &str
    ensures { result.now ≡ text_under (key_text key) (view value.now) }
{
    match value.get(key.text()) {
        Some(found) => match found.as_str() {
            Some(text) => text,
            None => "",
        },
        None => "",
    }
}

/// What stands under a key. It is the whole value if nothing does.
pub(crate) fn value_under(key: Key, value: &Value) -> &Value
    ensures { view result.now ≡ value_under (key_text key) (view value.now) }
{
    match value.get(key.text()) {
        Some(found) => found,
        None => value,
    }
}

/// The values of the list under a key. There are none if the object is not of that form.
pub(crate) fn items_under(key: Key, value: &Value) -> &[Value]
    ensures { items_view result.now ≡ items_under (key_text key) (view value.now) }
{
    match value.get(key.text()) {
        Some(found) => match found.as_array() {
            Some(values) => values.as_slice(),
            None => &[],
        },
        None => &[],
    }
}

/// The values of the list at a place of a list. There are none if the list is not of that form.
pub(crate) fn items_at(place: usize, value: &Value) -> &[Value]
    ensures { items_view result.now ≡ items_of (at place (view value.now)) }
{
    match value.get(place) {
        Some(found) => match found.as_array() {
            Some(values) => values.as_slice(),
            None => &[],
        },
        None => &[],
    }
}

/// The ids of the list under a key.
pub(crate) fn ids_under(alloc: Global, key: Key, value: &Value) -> Result<List<i64>, Memory>
    ensures { IfOk result (λ ids. ids ≡ ids_under (key_text key) (view value.now)) }
{
    integers(alloc, items_under(key, value))
}

/// The texts of a list of texts.
pub(crate) fn texts(alloc: Global, values: &[Value]) -> Result<List<Text>, Memory>
    ensures { IfOk result (λ made. made ≡ texts (items_view values.now)) }
{
    let mut made = List::new(alloc);
    for value in values {
        let text = text_of(alloc, value)?;
        made.push(text)?;
    }
    Ok(made)
}

/// The text of a value that is one, else an empty one.
fn text_of(alloc: Global, value: &Value) -> Result<Text, Memory>
    ensures { IfOk result (λ text. text ≡ unwrap_or (as_str (view value.now)) []) }
{
    match value.as_str() {
        Some(text) => Text::of(alloc, text),
        None => Text::of(alloc, ""),
    }
}

/// The counts of a side under a key.
pub(crate) fn counts_under(key: Key, value: &Value) -> SanityCounts
    ensures { result ≡ counts_under (key_text key) (view value.now) }
{
    let counts = value_under(key, value);
    SanityCounts {
        cards: count_at(1, counts),
        notes: count_at(2, counts),
        reviews: count_at(3, counts),
        graves: count_at(4, counts),
        models: count_at(5, counts),
        decks: count_at(6, counts),
        options: count_at(7, counts),
    }
}

/// The count at a place of a list.
fn count_at(place: usize, value: &Value) -> u64
    ensures { result ≡ count_at place (view value.now) }
{
    match value.get(place) {
        Some(found) => found.as_u64().unwrap_or(0),
        None => 0,
    }
}

/// The tags under a key, by the bytes of their names.
pub(crate) fn tags_under(alloc: Global, key: Key, value: &Value) -> Result<List<Tag>, Memory>
    ensures { IfOk result (λ tags. tags ≡ tags_under (key_text key) (view value.now)) }
{
    match value.get(key.text()) {
        Some(found) => match found.as_object() {
            Some(members) => tags_of(alloc, members),
            None => Ok(List::new(alloc)),
        },
        None => Ok(List::new(alloc)),
    }
}

/// The tags of an object of them.
fn tags_of(alloc: Global, members: &Map<String, Value>) -> Result<List<Tag>, Memory>
    ensures { IfOk result (λ tags. tags ≡ tags_of (members_view members.now.entries)) }
{
    let mut tags = List::new(alloc);
    for (name, value) in members {
        let tag = tag_of(alloc, name.as_str(), value)?;
        tags.push(tag)?;
    }
    Ok(tags)
}

/// The tag of this name, with the number that is its value.
fn tag_of(alloc: Global, name: &str, value: &Value) -> Result<Tag, Memory>
    ensures { IfOk result (λ tag. (tag.name ≡ name.now) × (tag.usn ≡ unwrap_or (integer_of (view value.now)) (pos 0))) }
{
    let name = Text::of(alloc, name)?;
    let usn = value.as_i64().unwrap_or(0);
    Ok(Tag { name, usn })
}
