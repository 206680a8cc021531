ghost use Rattle.std.specs.Prelude.{◌≡◌};
ghost use Rattle.serde_json.specs.View.{view, items_view, members_view};
ghost use Rattle.ak_wire.specs.Kinds.{holds, is_after, are_ids, number_at, is_list, is_count, is_nothing_due, are_seven_counts, are_counts, is_fault, are_tag_names, are_tags};
ghost use Rattle.ak_base.specs.Heads.{is_tag_name};

use crate::words::word_of;
use ak_base::{LAST_I64, LAST_ID, LAST_USN, NAME_BYTES};
use ak_json::is_number_within;
use serde_json::{Map, Value};

/// What stands under a key of a message.
#[derive(Clone, Copy)]
pub(crate) enum Kind {
    /// A whole number that fits 64 bits with its sign.
    Integer,
    /// A whole number from the least to the most.
    Within(i64, i64),
    Text,
    Bool,
    /// A list of values of any form.
    Values,
    /// An object.
    Members,
    /// A list of whole numbers that ascend.
    Ids,
    /// The counts of a side: `[[0,0,0],cards,notes,revlog,graves,models,decks,options]`.
    Counts,
    /// The fault of a collection, or null: `[code,id]`.
    Fault,
    /// `ok` or `bad`.
    Status,
    /// The word of a refusal.
    Word,
    /// A list of names of tags.
    TagNames,
    /// A list of two lists.
    TwoLists,
    /// An object of tags and their usns.
    Tags,
}

impl Kind {
    /// Whether the value is of this kind.
    pub(crate) fn holds(self, value: &Value) -> bool
        ensures { result ≡ holds self (view value.now) }
    {
        match self {
            Kind::Integer => value.as_i64().is_some(),
            Kind::Within(least, most) => is_number_within(value.as_i64(), least, most),
            Kind::Text => value.as_str().is_some(),
            Kind::Bool => value.as_bool().is_some(),
            Kind::Values => value.as_array().is_some(),
            Kind::Members => value.as_object().is_some(),
            Kind::Ids => match value.as_array() {
                Some(values) => are_ids(values.as_slice()),
                None => false,
            },
            Kind::Counts => are_counts(value),
            Kind::Fault => is_fault(value),
            Kind::Status => match value.as_str() {
                Some(text) => text == "ok" || text == "bad",
                None => false,
            },
            Kind::Word => match value.as_str() {
                Some(text) => word_of(text).is_some(),
                None => false,
            },
            Kind::TagNames => match value.as_array() {
                Some(values) => are_tag_names(values.as_slice()),
                None => false,
            },
            Kind::TwoLists => is_list(value, 0) && is_list(value, 1) && value.get(2).is_none(),
            Kind::Tags => match value.as_object() {
                Some(members) => are_tags(members),
                None => false,
            },
        }
    }
}

/// Whether a number is over the one before it, if there is one.
pub(crate) fn is_after(before: Option<i64>, id: i64) -> bool
    ensures { result ≡ is_after before id }
{
    match before {
        Some(before) => before < id,
        None => true,
    }
}

/// Whether the values are whole numbers that ascend.
fn are_ids(values: &[Value]) -> bool
    ensures { result ≡ are_ids (items_view values.now) }
{
    let mut before = None;
    for value in values {
        match value.as_i64() {
            Some(id) => {
                if !is_after(before, id) {
                    return false;
                }
                before = Some(id);
            },
            None => return false,
        }
    }
    true
}

/// The whole number at a place of a list.
pub(crate) fn number_at(place: usize, value: &Value) -> Option<i64>
    ensures { result ≡ number_at place (view value.now) }
{
    match value.get(place) {
        Some(found) => found.as_i64(),
        None => None,
    }
}

/// Whether there is a list at a place of a list.
fn is_list(value: &Value, place: usize) -> bool
    ensures { result ≡ is_list place (view value.now) }
{
    match value.get(place) {
        Some(found) => found.as_array().is_some(),
        None => false,
    }
}

/// Whether a list begins with what is due, of which nothing is counted, and goes on with seven counts.
fn are_counts(value: &Value) -> bool
    ensures { result ≡ are_counts (view value.now) }
{
    let due = match value.get(0) {
        Some(found) => is_nothing_due(found),
        None => false,
    };
    due && are_seven_counts(value) && value.get(8).is_none()
}

/// Whether a list is `[0,0,0]`.
fn is_nothing_due(value: &Value) -> bool
    ensures { result ≡ is_nothing_due (view value.now) }
{
    is_number_within(number_at(0, value), 0, 0)
        && is_number_within(number_at(1, value), 0, 0)
        && is_number_within(number_at(2, value), 0, 0)
        && value.get(3).is_none()
}

/// Whether counts stand at the places 1 to 7 of a list.
fn are_seven_counts(value: &Value) -> bool
    ensures { result ≡ are_seven_counts (view value.now) }
{
    is_count(1, value)
        && is_count(2, value)
        && is_count(3, value)
        && is_count(4, value)
        && is_count(5, value)
        && is_count(6, value)
        && is_count(7, value)
}

/// Whether a count stands at a place of a list: counts are kept with a sign.
fn is_count(place: usize, value: &Value) -> bool
    ensures { result ≡ is_count place (view value.now) }
{
    match value.get(place) {
        Some(found) => match found.as_u64() {
            Some(count) => count <= LAST_I64,
            None => false,
        },
        None => false,
    }
}

/// Whether a value is null, or the number of a fault of a collection and the id of a row.
fn is_fault(value: &Value) -> bool
    ensures { result ≡ is_fault (view value.now) }
{
    if value.is_null() {
        return true;
    }
    is_number_within(number_at(0, value), 1, 4)
        && is_number_within(number_at(1, value), 1, LAST_ID)
        && value.get(2).is_none()
}

/// Whether a text can be the name of a tag.
fn is_tag_name(name: &str) -> bool
    ensures { result ≡ is_tag_name name.now }
{
    let bytes = name.len() as u64;
    1 <= bytes && bytes <= NAME_BYTES
}

/// Whether the values are names of tags.
fn are_tag_names(values: &[Value]) -> bool
    ensures { result ≡ are_tag_names (items_view values.now) }
{
    for value in values {
        match value.as_str() {
            Some(name) => {
                if !is_tag_name(name) {
                    return false;
                }
            },
            None => return false,
        }
    }
    true
}

/// Whether each key is the name of a tag, and its value a usn of a row.
fn are_tags(members: &Map<String, Value>) -> bool
    ensures { result ≡ are_tags (members_view members.now.entries) }
{
    for (name, value) in members {
        if !is_tag_name(name.as_str()) || !is_number_within(value.as_i64(), -1, LAST_USN) {
            return false;
        }
    }
    true
}
