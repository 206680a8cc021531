ghost use Rattle.std.specs.Prelude.{◌≡◌, IfOk, option_map, is_some};
ghost use Rattle.serde_json.specs.View.{members_view};
ghost use Rattle.ak_json.specs.Members.{is_place, knows, deep_member, has_deep, unknown};

use crate::depths::is_shallow;
use crate::keys::Place;
use crate::kinds::Kind;
use ak_base::Memory;
use serde_json::{Map, Value};
use std::alloc::Global;

/// How deep the value of an unknown key nests at most. The object that keeps it nests one deeper.
const DEEPEST: u64 = 63;

/// The members of which no column of the form is one.
pub(crate) fn unknown(
    alloc: Global,
    form: &[(Place, Kind)],
    members: &Map<String, Value>,
) -> Result<Map<String, Value>, Memory>
    ensures { IfOk result (λ kept. members_view kept.entries ≡ unknown form.now (members_view members.now.entries)) }
{
    let mut kept = Map::new(alloc);
    for (key, value) in members.iter() {
        if !knows(form, key.as_str()) {
            let value = value.clone()?;
            serde_json::put(&mut kept, alloc, key.as_str(), value)?;
        }
    }
    Ok(kept)
}

/// Whether one of the members of which no column is one nests too deep or holds a number that is not whole.
pub(crate) fn has_deep(form: &[(Place, Kind)], members: &Map<String, Value>) -> bool
    ensures { result ≡ has_deep form.now (members_view members.now.entries) }
{
    for (key, value) in members {
        if !knows(form, key.as_str()) && !is_shallow(DEEPEST, value) {
            return true;
        }
    }
    false
}

/// The first key, in the order of bytes, whose value nests too deep or holds a number that is not whole.
pub(crate) fn deep_member(members: &Map<String, Value>) -> Option<&str>
    ensures { option_map (λ key. key.now) result ≡ deep_member (members_view members.now.entries) }
{
    for (key, value) in members {
        if !is_shallow(DEEPEST, value) {
            return Some(key.as_str());
        }
    }
    None
}

/// Whether a column of the form is the member of that key.
fn knows(form: &[(Place, Kind)], key: &str) -> bool
    ensures { result ≡ knows form.now key.now }
{
    for (place, _) in form {
        if is_place(*place, key) {
            return true;
        }
    }
    false
}

/// Whether the column is the member of that key.
fn is_place(place: Place, key: &str) -> bool
    ensures { result ≡ is_place place key.now }
{
    match place {
        Place::Key(own) => own.text() == key,
        Place::At(_) => false,
    }
}
