ghost use Rattle.std.specs.Prelude.{◌≡◌, ◌<◌, ◌≤◌, ◌^◌, ℕ, false, length, take, IfErr, IfSome, None, Some, pos};
ghost use Rattle.std.specs.List.{list_any};
ghost use Rattle.std.specs.Option.{option_map};
ghost use Rattle.ak_edit.specs.Refusals.{AnswersBy};
ghost use Rattle.ak_types.specs.PlaceMaps.{IsFirstBad, IsMapFault, RefusesMap, are_places_from, is_bad_at, is_bad_entry, keeps_all, moved_ord, names_place, new_place};

use ak_edit::DeskFault;

/// What an edit of a note type says of its fields, or of its templates.
#[derive(Clone, Copy, Debug)]
pub(crate) struct PlaceMap<'a> {
    /// How many the held type has.
    pub(crate) old: usize,
    /// How many the given type has.
    pub(crate) new: usize,
    /// For each of the given ones the place of the held one that it is, from 0, None if it is new.
    pub(crate) entries: &'a [Option<u16>],
}

/// Refuses a map that is bad at a place, by the first such place, counted on from this number.
pub(crate) fn check_map(map: &PlaceMap, before: usize) -> Result<(), DeskFault>
    requires { before < 2 ^ 63 }
    ensures answers { AnswersBy (RefusesMap before map.now.old map.now.new map.now.entries.now) result }
    ensures listed { IfErr result IsMapFault }
{
    let found = first_bad(map);
    match found {
        Some(place) => Err(DeskFault::BadMap(before as u64 + place as u64)),
        None => Ok(()),
    }
}

/// The first place at which the map is bad.
fn first_bad(map: &PlaceMap) -> Option<usize>
    ensures first { IfSome result (IsFirstBad map.now.old map.now.new map.now.entries.now) }
    ensures within { IfSome result (λ place. place ≤ length map.now.entries.now) }
    ensures none { result ≡ None → (place : ℕ) → is_bad_at map.now.old map.now.new map.now.entries.now place ≡ false }
{
    let count = map.entries.len();
    for place in 0..count {
        if is_bad_at(map, place) {
            return Some(place);
        }
    }
    if count < map.new {
        return Some(count);
    }
    None
}

/// Whether the map is bad at a place that has an entry.
fn is_bad_at(map: &PlaceMap, place: usize) -> bool
    requires { place < length map.now.entries.now }
    ensures { result ≡ is_bad_at map.now.old map.now.new map.now.entries.now place }
{
    if place >= map.new {
        return true;
    }
    is_bad_entry(map.old, &map.entries[..place], map.entries[place])
}

/// Whether an entry after these is bad.
fn is_bad_entry(old: usize, before: &[Option<u16>], entry: Option<u16>) -> bool
    ensures { result ≡ is_bad_entry old before.now entry }
{
    match entry {
        Some(from) => from as usize >= old || has_place(before, from as usize),
        None => false,
    }
}

/// Whether one of the entries names this old place.
fn has_place(entries: &[Option<u16>], old: usize) -> bool
    ensures { result ≡ list_any (names_place old) entries.now }
{
    for entry in entries {
        if names_place(*entry, old) {
            return true;
        }
    }
    false
}

/// Whether the entry names this old place.
fn names_place(entry: Option<u16>, old: usize) -> bool
    ensures { result ≡ names_place old entry }
{
    match entry {
        Some(from) => from as usize == old,
        None => false,
    }
}

/// Whether the map is exactly the places of the whole old list.
pub(crate) fn keeps_all(map: &PlaceMap) -> bool
    ensures { result ≡ keeps_all map.now.old map.now.entries.now }
{
    map.entries.len() == map.old && are_places(map.entries)
}

/// Whether the entries name the places from 0 on, one after the other.
fn are_places(entries: &[Option<u16>]) -> bool
    ensures { result ≡ are_places_from 0 entries.now }
{
    for place in 0..entries.len() {
        if !names_place(entries[place], place) {
            return false;
        }
    }
    true
}

/// The ord of a card after a map of templates, None if its template went. An ord past the old templates stays.
pub(crate) fn moved_ord(map: &PlaceMap, ord: i64) -> Option<i64>
    ensures { result ≡ moved_ord map.now.old map.now.entries.now ord }
{
    if ord < 0 || ord as u64 >= map.old as u64 {
        return Some(ord);
    }
    as_ord(new_place(map.entries, ord as usize))
}

/// A place as an ord, if there is one.
fn as_ord(place: Option<usize>) -> Option<i64>
    requires { IfSome place (λ place. place < 2 ^ 63) }
    ensures { result ≡ option_map pos place }
{
    match place {
        Some(place) => Some(place as i64),
        None => None,
    }
}

/// The new place of an old one, None if it went.
fn new_place(entries: &[Option<u16>], old: usize) -> Option<usize>
    ensures place { result ≡ new_place entries.now old }
    ensures within { IfSome result (λ place. place < length entries.now) }
{
    for place in 0..entries.len() {
        if names_place(entries[place], old) {
            return Some(place);
        }
    }
    None
}
