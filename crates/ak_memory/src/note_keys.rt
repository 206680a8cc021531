// The keys by which the cards of a note are found, and what is read by them.
ghost use Rattle.std.specs.Prelude.{◌≡◌, ◌++◌, map, filter, IfOk, OnOk};
ghost use Rattle.std.specs.List.Sorted.{IsStrictlySortedBy};
ghost use Rattle.std.specs.Ordering.{int_eq};
ghost use Rattle.ak_base.specs.declared.names.Name.{Name as RowName};
ghost use Rattle.ak_memory.specs.NoteCards.{keys_from, name_in, names_run};
ghost use Rattle.ak_memory.specs.NoteKeys.{is_note, key_cmp};
ghost use Rattle.ak_memory.specs.Places.{note_under};
ghost use Rattle.ak_memory.specs.declared.versions.Version.TheVariants.{Now};

use crate::by_name::{Places, holds_card};
use ak_base::{List, Memory, Name};
use std::alloc::Global;
use std::collections::BTreeSet;
use std::ops::Bound;

/// What a card is found by: its note, and its name. With no name it comes before all cards of the note.
pub(crate) type NoteKey = (i64, Option<Name>);

/// Whether there is a note, and it is this one.
pub(crate) fn is_note(other: &Option<i64>, note: &i64) -> bool
    ensures { result ≡ is_note note.now other.now }
{
    match other {
        Some(other) => other == note,
        None => false,
    }
}

/// The ids of the note's cards that are held, in the order of their names: a step for each key, after the first is found.
pub(crate) fn ids_of(
    alloc: Global,
    keys: &BTreeSet<NoteKey>,
    places: &Places,
    note: &i64,
) -> Result<List<i64>, Memory>
    ensures ids { IfOk result (λ ids. ids ≡ map (λ (name : RowName). name.id) (filter (λ (name : RowName). is_note note.now (note_under Now places.now.entries name)) (names_run note.now (keys_from note.now keys.now.keys)))) }
    ensures ordered { IsStrictlySortedBy key_cmp keys.now.keys }
{
    let mut ids = List::new(alloc);
    for (other, name) in keys.range((Bound::Excluded((*note, None)), Bound::Unbounded)) {
        if !is_same(other, note) {
            return Ok(ids);
        }
        push_id(&mut ids, places, name, note)?;
    }
    Ok(ids)
}

/// Whether it is this note.
fn is_same(other: &i64, note: &i64) -> bool
    ensures { result ≡ int_eq other.now note.now }
{
    other == note
}

/// Adds the id of the name, if there is one and a card of the note is held under it.
fn push_id(
    ids: &mut List<i64>,
    places: &Places,
    name: &Option<Name>,
    note: &i64,
) -> Result<(), Memory>
    ensures ok { OnOk result (ids.new ≡ ids.old ++ map (λ (name : RowName). name.id) (filter (λ (name : RowName). is_note note.now (note_under Now places.now.entries name)) (name_in name.now))) }
{
    if let Some(name) = name {
        if holds_card(places, name, note) {
            return ids.push(name.id);
        }
    }
    Ok(())
}
