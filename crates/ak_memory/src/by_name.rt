// The places of rows by their names.
ghost use Rattle.std.specs.Prelude.{◌≡◌, ◌+◌, ◌≤◌, true, false, not, ◌&&◌, ◌||◌, Some, None, is_some, cond, length, IfSome, OnOk, OnErr, OnSome};
ghost use Rattle.std.specs.BTreeMap.{is_at};
ghost use Rattle.std.specs.Option.{option_copied};
ghost use Rattle.ak_base.specs.Names.{name_cmp};
ghost use Rattle.ak_base.specs.declared.names.Name.{Name as RowName};
ghost use Rattle.ak_memory.specs.NoteKeys.{is_note};
ghost use Rattle.ak_memory.specs.HeldRows.{held_in, held_row, row_in};
ghost use Rattle.ak_memory.specs.Places.{AreFull, AreFullBut, found_under, is_changed_under, is_empty_under, note_under, one_if, place_under, row_under, unchanged_count};
ghost use Rattle.ak_memory.specs.TakenRuns.{is_used_under};
ghost use Rattle.ak_memory.specs.Versions.{other};
ghost use Rattle.ak_memory.specs.declared.versions.Version.{Version as WhichVersion};
ghost use Rattle.ak_memory.specs.declared.versions.Version.TheVariants.{Mark, Now};

use crate::held_rows::{FoundBy, HeldRow, Replacement};
use crate::note_keys::is_note;
use crate::places::{Change, Place};
use crate::versions::Version;
use ak_base::{Memory, Name};
use std::collections::BTreeMap;

/// The places of rows by the rows' names.
pub(crate) type Places = BTreeMap<Name, Place>;

/// The row that is held under the name.
pub(crate) fn row_of<'a>(places: &'a Places, name: &Name) -> Option<&'a HeldRow>
    ensures { held_in (option_copied result) ≡ row_under Now places.now.entries name.now }
{
    match places.get(name) {
        Some(place) => place.row(),
        None => None,
    }
}

/// Whether a new row may not have the name: a row or a grave of it is held.
#[tactic(auto, using(crate::proofs::TakenRuns::dead_by_name))]
pub(crate) fn is_used(places: &Places, name: Name) -> bool
    ensures { result ≡ is_used_under places.now.entries name }
{
    if is_held(places, &name) {
        return true;
    }
    match name.grave() {
        Some(grave) => is_held(places, &grave),
        None => false,
    }
}

/// Whether a row is held under the name.
fn is_held(places: &Places, name: &Name) -> bool
    ensures { result ≡ is_some (row_under Now places.now.entries name.now) }
{
    match places.get(name) {
        Some(place) => place.is_held(),
        None => false,
    }
}

/// Whether a card of the note is held under the name.
pub(crate) fn holds_card(places: &Places, name: &Name, note: &i64) -> bool
    ensures { result ≡ is_note note.now (note_under Now places.now.entries name.now) }
{
    match places.get(name) {
        Some(place) => is_note(&place.note(Version::Now), note),
        None => false,
    }
}

/// What the cards under the name are found by: first the one of now, then the one of the mark.
pub(crate) fn found_under(places: &Places, name: &Name) -> (Option<FoundBy>, Option<FoundBy>)
    ensures now { result.0 ≡ found_under Now places.now.entries name.now }
    ensures mark { result.1 ≡ found_under Mark places.now.entries name.now }
{
    match places.get(name) {
        Some(place) => (place.found_by(Version::Now), place.found_by(Version::Mark)),
        None => (None, None),
    }
}

/// Adds a place without a row under the name, which counts as changed. There is none yet.
pub(crate) fn add_place(places: &mut Places, name: Name) -> Result<(), Memory>
    requires { place_under places.old.entries name ≡ None }
    ensures there { OnOk result (is_some (place_under places.new.entries name) ≡ true) }
    ensures rows { (each : WhichVersion) (q : RowName) → row_under each places.new.entries q ≡ row_under each places.old.entries q }
    ensures changed { OnOk result ((q : RowName) → is_changed_under places.new.entries q ≡ (is_at (name_cmp name) q || is_changed_under places.old.entries q)) }
    ensures full { OnOk result (AreFull places.old.entries → AreFull places.new.entries) }
    ensures count { unchanged_count places.new.entries ≡ unchanged_count places.old.entries }
    ensures err { OnErr result (places.new.entries ≡ places.old.entries) }
{
    places.insert(name, Place::opened())?;
    Ok(())
}

/// Adds a place under the name that holds the row, and held it at the mark. There is none yet.
pub(crate) fn add_same(places: &mut Places, name: Name, row: HeldRow) -> Result<(), Memory>
    requires { place_under places.old.entries name ≡ None }
    ensures rows { OnOk result ((each : WhichVersion) (q : RowName) → row_under each places.new.entries q ≡ cond (is_at (name_cmp name) q) (Some (held_row row)) (row_under each places.old.entries q)) }
    ensures changed { OnOk result ((q : RowName) → is_changed_under places.new.entries q ≡ (not (is_at (name_cmp name) q) && is_changed_under places.old.entries q)) }
    ensures full { OnOk result (AreFull places.old.entries → AreFull places.new.entries) }
    ensures len { OnOk result (length places.new.entries ≡ length places.old.entries + 1) }
    ensures err { OnErr result (places.new.entries ≡ places.old.entries) }
{
    places.insert(name, Place::Same(row))?;
    Ok(())
}

/// Holds the row under the name from now on, or none, if there is a place. It takes no memory.
pub(crate) fn hold_under(
    places: &mut Places,
    name: Name,
    row: Option<Box<Replacement>>,
) -> Option<Change>
    ensures none { result ≡ None → place_under places.old.entries name ≡ None }
    ensures unchanged { result ≡ None → places.new.entries ≡ places.old.entries }
    ensures held { IfSome result (λ change. change.held ≡ is_some (row_under Now places.old.entries name)) }
    ensures card { IfSome result (λ change. change.card ≡ found_under Now places.old.entries name) }
    ensures now { OnSome result ((q : RowName) → row_under Now places.new.entries q ≡ cond (is_at (name_cmp name) q) (row_in row) (row_under Now places.old.entries q)) }
    ensures mark { OnSome result ((q : RowName) → row_under Mark places.new.entries q ≡ row_under Mark places.old.entries q) }
    ensures changed { OnSome result ((q : RowName) → is_changed_under places.new.entries q ≡ (is_at (name_cmp name) q || is_changed_under places.old.entries q)) }
    ensures full { OnSome result (AreFull places.old.entries → AreFull places.new.entries) }
    ensures first { IfSome result (λ change. change.first ≡ not (is_changed_under places.old.entries name)) }
    ensures count { IfSome result (λ change. unchanged_count places.new.entries + one_if change.first ≡ unchanged_count places.old.entries) }
{
    match places.get_mut(&name) {
        Some(place) => Some(place.hold(row)),
        None => None,
    }
}

/// Settles the place under the name: it holds from now on what it held in this version, and is not changed. It gives
/// what the card is found by that it held in the other version. It takes no memory.
pub(crate) fn settle_under(places: &mut Places, name: Name, version: Version) -> Option<FoundBy>
    ensures card { result ≡ found_under (other version) places.old.entries name }
    ensures rows { (each : WhichVersion) (q : RowName) → row_under each places.new.entries q ≡ cond (is_at (name_cmp name) q) (row_under version places.old.entries q) (row_under each places.old.entries q) }
    ensures changed { (q : RowName) → is_changed_under places.new.entries q ≡ (not (is_at (name_cmp name) q) && is_changed_under places.old.entries q) }
    ensures full { AreFull places.old.entries → AreFullBut name places.new.entries }
    ensures count { unchanged_count places.new.entries ≤ unchanged_count places.old.entries + 1 }
{
    match places.get_mut(&name) {
        Some(place) => {
            let card = place.found_by(version.other());
            place.settle(version);
            card
        }
        None => None,
    }
}

/// Takes out the place under the name, if it is empty. It takes no memory.
pub(crate) fn drop_empty(places: &mut Places, name: Name)
    ensures rows { (each : WhichVersion) (q : RowName) → row_under each places.new.entries q ≡ row_under each places.old.entries q }
    ensures changed { (q : RowName) → is_changed_under places.new.entries q ≡ is_changed_under places.old.entries q }
    ensures full { AreFullBut name places.old.entries → AreFull places.new.entries }
    ensures count { unchanged_count places.new.entries ≤ unchanged_count places.old.entries }
{
    if is_empty_under(places, &name) {
        places.remove(&name);
    }
}

/// Whether there is a place under the name, and it is empty.
fn is_empty_under(places: &Places, name: &Name) -> bool
    ensures empty { result ≡ is_empty_under places.now.entries name.now }
    ensures changed { result ≡ true → is_changed_under places.now.entries name.now ≡ false }
    ensures now { result ≡ true → row_under Now places.now.entries name.now ≡ None }
{
    match places.get(name) {
        Some(place) => place.is_empty(),
        None => false,
    }
}
