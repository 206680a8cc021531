// One record of an import: its note is added, updated or left alone.
ghost use Rattle.std.specs.Prelude.{◌≡◌, ◌⊎◌, true, None, IfErr, IfOk, OnOk};
ghost use Rattle.std.specs.List.{AllByRecursion};
ghost use Rattle.ak_base.specs.Heads.{IsConfInRange};
ghost use Rattle.ak_edit.specs.Refusals.{DeskCause, IsFromOutside};
ghost use Rattle.ak_imports.specs.Imports.{IsRecordFault, edit_of_record, new_note};
ghost use Rattle.ak_imports.specs.UnderWay.{AddsRecord, ChangesNote, PutsMade, RefusesNew, RefusesToChange, RefusesToPut, RefusesToUpdate, RefusesUnderWay, TakesRecord, UpdatesNote};
ghost use Rattle.std.specs.BTreeMap.{get_by_text};
ghost use Rattle.ak_keep.specs.Keepers.{IsMarkedAt, back, is_marked};
ghost use Rattle.ak_merge.specs.Tags.{IsTagName};
ghost use Rattle.ak_notes.specs.MadeNotes.{IsMakingFault};

use crate::guids::{least_id, note_guid};
use crate::imports::{Arrival, Outcome};
use crate::made_rows::{keep_made, moment_of};
use crate::own_tests::{Trial, rows_made, test_made};
use crate::records::Record;
use crate::same_notes::is_same;
use ak_base::{List, Text};
use ak_edit::{Change, DeskFault};
use ak_keep::{Keeper, note_at};
use ak_notes::{MadeNote, NewNote, NoteEdit, put_made, read_addition, read_edit};
use std::collections::BTreeMap;

/// An import under way, beside a marked keeper that holds what the records so far made.
#[derive(Drop)]
pub(crate) struct Work {
    /// What the records so far ask for: its end is the one edit.
    pub(crate) change: Change,
    /// The least note of each guid.
    pub(crate) guids: BTreeMap<String, i64>,
}

/// Does a record: it acts on the least note with its guid, also on one that an earlier record added.
pub(crate) fn take_record<K: Keeper>(
    keeper: &mut K,
    work: &mut Work,
    arrival: Arrival,
    note_record: Record,
) -> Result<Outcome, DeskFault>
    requires marked { is_marked (K.keeping keeper.old) ≡ true }
    requires held { (K.keeping keeper.old).headed.current ≡ true }
    ensures stays { IsMarkedAt (back (K.keeping keeper.old)) (K.keeping keeper.new) }
    ensures held { (K.keeping keeper.new).headed.current ≡ true }
    ensures ok { IfOk result (λ how. TakesRecord arrival note_record how work.old (K.keeping keeper.old) work.new (K.keeping keeper.new)) }
    ensures refused { IfErr result (λ fault. IsFromOutside fault ⊎ RefusesUnderWay arrival note_record work.old (K.keeping keeper.old) fault) }
    ensures listed { IfErr result IsRecordFault }
    ensures cause { DeskCause (K.health keeper.old) (K.health keeper.new) result }
{
    match least_id(&work.guids, &note_record.guid) {
        Some(id) => {
            let edit = edit_of(note_record, id);
            change_note(keeper, work, arrival, &edit)
        }
        None => add_note(keeper, work, arrival, note_record),
    }
}

/// The texts of a record for the note of this id.
fn edit_of(note_record: Record, id: i64) -> NoteEdit
    ensures { result ≡ edit_of_record id note_record }
{
    let Record { guid, tags, fields } = note_record;
    drop(guid);
    NoteEdit {
        note: id,
        fields,
        tags,
    }
}

/// Adds the note of a record whose guid no note has.
fn add_note<K: Keeper>(
    keeper: &mut K,
    work: &mut Work,
    arrival: Arrival,
    note_record: Record,
) -> Result<Outcome, DeskFault>
    requires none { get_by_text work.old.guids note_record.guid ≡ None }
    requires marked { is_marked (K.keeping keeper.old) ≡ true }
    requires held { (K.keeping keeper.old).headed.current ≡ true }
    ensures stays { IsMarkedAt (back (K.keeping keeper.old)) (K.keeping keeper.new) }
    ensures held { (K.keeping keeper.new).headed.current ≡ true }
    ensures ok { IfOk result (λ how. AddsRecord arrival note_record how work.old (K.keeping keeper.old) work.new (K.keeping keeper.new)) }
    ensures refused { IfErr result (λ fault. IsFromOutside fault ⊎ RefusesNew arrival note_record work.old (K.keeping keeper.old) fault) }
    ensures listed { IfErr result IsRecordFault }
    ensures cause { DeskCause (K.health keeper.old) (K.health keeper.new) result }
{
    let new = new_note(arrival, note_record);
    let made = read_addition(keeper, &new, arrival.at)?;
    let guid = made.note.guid.copy()?;
    let id = made.note.id;
    let taken = Taken {
        at: arrival.at,
        is_new: true,
        made,
    };
    take_made(keeper, &mut work.change, taken, &new.tags)?;
    note_guid(new.tags.allocator(), &mut work.guids, &guid, id)?;
    Ok(Outcome::Added)
}

/// The new note of a record, with the record's guid.
fn new_note(arrival: Arrival, note_record: Record) -> NewNote
    ensures { result ≡ new_note arrival note_record }
{
    let Record { guid, tags, fields } = note_record;
    NewNote {
        note_type: arrival.note_type,
        deck: arrival.deck,
        guid: Some(guid),
        fields,
        tags,
        chance: 0,
    }
}

/// Gives a note the texts of a record and the cards that it then lacks, unless it has the same texts.
fn change_note<K: Keeper>(
    keeper: &mut K,
    work: &mut Work,
    arrival: Arrival,
    edit: &NoteEdit,
) -> Result<Outcome, DeskFault>
    requires marked { is_marked (K.keeping keeper.old) ≡ true }
    requires held { (K.keeping keeper.old).headed.current ≡ true }
    ensures stays { IsMarkedAt (back (K.keeping keeper.old)) (K.keeping keeper.new) }
    ensures held { (K.keeping keeper.new).headed.current ≡ true }
    ensures ok { IfOk result (λ how. ChangesNote arrival edit.now how work.old (K.keeping keeper.old) work.new (K.keeping keeper.new)) }
    ensures refused { IfErr result (λ fault. IsFromOutside fault ⊎ RefusesToChange arrival edit.now work.old (K.keeping keeper.old) fault) }
    ensures listed { IfErr result IsRecordFault }
    ensures cause { DeskCause (K.health keeper.old) (K.health keeper.new) result }
{
    let note = note_at(keeper, edit.note)?;
    if is_same(&note, edit)? {
        return Ok(Outcome::Same);
    }
    update_note(keeper, work, arrival, edit)
}

/// Gives a note other texts and the cards that it then lacks.
fn update_note<K: Keeper>(
    keeper: &mut K,
    work: &mut Work,
    arrival: Arrival,
    edit: &NoteEdit,
) -> Result<Outcome, DeskFault>
    requires marked { is_marked (K.keeping keeper.old) ≡ true }
    requires held { (K.keeping keeper.old).headed.current ≡ true }
    ensures stays { IsMarkedAt (back (K.keeping keeper.old)) (K.keeping keeper.new) }
    ensures held { (K.keeping keeper.new).headed.current ≡ true }
    ensures ok { IfOk result (λ how. UpdatesNote arrival edit.now how work.old (K.keeping keeper.old) work.new (K.keeping keeper.new)) }
    ensures refused { IfErr result (λ fault. IsFromOutside fault ⊎ RefusesToUpdate arrival edit.now work.old (K.keeping keeper.old) fault) }
    ensures listed { IfErr result IsRecordFault }
    ensures cause { DeskCause (K.health keeper.old) (K.health keeper.new) result }
{
    // For the proof alone: they say that what the keeper tells is well formed.
    let _checks = keeper.marked();
    let _formed = keeper.held();
    let made = read_edit(keeper, edit, arrival.at)?;
    let taken = Taken {
        at: arrival.at,
        is_new: false,
        made,
    };
    take_made(keeper, &mut work.change, taken, &edit.tags)?;
    Ok(Outcome::Updated)
}

/// What was made of a record, which is to be tested at this moment.
#[derive(Drop)]
struct Taken {
    at: i64,
    is_new: bool,
    made: MadeNote,
}

/// Tests what was made of a record, and puts it into the marked keeper, for the records to come, and among the changes.
fn take_made<K: Keeper>(
    keeper: &mut K,
    change: &mut Change,
    taken: Taken,
    tags: &List<Text>,
) -> Result<(), DeskFault>
    requires marked { is_marked (K.keeping keeper.old) ≡ true }
    requires held { (K.keeping keeper.old).headed.current ≡ true }
    requires range { IsConfInRange taken.made.conf }
    requires names { AllByRecursion IsTagName tags.now }
    ensures stays { IsMarkedAt (back (K.keeping keeper.old)) (K.keeping keeper.new) }
    ensures held { (K.keeping keeper.new).headed.current ≡ true }
    ensures ok { OnOk result (PutsMade taken.at taken.is_new tags.now taken.made change.old (K.keeping keeper.old) change.new (K.keeping keeper.new)) }
    ensures refused { IfErr result (λ fault. IsFromOutside fault ⊎ RefusesToPut taken.at taken.is_new taken.made (K.keeping keeper.old) fault) }
    ensures listed { IfErr result IsMakingFault }
    ensures cause { DeskCause (K.health keeper.old) (K.health keeper.new) result }
{
    let Taken { at, is_new, made } = taken;
    let alloc = tags.allocator();
    let moment = moment_of(keeper)?;
    let rows = rows_made(alloc, &made)?;
    let trial = Trial { at, is_new, moment };
    if let Err(fault) = test_made(trial, &made, rows.as_slice()) {
        return Err(fault);
    }
    keep_made(keeper, rows, made.conf.copy()?)?;
    put_made(change, made, tags)?;
    Ok(())
}
