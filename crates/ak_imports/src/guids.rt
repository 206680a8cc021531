// The notes by their guids: they are looked up once before the first record, and each note that is added is noted.
ghost use Rattle.std.specs.Prelude.{◌≡◌, ◌∷◌, [], ℕ, if◌then◌else◌, List, OnOk, None, Some};
ghost use Rattle.std.specs.BTreeMap.{get_by_text};
ghost use Rattle.std.specs.Option.{option_or};
ghost use Rattle.std.specs.Str.{bytes_eq};
ghost use Rattle.ak_imports.specs.Guids.{AreGuidsOf, first_id};
ghost use Rattle.ak_keep.specs.Readings.{ReadsBy};

use ak_base::{Memory, Note, Row, Table, Text};
use ak_keep::{KeepFault, Readable, Walk};
use std::alloc::Global;
use std::collections::BTreeMap;

/// The least note of each guid that is held.
pub(crate) fn guids_of<R: Readable>(
    alloc: Global,
    from: &mut R,
) -> Result<BTreeMap<String, i64>, KeepFault>
    ensures reads { ReadsBy R.Lookup from.old from.new result (λ h guids. AreGuidsOf guids h.rows) }
{
    // For the proof alone: it says that what is told bears its names.
    let _named = from.held();
    let mut guids = BTreeMap::new(alloc);
    let mut walk = Walk::over(Table::Note);
    'pages: while !walk.is_done() {
        let page = walk.next(from)?;
        take_rows(alloc, &mut guids, page.as_slice())?;
    }
    Ok(guids)
}

/// Takes the notes among the rows, which come by ascending id.
fn take_rows(alloc: Global, guids: &mut BTreeMap<String, i64>, rows: &[Row]) -> Result<(), Memory>
    ensures { OnOk result ((guid : List ℕ) → get_by_text guids.new guid ≡ option_or (get_by_text guids.old guid) (first_id guid rows.now)) }
{
    let mut rest = rows;
    while let Some((row, others)) = rest.split_first() {
        take_row(alloc, guids, row)?;
        rest = others;
    }
    Ok(())
}

/// Takes the row, if it is a note.
#[tactic(auto, using(crate::proofs::GuidsRead::one_note))]
fn take_row(alloc: Global, guids: &mut BTreeMap<String, i64>, row: &Row) -> Result<(), Memory>
    ensures { OnOk result ((guid : List ℕ) → get_by_text guids.new guid ≡ option_or (get_by_text guids.old guid) (first_id guid (row.now ∷ []))) }
{
    match row {
        Row::Note(note) => take_note(alloc, guids, note),
        _ => Ok(()),
    }
}

/// Takes the note, unless a lesser one has its guid.
fn take_note(alloc: Global, guids: &mut BTreeMap<String, i64>, note: &Note) -> Result<(), Memory>
    ensures { OnOk result ((guid : List ℕ) → get_by_text guids.new guid ≡ option_or (get_by_text guids.old guid) (if bytes_eq guid note.now.guid then Some note.now.id else None)) }
{
    if guids.contains_key(note.guid.as_str()) {
        return Ok(());
    }
    note_guid(alloc, guids, &note.guid, note.id)
}

/// Notes that the note of this id is the least one with the guid.
pub(crate) fn note_guid(
    alloc: Global,
    guids: &mut BTreeMap<String, i64>,
    guid: &Text,
    id: i64,
) -> Result<(), Memory>
    ensures { OnOk result ((other : List ℕ) → get_by_text guids.new other
        ≡ (if bytes_eq other guid.now then Some id else get_by_text guids.old other)) }
{
    let key = String::from_str(alloc, guid.as_str())?;
    guids.insert(key, id)?;
    Ok(())
}

/// The id of the least note with the guid.
pub(crate) fn least_id(guids: &BTreeMap<String, i64>, guid: &Text) -> Option<i64>
    ensures { result ≡ get_by_text guids.now guid.now }
{
    guids.get(guid.as_str()).copied()
}
