// The notes that are written elsewhere.
ghost use Rattle.std.specs.Prelude.{◌≡◌, ◌++◌, ◌∷◌, [], if◌then◌else◌, OnOk};
ghost use Rattle.std.specs.List.{filter_map};
ghost use Rattle.std.specs.Ordering.{int_eq};
ghost use Rattle.ak_imports.specs.NotesOfTypes.{note_of_type, notes_of_type};
ghost use Rattle.ak_keep.specs.Readings.{ReadsBy};

use ak_base::{List, Memory, Note, Row, Table};
use ak_keep::{KeepFault, Readable, Walk};
use std::alloc::Global;

/// The notes of the type of this id, by ascending id. If the type is not held, its notes are read all the same.
pub fn notes_of<R: Readable>(
    alloc: Global,
    from: &mut R,
    note_type: i64,
) -> Result<List<Note>, KeepFault>
    ensures reads { ReadsBy R.Lookup from.old from.new result (λ h notes. notes ≡ notes_of_type note_type h.rows) }
{
    read_notes(alloc, from, &note_type)
}

/// What `notes_of` gives. The proof needs the type's id behind a reference.
fn read_notes<R: Readable>(
    alloc: Global,
    from: &mut R,
    note_type: &i64,
) -> Result<List<Note>, KeepFault>
    ensures reads { ReadsBy R.Lookup from.old from.new result (λ h notes. notes ≡ notes_of_type note_type.now h.rows) }
{
    let mut notes = List::new(alloc);
    let mut walk = Walk::over(Table::Note);
    'pages: while !walk.is_done() {
        let page = walk.next(from)?;
        take_rows(page.as_slice(), note_type, &mut notes)?;
    }
    Ok(notes)
}

/// Adds the notes of the type among the rows.
fn take_rows(rows: &[Row], note_type: &i64, notes: &mut List<Note>) -> Result<(), Memory>
    ensures { OnOk result (notes.new ≡ notes.old ++ filter_map (note_of_type note_type.now) rows.now) }
{
    let mut rest = rows;
    while let Some((row, others)) = rest.split_first() {
        take_row(row, note_type, notes)?;
        rest = others;
    }
    Ok(())
}

/// Adds the row, if it is a note of the type.
#[tactic(auto, using(crate::proofs::NotesOfTypes::one_note))]
fn take_row(row: &Row, note_type: &i64, notes: &mut List<Note>) -> Result<(), Memory>
    ensures { OnOk result (notes.new ≡ notes.old ++ filter_map (note_of_type note_type.now) (row.now ∷ [])) }
{
    match row {
        Row::Note(note) => take_note(note, note_type, notes),
        _ => Ok(()),
    }
}

/// Adds the note, if it is of the type.
fn take_note(note: &Note, note_type: &i64, notes: &mut List<Note>) -> Result<(), Memory>
    ensures { OnOk result (notes.new ≡ notes.old ++ (if int_eq note.now.mid note_type.now then note.now ∷ [] else [])) }
{
    if note.mid != *note_type {
        return Ok(());
    }
    let copy = note.copy()?;
    notes.push(copy)
}
