ghost use Rattle.std.specs.Io.KnownBytes.{Keeps};
ghost use Rattle.std.specs.Prelude.{◌≡◌, ◌⊎◌, ◌++◌, IfErr, IfOk, OnOk};
ghost use Rattle.ak_csv.specs.NoteRecords.{note_text, notes_text};
ghost use Rattle.ak_faults.specs.Causes.{HasCauseOf};
ghost use Rattle.ak_keep.specs.Keepers.{WhereTold};
ghost use Rattle.ak_keep.specs.Readings.{ReadsBy};
ghost use Rattle.ak_note_files.specs.Exports.{AppendsBy, export_text};
ghost use Rattle.ak_note_files.specs.declared.exports.ExportFault.TheVariants as faults;

use crate::rules::field_count;
use ak_base::{Memory, Note};
use ak_csv::write_record;
use ak_imports::notes_of;
use ak_io::{Failed, Sink, write_all};
use ak_keep::{KeepFault, Readable};
use std::alloc::Global;

/// Why notes are not exported.
#[derive(Clone, Copy, Debug, PartialEq, Eq)]
pub enum ExportFault {
    /// The output failed: a front of the notes may be written.
    WriteFailed,
    /// The keeper failed, and nothing is written.
    KeeperFailed,
    /// Out of memory, and nothing is written.
    Memory,
}

/// Writes the notes of the type of this id, by their ids, a record each. Of a type that is not held nothing is written.
pub fn export_notes<K: Readable, O: Sink>(
    alloc: Global,
    keeper: &mut K,
    out: &mut O,
    note_type: i64,
) -> Result<(), ExportFault>
    ensures written { WhereTold (K.Lookup.keeping keeper.old)
        (λ h. AppendsBy result (O.written out.old) (O.written out.new) (export_text note_type h.rows)) }
    ensures nothing { IfErr result (λ fault. (fault ≡ faults.WriteFailed) ⊎ Keeps (O.written out.old) (O.written out.new)) }
    ensures same { K.Lookup.keeping keeper.new ≡ K.Lookup.keeping keeper.old }
    ensures write { HasCauseOf faults.WriteFailed (O.health out.old) (O.health out.new) result }
    ensures kept { HasCauseOf faults.KeeperFailed (K.Lookup.health keeper.old) (K.Lookup.health keeper.new) result }
{
    let text = export_text(alloc, keeper, note_type)?;
    write_all(out, text.as_slice())?;
    Ok(())
}

/// The records of the notes.
fn export_text<K: Readable>(
    alloc: Global,
    keeper: &mut K,
    note_type: i64,
) -> Result<Vec<u8>, KeepFault>
    ensures reads { ReadsBy K.Lookup keeper.old keeper.new result (λ h text. text.items ≡ export_text note_type h.rows) }
{
    let fields = field_count(keeper, note_type)?;
    match fields {
        None => Ok(Vec::new(alloc)),
        Some(fields) => {
            let notes = notes_of(alloc, keeper, note_type)?;
            Ok(text_of_notes(alloc, notes.as_slice(), fields)?)
        }
    }
}

/// The records of notes of a type with this number of fields.
fn text_of_notes(alloc: Global, notes: &[Note], fields: u64) -> Result<Vec<u8>, Memory>
    ensures { IfOk result (λ text. text.items ≡ notes_text fields notes.now) }
{
    let mut text = Vec::new(alloc);
    let mut rest = notes;
    while let Some((note, others)) = rest.split_first() {
        add_record(alloc, &mut text, note, fields)?;
        rest = others;
    }
    Ok(text)
}

/// Adds the record of a note.
fn add_record(alloc: Global, text: &mut Vec<u8>, note: &Note, fields: u64) -> Result<(), Memory>
    ensures { OnOk result (text.new.items ≡ text.old.items ++ note_text fields note.now) }
{
    let record = write_record(alloc, note, fields)?;
    text.extend_from_slice(record.as_slice())?;
    Ok(())
}

impl From<Failed> for ExportFault {
    ghost use Rattle.std.specs.Prelude.{◌≡◌};
    ghost use Rattle.ak_note_files.specs.declared.exports.ExportFault.TheVariants as faults;

    ghost from_gives = { λ failed fault. fault ≡ faults.WriteFailed };

    fn from(_failed: Failed) -> ExportFault {
        ExportFault::WriteFailed
    }
}

impl From<KeepFault> for ExportFault {
    ghost use Rattle.std.specs.Prelude.{◌≡◌};
    ghost use Rattle.ak_note_files.specs.Exports.{export_fault_of};

    ghost from_gives = { λ fault made. made ≡ export_fault_of fault };

    fn from(fault: KeepFault) -> ExportFault {
        match fault {
            KeepFault::Failed => ExportFault::KeeperFailed,
            KeepFault::Memory => ExportFault::Memory,
        }
    }
}
