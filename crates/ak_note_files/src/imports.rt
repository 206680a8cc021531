ghost use Rattle.std.specs.Prelude.{◌≡◌, false, true, IfErr, IfOk, OnErr};
ghost use Rattle.ak_faults.specs.Causes.{HasCauseOf};
ghost use Rattle.ak_keep.specs.Keepers.{is_marked};
ghost use Rattle.ak_note_files.specs.Imports.{EndsInput, Imports, ReadsRecords, StopsImport, StopsReading};
ghost use Rattle.ak_note_files.specs.declared.import_faults.ImportFault.TheVariants as faults;

use crate::import_faults::{ImportFault, notes_fault_as, record_fault_as};
use crate::inputs::read_input;
use crate::places::ImportPlace;
use crate::rules::record_rules;
use ak_base::List;
use ak_csv::read_records;
use ak_imports::{Import, Imported, Record, put_notes};
use ak_io::Source;
use ak_keep::Keeper;
use ak_undo::UndoList;
use std::alloc::Global;

/// Takes the notes of the input, which is read to its end first, as one edit at this moment. A record whose guid a note of the
/// type has updates that note, and any other adds one. The first fault leaves the collection as it was.
pub fn import_notes<K: Keeper, I: Source>(
    alloc: Global,
    keeper: &mut K,
    steps: &mut UndoList,
    input: &mut I,
    place: &ImportPlace,
    at: i64,
) -> Result<Imported, ImportFault>
    requires unmarked { is_marked (K.keeping keeper.old) ≡ false }
    requires held { (K.keeping keeper.old).headed.current ≡ true }

    // The records of the whole input were taken, one after the other.
    ensures ok { IfOk result (λ counts. Imports place.now at (I.left input.old) (K.keeping keeper.old) (K.keeping keeper.new)
        steps.old steps.new counts) }
    ensures ended { EndsInput result (I.left input.new) }

    // It is refused for the first reason that there is, and then all is as it was.
    ensures refused { IfErr result (StopsImport place.now at (I.left input.old) (K.keeping keeper.old)) }
    ensures same { OnErr result (K.keeping keeper.new ≡ K.keeping keeper.old) }
    ensures undo { OnErr result (steps.new ≡ steps.old) }
    ensures stays { (K.keeping keeper.new).headed ≡ (K.keeping keeper.old).headed }

    // Why the input or the keeper failed.
    ensures read { HasCauseOf faults.ReadFailed (I.health input.old) (I.health input.new) result }
    ensures kept { HasCauseOf faults.KeeperFailed (K.health keeper.old) (K.health keeper.new) result }
{
    let records = records_of(alloc, keeper, input, place)?;
    let given = Import {
        note_type: place.note_type,
        deck: place.deck,
        records,
    };
    match put_notes(keeper, steps, given, at) {
        Ok(counts) => Ok(counts),
        Err(fault) => Err(notes_fault_as(fault)),
    }
}

/// The records of the whole input, each of which keeps the rules.
fn records_of<K: Keeper, I: Source>(
    alloc: Global,
    keeper: &mut K,
    input: &mut I,
    place: &ImportPlace,
) -> Result<List<Record>, ImportFault>
    ensures ok { IfOk result (λ records. ReadsRecords place.now.note_type (I.left input.old) (K.keeping keeper.old) records) }
    ensures ended { EndsInput result (I.left input.new) }
    ensures refused { IfErr result (StopsReading place.now.note_type (I.left input.old) (K.keeping keeper.old)) }
    ensures same { K.keeping keeper.new ≡ K.keeping keeper.old }
    ensures read { HasCauseOf faults.ReadFailed (I.health input.old) (I.health input.new) result }
    ensures kept { HasCauseOf faults.KeeperFailed (K.health keeper.old) (K.health keeper.new) result }
{
    let text = read_input(alloc, input)?;
    let rules = record_rules(alloc, keeper, place)?;
    match read_records(alloc, text.as_slice(), &rules) {
        Ok(records) => Ok(records),
        Err(fault) => Err(record_fault_as(fault)),
    }
}
