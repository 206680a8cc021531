ghost use Rattle.std.specs.Prelude.{◌≡◌, ◌≢◌, [], true, false};
ghost use Rattle.std.specs.Io.KnownBytes.{IsAtEnd};
ghost use Rattle.ak_csv_runs.specs.FileRuns.{file_outside};
ghost use Rattle.ak_csv_runs.specs.ImportRuns.{EndsImport, TellsImport, has_no_line, is_import_status};
ghost use Rattle.ak_keep.specs.Keepers.{is_marked};
ghost use Rattle.ak_sync_runs.specs.SyncRuns.{HasStatusCause};

use crate::import_texts::{import_status, import_text};
use ak_base::Memory;
use ak_imports::Imported;
use ak_io::{Clock, Sink, Source};
use ak_keep::Keeper;
use ak_note_files::{ImportFault, ImportPlace, import_notes};
use ak_outcomes::NO_MEMORY;
use ak_sync_runs::{NO_COLLECTION, print_ending};
use ak_undo::UndoList;
use std::alloc::Global;

/// Imports the notes of the input into the collection that is held, and prints how many there were of each outcome, or why not. It
/// answers the status for it.
pub fn run_import<K: Keeper, C: Clock, I: Source, O: Sink>(
    alloc: Global,
    keeper: &mut K,
    clock: &mut C,
    place: &ImportPlace,
    input: &mut I,
    out: &mut O,
) -> u8
    requires unmarked { is_marked (K.keeping keeper.old) ≡ false }

    // What it makes of the input and the collection, and what is written of it. An import that is done is told by 0, or by 5 if
    // the output failed in its line, or by 8 if memory was out for its line.
    ensures ends { EndsImport place.now result
        (file_outside (I.left input.old) (K.keeping keeper.old) (C.to_come clock.old) (O.written out.old))
        (file_outside (I.left input.new) (K.keeping keeper.new) (C.to_come clock.new) (O.written out.new)) }
    ensures ended { result ≡ 0 → IsAtEnd (I.left input.new) }
    ensures unmarked { is_marked (K.keeping keeper.new) ≡ false }

    // With which statuses it ends, and why it ends with 4, 5 and 6.
    ensures listed { is_import_status result ≡ true }
    ensures read { HasStatusCause 4 (I.health input.old) (I.health input.new) result }
    ensures written { HasStatusCause 5 (O.health out.old) (O.health out.new) result }
    ensures kept { HasStatusCause 6 (K.health keeper.old) (K.health keeper.new) result }
{
    if !keeper.held() {
        return print_ending(out, "no collection", NO_COLLECTION);
    }
    let mut steps = match UndoList::new(alloc) {
        Ok(steps) => steps,
        Err(Memory) => return NO_MEMORY,
    };
    let at = clock.now();
    let end = import_notes(alloc, keeper, &mut steps, input, place, at);
    tell_import(alloc, &end, out)
}

/// Prints the line for the end of an import, and answers its status.
fn tell_import<O: Sink>(alloc: Global, end: &Result<Imported, ImportFault>, out: &mut O) -> u8
    ensures told { TellsImport end.now result (O.written out.old) (O.written out.new) }
    ensures cause { HasStatusCause 5 (O.health out.old) (O.health out.new) result }
{
    let status = import_status(end);
    if has_no_line(end) {
        return status;
    }
    match import_text(alloc, end) {
        Ok(Some(text)) => print_ending(out, text.as_str(), status),
        Ok(None) => status,
        Err(Memory) => NO_MEMORY,
    }
}

/// Whether nothing is printed of the end of an import: the input or the keeper failed, or memory was out.
fn has_no_line(end: &Result<Imported, ImportFault>) -> bool
    ensures { result ≡ has_no_line end.now }
{
    match end {
        Err(ImportFault::ReadFailed | ImportFault::KeeperFailed | ImportFault::Memory) => true,
        _ => false,
    }
}
