ghost use Rattle.std.specs.Prelude.{◌≡◌, None, true, false};
ghost use Rattle.ak_csv_runs.specs.ExportRuns.{EndsExport, export_status, is_export_status};
ghost use Rattle.ak_csv_runs.specs.FileRuns.{file_outside};
ghost use Rattle.ak_keep.specs.Keepers.{is_marked};
ghost use Rattle.ak_sync_runs.specs.SyncRuns.{HasStatusCause};

use ak_io::{Clock, Sink};
use ak_keep::Keeper;
use ak_note_files::{ExportFault, export_notes};
use ak_sync_runs::{NO_COLLECTION, print_ending};
use std::alloc::Global;

/// Writes the notes of the type of this id, a record each, by their ids. It answers the status with which that ends.
pub fn run_export<K: Keeper, C: Clock, O: Sink>(
    alloc: Global,
    keeper: &mut K,
    clock: &mut C,
    note_type: i64,
    out: &mut O,
) -> u8
    requires unmarked { is_marked (K.keeping keeper.old) ≡ false }

    // What is written, and that the collection stays as it is.
    ensures ends { EndsExport note_type result
        (file_outside None (K.keeping keeper.old) (C.to_come clock.old) (O.written out.old))
        (file_outside None (K.keeping keeper.new) (C.to_come clock.new) (O.written out.new)) }
    ensures same { K.keeping keeper.new ≡ K.keeping keeper.old }

    // With which statuses it ends, and why it ends with 5 and 6.
    ensures listed { is_export_status result ≡ true }
    ensures written { HasStatusCause 5 (O.health out.old) (O.health out.new) result }
    ensures kept { HasStatusCause 6 (K.health keeper.old) (K.health keeper.new) result }
{
    if !keeper.held() {
        return print_ending(out, "no collection", NO_COLLECTION);
    }
    // Each command that works on notes takes a moment, also this one, which needs none.
    clock.now();
    export_status(export_notes(alloc, keeper, out, note_type))
}

/// The status for the end of an export.
fn export_status(end: Result<(), ExportFault>) -> u8
    ensures { result ≡ export_status end }
{
    match end {
        Ok(()) => 0,
        Err(ExportFault::WriteFailed) => 5,
        Err(ExportFault::KeeperFailed) => 6,
        Err(ExportFault::Memory) => 8,
    }
}
