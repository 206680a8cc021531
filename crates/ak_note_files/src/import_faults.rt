ghost use Rattle.std.specs.Prelude.{◌≡◌};
ghost use Rattle.ak_note_files.specs.Imports.{notes_fault_as, record_fault_as};

use crate::inputs::InputFault;
use ak_base::Memory;
use ak_csv::CsvFault;
use ak_edit::DeskFault;
use ak_imports::NotesFault;
use ak_keep::KeepFault;

/// Why notes are not imported.
#[derive(Debug, Drop)]
pub enum ImportFault {
    /// The input has more than 1,073,741,824 bytes.
    LongInput,
    /// A record breaks a rule of records.
    Record(CsvFault),
    /// A record's note can't be added or updated.
    Notes(NotesFault),
    /// The input failed.
    ReadFailed,
    /// The keeper failed.
    KeeperFailed,
    /// Out of memory.
    Memory,
}

/// The fault of records, of which out of memory is none.
pub(crate) fn record_fault_as(fault: CsvFault) -> ImportFault
    ensures { result ≡ record_fault_as fault }
{
    match fault {
        CsvFault::Memory => ImportFault::Memory,
        _ => ImportFault::Record(fault),
    }
}

/// The fault of notes, of which a keeper that failed and out of memory are none.
pub(crate) fn notes_fault_as(fault: NotesFault) -> ImportFault
    ensures { result ≡ notes_fault_as fault }
{
    match &fault.fault {
        DeskFault::Failed => ImportFault::KeeperFailed,
        DeskFault::Memory => ImportFault::Memory,
        _ => ImportFault::Notes(fault),
    }
}

impl From<InputFault> for ImportFault {
    ghost use Rattle.std.specs.Prelude.{◌≡◌};
    ghost use Rattle.ak_note_files.specs.Imports.{input_fault_as};

    ghost from_gives = { λ fault made. made ≡ input_fault_as fault };

    fn from(fault: InputFault) -> ImportFault {
        match fault {
            InputFault::TooLong => ImportFault::LongInput,
            InputFault::Failed => ImportFault::ReadFailed,
            InputFault::Memory => ImportFault::Memory,
        }
    }
}

impl From<KeepFault> for ImportFault {
    ghost use Rattle.std.specs.Prelude.{◌≡◌};
    ghost use Rattle.ak_note_files.specs.Imports.{import_fault_of};

    ghost from_gives = { λ fault made. made ≡ import_fault_of fault };

    fn from(fault: KeepFault) -> ImportFault {
        match fault {
            KeepFault::Failed => ImportFault::KeeperFailed,
            KeepFault::Memory => ImportFault::Memory,
        }
    }
}

impl From<Memory> for ImportFault {
    ghost use Rattle.std.specs.Prelude.{◌≡◌};
    ghost use Rattle.ak_note_files.specs.declared.import_faults.ImportFault.TheVariants as faults;

    ghost from_gives = { λ memory made. made ≡ faults.Memory };

    fn from(_memory: Memory) -> ImportFault {
        ImportFault::Memory
    }
}
