ghost use Rattle.std.specs.Prelude.{◌≡◌};

use ak_base::Memory;
use ak_json::JsonFault;
use ak_keep::KeepFault;
use sqlite::{Error, ErrorCode};
use std::alloc::{AllocError, AllocFailed};

/// Why a file was not read or written.
#[derive(Clone, Copy, Debug, PartialEq, Eq)]
pub(crate) enum FileFault {
    /// The file, or a statement, was refused, or the file holds something else than a collection.
    Failed,
    /// Out of memory.
    Memory,
}

impl From<Error> for FileFault {
    fn from(error: Error) -> FileFault {
        match error {
            Error::SqliteFailure(ErrorCode::OutOfMemory) => FileFault::Memory,
            _ => FileFault::Failed,
        }
    }
}

impl From<JsonFault> for FileFault {
    fn from(fault: JsonFault) -> FileFault {
        match fault {
            JsonFault::Memory => FileFault::Memory,
            _ => FileFault::Failed,
        }
    }
}

impl From<Memory> for FileFault {
    fn from(_memory: Memory) -> FileFault {
        FileFault::Memory
    }
}

impl From<AllocError> for FileFault {
    fn from(_error: AllocError) -> FileFault {
        FileFault::Memory
    }
}

impl<T: Drop> From<AllocFailed<T>> for FileFault {
    fn from(_error: AllocFailed<T>) -> FileFault {
        FileFault::Memory
    }
}

impl From<FileFault> for KeepFault {
    ghost use Rattle.ak_sqlite.specs.Faults.{fault_of};

    ghost from_gives = { λ fault given. given ≡ fault_of fault };

    fn from(fault: FileFault) -> KeepFault {
        match fault {
            FileFault::Failed => KeepFault::Failed,
            FileFault::Memory => KeepFault::Memory,
        }
    }
}
