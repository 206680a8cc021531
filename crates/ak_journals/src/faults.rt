use ak_base::Memory;
use ak_io::Failed;
use std::alloc::AllocError;

/// Why a call over a disk was refused.
#[derive(Clone, Copy, Debug, PartialEq, Eq)]
pub enum DiskFault {
    /// The disk refused. It comes only from a call in which the disk's count of faults rose.
    Failed,
    Memory,
}

impl From<Memory> for DiskFault {
    ghost use Rattle.std.specs.Prelude.{◌≡◌};
    ghost use Rattle.ak_journals.specs.declared.faults.DiskFault.TheVariants.{Memory as OutOfMemory};

    ghost from_gives = { λ _ fault. fault ≡ OutOfMemory };

    fn from(_fault: Memory) -> DiskFault {
        DiskFault::Memory
    }
}

impl From<AllocError> for DiskFault {
    ghost use Rattle.std.specs.Prelude.{◌≡◌};
    ghost use Rattle.ak_journals.specs.declared.faults.DiskFault.TheVariants.{Memory as OutOfMemory};

    ghost from_gives = { λ _ fault. fault ≡ OutOfMemory };

    fn from(_error: AllocError) -> DiskFault {
        DiskFault::Memory
    }
}

impl From<Failed> for DiskFault {
    ghost use Rattle.std.specs.Prelude.{◌≡◌};
    ghost use Rattle.ak_journals.specs.declared.faults.DiskFault.TheVariants.{Failed as DiskFailed};

    ghost from_gives = { λ _ fault. fault ≡ DiskFailed };

    fn from(_fault: Failed) -> DiskFault {
        DiskFault::Failed
    }
}
