ghost use Rattle.std.specs.Prelude.{◌≡◌};

use ak_base::Memory;
use ak_keep::KeepFault;

/// Why a day's queue is refused.
#[derive(Clone, Copy, Debug, PartialEq, Eq)]
pub enum QueueFault {
    /// No deck of this id is held.
    NoDeck(i64),
    /// The store refused. It comes only from a call in which the store's count of faults rose.
    Failed,
    /// Out of memory.
    Memory,
}

impl From<KeepFault> for QueueFault {
    ghost use Rattle.ak_queue.specs.Readings.{fault_of};

    ghost from_gives = { λ fault given. given ≡ fault_of fault };

    fn from(fault: KeepFault) -> QueueFault {
        match fault {
            KeepFault::Failed => QueueFault::Failed,
            KeepFault::Memory => QueueFault::Memory,
        }
    }
}

impl From<Memory> for QueueFault {
    ghost use Rattle.ak_queue.specs.declared.faults.QueueFault.TheVariants as faults;

    ghost from_gives = { λ memory given. given ≡ faults.Memory };

    fn from(_memory: Memory) -> QueueFault {
        QueueFault::Memory
    }
}
