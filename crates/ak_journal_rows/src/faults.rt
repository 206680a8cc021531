use ak_base::Memory;
use ak_json::JsonFault;

/// Why a payload is not read.
#[derive(Clone, Copy, Debug, PartialEq, Eq)]
pub enum ChangeFault {
    /// It is not the one text of a change whose names ascend, none both cut and put, and whose rows and head are in their
    /// ranges.
    NotOfForm,
    Memory,
}

impl From<Memory> for ChangeFault {
    ghost use Rattle.std.specs.Prelude.{◌≡◌};
    ghost use Rattle.ak_journal_rows.specs.declared.faults.ChangeFault.TheVariants.{Memory as OutOfMemory};

    ghost from_gives = { λ _ fault. fault ≡ OutOfMemory };

    fn from(_memory: Memory) -> ChangeFault {
        ChangeFault::Memory
    }
}

impl From<JsonFault> for ChangeFault {
    ghost use Rattle.std.specs.Prelude.{◌≡◌};
    ghost use Rattle.ak_journal_rows.specs.Reads.{of_json};

    ghost from_gives = { λ json fault. fault ≡ of_json json };

    fn from(fault: JsonFault) -> ChangeFault {
        match fault {
            JsonFault::Memory => ChangeFault::Memory,
            JsonFault::NotJson
            | JsonFault::Missing(_)
            | JsonFault::WrongKind(_)
            | JsonFault::Row(_) => ChangeFault::NotOfForm,
        }
    }
}
