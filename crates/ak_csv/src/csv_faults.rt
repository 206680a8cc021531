use ak_base::Memory;
use std::alloc::AllocError;

/// Why a text is not read as records: the first record that breaks a rule, counted from 1, and the first rule that it breaks.
#[derive(Clone, Copy, Debug, PartialEq, Eq)]
pub enum CsvFault {
    /// It has another number of columns than a note of the type.
    Columns(u64),
    /// Its guid is empty.
    NoGuid(u64),
    /// One of its columns is not UTF-8.
    Csv(u64),
    /// Its guid is that of a note of another type.
    OtherType(u64),
    /// Out of memory.
    Memory,
}

impl From<Memory> for CsvFault {
    ghost use Rattle.std.specs.Prelude.{◌≡◌};
    ghost use Rattle.ak_csv.specs.declared.csv_faults.CsvFault.TheVariants as faults;

    ghost from_gives = { λ memory fault. fault ≡ faults.Memory };

    fn from(_memory: Memory) -> CsvFault {
        CsvFault::Memory
    }
}

impl From<AllocError> for CsvFault {
    ghost use Rattle.std.specs.Prelude.{◌≡◌};
    ghost use Rattle.ak_csv.specs.declared.csv_faults.CsvFault.TheVariants as faults;

    ghost from_gives = { λ error fault. fault ≡ faults.Memory };

    fn from(_error: AllocError) -> CsvFault {
        CsvFault::Memory
    }
}
