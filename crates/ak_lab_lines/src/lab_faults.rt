use ak_base::Memory;

/// Why a text is no line of a lab script.
#[derive(Clone, Copy, Debug, PartialEq, Eq)]
pub enum LabLineFault {
    /// It has the words of no line of the table, or a number out of its range.
    BadLine,
    /// Out of memory.
    Memory,
}

impl From<Memory> for LabLineFault {
    ghost use Rattle.std.specs.Prelude.{◌≡◌};
    ghost use Rattle.ak_lab_lines.specs.declared.lab_faults.LabLineFault.TheVariants as faults;

    ghost from_gives = { λ memory fault. fault ≡ faults.Memory };

    fn from(_memory: Memory) -> LabLineFault {
        LabLineFault::Memory
    }
}
