use ak_base::{Memory, RowFault, Text};

/// Why a text or a value was not read.
#[derive(Debug, PartialEq, Drop)]
pub enum JsonFault {
    /// The bytes are no UTF-8, or no JSON of numbers that fit a double and of nesting up to 127.
    NotJson,
    /// A known key, or the number of a column from 0, that is not there.
    Missing(Text),
    /// The key, or the number of the column from 0, of a value of another form. Empty if the whole
    /// value is no array or object, as needed.
    WrongKind(Text),
    /// A row of the right form with a column out of its range.
    Row(RowFault),
    /// Out of memory.
    Memory,
}

impl From<Memory> for JsonFault {
    ghost use Rattle.std.specs.Prelude.{◌≡◌};
    ghost use Rattle.ak_json.specs.declared.faults.JsonFault.TheVariants as faults;

    ghost from_gives = { λ memory fault. fault ≡ faults.Memory };

    fn from(_memory: Memory) -> JsonFault {
        JsonFault::Memory
    }
}
