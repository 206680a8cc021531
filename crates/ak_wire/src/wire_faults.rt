use ak_base::{Memory, Table};
use ak_json::JsonFault;

/// Why a body was not read as a message.
#[derive(Debug, PartialEq, Drop)]
pub enum WireFault {
    /// The bytes are no JSON, a key is missing, or a value or a row is not of its form. The fault inside
    /// never says that memory ran out.
    Json(JsonFault),
    /// A chunk, or the graves of a request, has so many entries in its lists together: more than 250.
    TooManyRows(u64),
    /// The ids of the rows of this table of a whole collection do not ascend.
    RowOrder(Table),
    /// Out of memory, or the body would need more of it than one may.
    Memory,
}

impl From<Memory> for WireFault {
    ghost use Rattle.std.specs.Prelude.{◌≡◌};
    ghost use Rattle.ak_wire.specs.declared.wire_faults.WireFault.TheVariants as wires;

    ghost from_gives = { λ memory fault. fault ≡ wires.Memory };

    fn from(_memory: Memory) -> WireFault {
        WireFault::Memory
    }
}

impl From<JsonFault> for WireFault {
    ghost use Rattle.std.specs.Prelude.{◌≡◌};
    ghost use Rattle.ak_wire.specs.Faults.{of_json};

    ghost from_gives = { λ json fault. fault ≡ of_json json };

    fn from(fault: JsonFault) -> WireFault {
        match fault {
            JsonFault::Memory => WireFault::Memory,
            other => WireFault::Json(other),
        }
    }
}
