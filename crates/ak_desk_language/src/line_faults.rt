use ak_base::Memory;
use ak_json::JsonFault;
use ak_search::SearchFault;
use std::alloc::{AllocError, AllocFailed};

/// Why a text is no desk line.
#[derive(Debug, Drop)]
pub enum LineFault {
    /// It has the words of no line of the table, or a number out of its range.
    BadLine,
    /// Its words are those of a line, but the JSON at its end is none, or not that of the value that it
    /// needs. The fault inside never says that memory ran out.
    Json(JsonFault),
    /// Its words are those of a `find` line, but what follows is no search. The fault inside never says
    /// that memory ran out.
    Search(SearchFault),
    /// Out of memory.
    Memory,
}

impl From<Memory> for LineFault {
    ghost use Rattle.std.specs.Prelude.{◌≡◌};
    ghost use Rattle.ak_desk_language.specs.declared.line_faults.LineFault.TheVariants as faults;

    ghost from_gives = { λ memory fault. fault ≡ faults.Memory };

    fn from(_memory: Memory) -> LineFault {
        LineFault::Memory
    }
}

impl From<AllocError> for LineFault {
    ghost use Rattle.std.specs.Prelude.{◌≡◌};
    ghost use Rattle.ak_desk_language.specs.declared.line_faults.LineFault.TheVariants as faults;

    ghost from_gives = { λ error fault. fault ≡ faults.Memory };

    fn from(_error: AllocError) -> LineFault {
        LineFault::Memory
    }
}

impl<T: Drop> From<AllocFailed<T>> for LineFault {
    ghost use Rattle.std.specs.Prelude.{◌≡◌};
    ghost use Rattle.ak_desk_language.specs.declared.line_faults.LineFault.TheVariants as faults;

    ghost from_gives = { λ error fault. fault ≡ faults.Memory };

    fn from(_error: AllocFailed<T>) -> LineFault {
        LineFault::Memory
    }
}

impl From<JsonFault> for LineFault {
    ghost use Rattle.std.specs.Prelude.{◌≡◌};
    ghost use Rattle.ak_desk_language.specs.Faults.{of_json_fault};

    ghost from_gives = { λ json fault. fault ≡ of_json_fault json };

    fn from(fault: JsonFault) -> LineFault {
        match fault {
            JsonFault::Memory => LineFault::Memory,
            other => LineFault::Json(other),
        }
    }
}

impl From<SearchFault> for LineFault {
    ghost use Rattle.std.specs.Prelude.{◌≡◌};
    ghost use Rattle.ak_desk_language.specs.Faults.{of_search_fault};

    ghost from_gives = { λ search fault. fault ≡ of_search_fault search };

    fn from(fault: SearchFault) -> LineFault {
        match fault {
            SearchFault::Memory => LineFault::Memory,
            other => LineFault::Search(other),
        }
    }
}
