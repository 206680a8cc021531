use ak_base::Memory;
use ak_edit::DeskFault;
use ak_keep::KeepFault;
use ak_search::SearchFault;
use std::alloc::{AllocError, AllocFailed};

/// Why a call on filtered decks was refused. Each call says what it leaves.
#[derive(Debug, Drop)]
pub enum FilteredFault {
    /// The desk's own rules refuse, or the keeper does. It is never `DeskFault::Memory`.
    Desk(DeskFault),
    /// The deck of this id is held and is not filtered.
    NotFiltered(i64),
    /// The search can't be read. It is never `SearchFault::Memory`.
    Search(SearchFault),
    /// The plan of the deck of this id is not of the form, or its limit or order is out of its range; 0 for a plan that was given.
    BadPlan(i64),
    /// Out of memory.
    Memory,
}

impl From<DeskFault> for FilteredFault {
    ghost use Rattle.ak_filtered.specs.FilteredFaults.{of_desk_fault};
    ghost use Rattle.std.specs.Prelude.{◌≡◌};

    ghost from_gives = { λ fault given. given ≡ of_desk_fault fault };

    fn from(fault: DeskFault) -> FilteredFault {
        match fault {
            DeskFault::Memory => FilteredFault::Memory,
            other => FilteredFault::Desk(other),
        }
    }
}

impl From<KeepFault> for FilteredFault {
    ghost use Rattle.ak_filtered.specs.FilteredFaults.{of_keep_fault};
    ghost use Rattle.std.specs.Prelude.{◌≡◌};

    ghost from_gives = { λ fault given. given ≡ of_keep_fault fault };

    fn from(fault: KeepFault) -> FilteredFault {
        match fault {
            KeepFault::Failed => FilteredFault::Desk(DeskFault::Failed),
            KeepFault::Memory => FilteredFault::Memory,
        }
    }
}

impl From<SearchFault> for FilteredFault {
    ghost use Rattle.ak_filtered.specs.FilteredFaults.{of_search_fault};
    ghost use Rattle.std.specs.Prelude.{◌≡◌};

    ghost from_gives = { λ fault given. given ≡ of_search_fault fault };

    fn from(fault: SearchFault) -> FilteredFault {
        match fault {
            SearchFault::Memory => FilteredFault::Memory,
            other => FilteredFault::Search(other),
        }
    }
}

impl From<Memory> for FilteredFault {
    ghost use Rattle.std.specs.Prelude.{◌≡◌};
    ghost use Rattle.ak_filtered.specs.declared.faults.FilteredFault.TheVariants as faults;

    ghost from_gives = { λ memory fault. fault ≡ faults.Memory };

    fn from(_memory: Memory) -> FilteredFault {
        FilteredFault::Memory
    }
}

impl From<AllocError> for FilteredFault {
    ghost use Rattle.std.specs.Prelude.{◌≡◌};
    ghost use Rattle.ak_filtered.specs.declared.faults.FilteredFault.TheVariants as faults;

    ghost from_gives = { λ error fault. fault ≡ faults.Memory };

    fn from(_error: AllocError) -> FilteredFault {
        FilteredFault::Memory
    }
}

impl<T: Drop> From<AllocFailed<T>> for FilteredFault {
    ghost use Rattle.std.specs.Prelude.{◌≡◌};
    ghost use Rattle.ak_filtered.specs.declared.faults.FilteredFault.TheVariants as faults;

    ghost from_gives = { λ error fault. fault ≡ faults.Memory };

    fn from(_error: AllocFailed<T>) -> FilteredFault {
        FilteredFault::Memory
    }
}
