ghost use Rattle.std.specs.Prelude.{◌≡◌};
ghost use Rattle.ak_search.specs.Grammar.{fault_number, place_of};

use ak_base::Memory;
use std::alloc::{AllocError, AllocFailed};

/// Why a text is no search, with the byte place at which it goes wrong.
#[derive(Clone, Copy, Debug, PartialEq, Eq)]
pub enum SearchFault {
    /// A quote that is never closed.
    OpenQuote(u64),
    /// A group that is never closed.
    OpenGroup(u64),
    /// A group with nothing inside, or a `)` without a group.
    EmptyGroup(u64),
    /// An `or` or `and` that lacks a term or group on a side.
    LoneOr(u64),
    /// A term whose value can't be read.
    BadValue(u64),
    /// The 33rd group that is opened in one another.
    TooDeep(u64),
    Memory,
}

impl SearchFault {
    /// Its number among the refusals, from 1; 0 if memory ran out.
    pub fn number(self) -> u64
        ensures { result ≡ fault_number self }
    {
        match self {
            SearchFault::OpenQuote(_) => 1,
            SearchFault::OpenGroup(_) => 2,
            SearchFault::EmptyGroup(_) => 3,
            SearchFault::LoneOr(_) => 4,
            SearchFault::BadValue(_) => 5,
            SearchFault::TooDeep(_) => 6,
            SearchFault::Memory => 0,
        }
    }

    /// The byte at which the text goes wrong, from 0; also 0 if memory ran out.
    pub fn place(self) -> u64
        ensures { result ≡ place_of self }
    {
        match self {
            SearchFault::OpenQuote(place)
            | SearchFault::OpenGroup(place)
            | SearchFault::EmptyGroup(place)
            | SearchFault::LoneOr(place)
            | SearchFault::BadValue(place)
            | SearchFault::TooDeep(place) => place,
            SearchFault::Memory => 0,
        }
    }
}

impl From<Memory> for SearchFault {
    ghost use Rattle.std.specs.Prelude.{◌≡◌};
    ghost use Rattle.ak_search.specs.declared.faults.SearchFault.TheVariants as faults;

    ghost from_gives = { λ memory fault. fault ≡ faults.Memory };

    fn from(_memory: Memory) -> SearchFault {
        SearchFault::Memory
    }
}

impl From<AllocError> for SearchFault {
    ghost use Rattle.std.specs.Prelude.{◌≡◌};
    ghost use Rattle.ak_search.specs.declared.faults.SearchFault.TheVariants as faults;

    ghost from_gives = { λ memory fault. fault ≡ faults.Memory };

    fn from(_error: AllocError) -> SearchFault {
        SearchFault::Memory
    }
}

impl<T: Drop> From<AllocFailed<T>> for SearchFault {
    ghost use Rattle.std.specs.Prelude.{◌≡◌};
    ghost use Rattle.ak_search.specs.declared.faults.SearchFault.TheVariants as faults;

    ghost from_gives = { λ memory fault. fault ≡ faults.Memory };

    fn from(_error: AllocFailed<T>) -> SearchFault {
        SearchFault::Memory
    }
}
