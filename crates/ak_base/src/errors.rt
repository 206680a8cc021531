use std::alloc::{AllocError, AllocFailed};

/// Out of memory: an allocation was refused. It is merged with no other refusal.
#[derive(Clone, Copy, Debug, PartialEq, Eq)]
pub struct Memory;

impl From<AllocError> for Memory {
    fn from(_error: AllocError) -> Memory {
        Memory
    }
}

impl<T: Drop> From<AllocFailed<T>> for Memory {
    fn from(_error: AllocFailed<T>) -> Memory {
        Memory
    }
}

/// The first column of a row that is out of its range. Columns are counted from 0, in the order of
/// schema 11's tables.
#[derive(Clone, Copy, Debug, PartialEq, Eq)]
pub enum RowFault {
    /// A text of more bytes, or a list of more entries, than the column holds.
    TooLong { column: u8, length: u64 },
    /// A time of change outside 0 to 4,294,967,295 seconds.
    StampRange,
    /// An id outside 1 to 9,007,199,254,740,991.
    IdRange,
    /// Any other number outside its range.
    BadCode { column: u8, value: i64 },
}
