use ak_base::Memory;
use ak_io::{Failed, ReadFault};
use std::alloc::{AllocError, AllocFailed};

/// Why a line has no answer.
#[derive(Clone, Copy, Debug, PartialEq, Eq)]
pub enum Unread {
    /// It is no command of the table, or its arguments have another form.
    Bad,
    /// Out of memory, or the input or the output failed.
    Ended,
}

impl From<Memory> for Unread {
    fn from(_memory: Memory) -> Unread {
        Unread::Ended
    }
}

impl From<AllocError> for Unread {
    fn from(_error: AllocError) -> Unread {
        Unread::Ended
    }
}

impl<T: Drop> From<AllocFailed<T>> for Unread {
    fn from(_error: AllocFailed<T>) -> Unread {
        Unread::Ended
    }
}

impl From<ReadFault> for Unread {
    fn from(_fault: ReadFault) -> Unread {
        Unread::Ended
    }
}

impl From<Failed> for Unread {
    fn from(_failed: Failed) -> Unread {
        Unread::Ended
    }
}
