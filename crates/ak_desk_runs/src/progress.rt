use ak_undo::UndoList;
use std::alloc::Global;

/// What a run of desk lines keeps between two of them. References to what it works with travel beside it, one by one:
/// whoever consumes a struct that holds several can't tell what each ended as.
#[derive(Drop)]
pub(crate) struct Progress {
    pub(crate) alloc: Global,
    /// The steps that can be undone.
    pub(crate) undo: UndoList,
    /// How many answers were accepted. At the last `u64` it stays.
    pub(crate) done: u64,
}
