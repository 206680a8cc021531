// What an edit leaves for its undo, and the list of the latest of these.
#![tactic(auto)]

mod steps;
mod undo_lists;

pub use steps::{Before, Step};
pub use undo_lists::UndoList;
