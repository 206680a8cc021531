// What the payloads of a journal make of a collection, in memory.
#![tactic(auto)]

mod applied;
mod folds;

pub use folds::{FoldFault, fold};
