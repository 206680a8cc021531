// How the outcome of a sync is told: the text that is printed of it, and the status of a program that ends with it.
#![tactic(auto)]

mod outcome_statuses;
mod outcome_texts;

pub use outcome_statuses::{KEEPER_FAILED, NO_MEMORY, outcome_status};
pub use outcome_texts::{fixed_text, outcome_text};
