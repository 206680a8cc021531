// The commands of a keeper, which programs of cases over collections share.
#![tactic(auto)]

mod faults;
mod heads;
mod keepers;
mod memory;
mod related;

pub use faults::{failed, name_text};
pub use keepers::{answer_of_keeper, row_of, value_of};
pub use memory::{answer_of, calls_of};
