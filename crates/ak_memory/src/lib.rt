// The keeper of a collection in memory. Its marks copy nothing: each place holds the row of now and, if it was changed, that
// of the mark.
#![tactic(auto)]

mod by_name;
mod calls;
mod card_keys;
mod collections;
mod heads;
mod held_rows;
mod indexed;
mod keepers;
mod marked_rows;
mod note_keys;
mod pages;
mod places;
mod queue_keys;
mod taken_runs;
mod versions;

pub use keepers::MemoryKeeper;
pub use marked_rows::MarkedRows;
