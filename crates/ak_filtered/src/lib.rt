// Filtered decks: made for a search, built and emptied, and how cards that are away in them go home.
#![tactic(auto)]

mod builds;
mod candidates;
mod cleared_edits;
mod deck_makings;
mod emptyings;
mod faults;
mod filtered_decks;
mod filtered_laws;
mod held_decks;
mod home_decks;
mod plans;
mod refills;

pub use builds::{build, read_day};
pub use cleared_edits::finish_cleared;
pub use deck_makings::{NewFiltered, make_filtered};
pub use emptyings::{empty, empty_subtree};
pub use faults::FilteredFault;
pub use filtered_laws::{
    cleared_edits_keep_all, filtered_edits_are_admitted, plans_are_read_again,
    what_is_built_and_emptied_is_back,
};
pub use held_decks::{HeldDecks, is_away};
pub use home_decks::send_home;
