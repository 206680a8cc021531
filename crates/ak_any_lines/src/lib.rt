// What any line does at the desk, those about filtered decks too, with what comes before a line where cards are away from home.
#![tactic(auto)]

mod any_lines;
mod filtered_calls;
mod filtered_lines;
mod first_things;
mod series_laws;
mod single_lines;

pub use any_lines::obey_any;
pub use filtered_calls::{answer_any, build, empty, make_filtered};
pub use series_laws::{any_lines_are_steps, any_lines_keep_links, undo_lists_suit_after_any_lines};
