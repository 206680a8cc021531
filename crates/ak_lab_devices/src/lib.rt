// The devices of a lab: each has a collection in memory, an undo list and a clock, and syncs over a wire to the lab's server.
// Here is also what a line does to one collection: a line of the desk, new reviews as one edit, and the lines that show what is held.
#![tactic(auto)]

mod desk_lines;
mod devices;
mod heads;
mod held_collections;
mod lab_clocks;
mod new_reviews;
mod plans;
mod resting_keepers;
mod review_edits;
mod syncs;
mod tables;

pub use devices::{Device, place_of};
pub use heads::head_text;
pub use held_collections::HeldCollection;
pub use lab_clocks::{are_in_time, is_clock_moment, is_shifted_in_time};
pub use new_reviews::ReviewPlan;
pub use plans::{Act, Planned, crossings_in};
pub use resting_keepers::unfailed;
pub use review_edits::add_reviews;
pub use tables::{grave_texts, row_texts};
