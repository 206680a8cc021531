// The opening collection: what a learner's `init` makes, and what a server begins with.
#![tactic(auto)]

mod opening_laws;
mod opening_types;
mod openings;
mod whole_collections;

pub use opening_laws::openings_are_sound_and_lawful;
pub use openings::{OPENING_MOMENT, opening, opening_conf};
pub use whole_collections::Opening;
