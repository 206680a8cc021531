// A desk: a learner's collection and its undo list, and every call by which they are worked with.
#![tactic(auto)]

mod card_calls;
mod collection_calls;
mod deck_calls;
mod desks;
mod note_calls;
mod option_calls;
mod study_calls;
mod type_calls;

pub use ak_openings::{Opening, opening};
pub use desks::Desk;
