// The scheduler of Anki's version 2, in whole numbers: what an answer makes of a card.
#![tactic(auto)]

mod answers;
mod card_states;
mod counts;
mod fuzzes;
mod intervals;
mod laws;
mod leeches;
mod places;
mod steps;
mod transitions;

pub use answers::{Answered, answer, can_answer};
pub use fuzzes::fuzz_range;
pub use laws::{one_answer, order_of_buttons};
pub use leeches::is_leech;
