// The calls of a desk at which cards are learned: a day's start, answers, and cards that are set aside.
#![tactic(auto)]

mod answerings;
mod answers;
mod card_places;
mod day_starts;
mod deck_counts;
mod leech_tags;
mod row_changes;
mod siblings;
mod study_laws;

pub use answerings::options_for;
pub use answers::{CardAnswer, answer};
pub use card_places::{bury, suspend, unsuspend};
pub use day_starts::start_day;
pub use row_changes::{RowChange, change_rows};
pub use study_laws::{answers_are_admitted, card_places_are_admitted, day_starts_are_admitted};
