// The answers of cards, of those too that are away in filtered decks.
#![tactic(auto)]

mod answer_laws;
mod away_answers;
mod early_answers;
mod early_intervals;

pub use answer_laws::early_answers_are_admitted;
pub use away_answers::answer_any;
