// A collection of any size that is made of a seed: notes with their cards and reviews, as a server may hold them.
#![tactic(auto)]

mod made_cards;
mod made_collections;
mod made_laws;
mod made_notes;
mod plans;
mod row_ids;
mod row_numbers;
mod seed_words;

pub use made_collections::made_collection;
pub use made_laws::{
    cards_follow_their_notes, seed_seven_makes_these, sizes_are_from_1_to_20000,
    words_come_in_turn, words_follow_one_another,
};
pub use plans::{LARGEST_SIZE, MakePlan, MakeSize};
pub use row_ids::made_id;
pub use row_numbers::{REVIEWS_OF_A_CARD, cards_before, words_before_note};
pub use seed_words::nth_word;
