// The editing calls on decks as a tree of paths.
#![tactic(auto)]

mod deck_deletions;
mod deck_laws;
mod trees;

pub use deck_deletions::delete_deck;
pub use deck_laws::deck_deletions_are_admitted;
