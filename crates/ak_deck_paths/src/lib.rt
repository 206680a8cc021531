// The editing calls that give decks their paths: a deck is added or renamed, with the decks that are missing above it.
#![tactic(auto)]

mod changed_decks;
mod deck_additions;
mod deck_paths;
mod deck_renames;
mod given_paths;
mod held_decks;
mod made_decks;
mod path_laws;

pub use changed_decks::put_decks;
pub use deck_additions::{add_deck, added_paths, check_free, id_of_last};
pub use deck_renames::{RenameDeck, rename_deck};
pub use given_paths::check_path;
pub use made_decks::new_decks;
pub use path_laws::{deck_additions_are_admitted, deck_renames_are_admitted};
