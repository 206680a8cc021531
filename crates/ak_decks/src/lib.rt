// The editing calls on cards, decks and their options.
#![tactic(auto)]

mod deck_laws;
mod flags;
mod moves;
mod option_groups;

pub use deck_laws::{flag_edits_are_admitted, moves_are_admitted, option_uses_are_admitted};
pub use flags::{FlagCards, flag};
pub use moves::{MoveCards, move_cards};
pub use option_groups::{UseOptions, use_options};
