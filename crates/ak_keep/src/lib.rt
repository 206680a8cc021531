// The keeper of a collection: a map from names to rows with a head, and at most one mark to go back to.
#![tactic(auto)]

mod commits;
mod decks;
mod head_numbers;
mod keepers;
mod lookups;
mod queue_walks;
mod readables;
mod walks;

pub use commits::keep_or_back;
pub use decks::read_decks;
pub use head_numbers::Numbers;
pub use keepers::{KeepFault, Keeper, Wanted};
pub use lookups::{
    card_at, deck_at, deck_of_card, note_at, note_type_at, options_at, options_of_card,
    options_of_deck, type_of_note,
};
pub use queue_walks::{QueueWalk, Waiting};
pub use readables::{Lookup, Readable};
pub use walks::{PAGE, Walk};
