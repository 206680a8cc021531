// The editing calls on note types: a type is added, edited with its notes and their cards, or deleted.
#![tactic(auto)]

mod given_types;
mod place_maps;
mod retyped_cards;
mod retyped_notes;
mod type_additions;
mod type_deletions;
mod type_edits;
mod type_laws;
mod type_tests;
mod used_types;

pub use type_additions::add_note_type;
pub use type_deletions::{DeleteNoteType, delete_note_type};
pub use type_edits::{TypeEdit, edit_note_type};
pub use type_laws::{additions_are_admitted, deletions_are_admitted, edits_are_admitted};
