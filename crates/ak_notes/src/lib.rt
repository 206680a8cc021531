// The editing calls on notes: a note is added, edited or deleted, with its cards.
#![tactic(auto)]

mod additions;
mod deletions;
mod given_texts;
mod lacking_notes;
mod made_notes;
mod new_cards;
mod note_edits;
mod note_laws;
mod note_rows;

pub use additions::{Added, NewNote, add_note, held_type, read_addition};
pub use deletions::{delete_notes, remove_cards};
pub use lacking_notes::{
    HeldCards, LackingNote, MissingCards, NextCards, held_cards, missing_cards, next_cards,
};
pub use made_notes::{MadeNote, put_cards, put_made};
pub use new_cards::told_ords;
pub use note_edits::{NoteEdit, edit_note, read_edit};
pub use note_laws::{additions_are_admitted, deletions_are_admitted, note_edits_are_admitted};
pub use note_rows::{made_guid, with_fields};
