// What the editing calls of a collection share: how they are refused, what they leave, and an edit of cards one by one.
#![tactic(auto)]

mod call_laws;
mod card_edits;
mod deck_paths;
mod held_rows;
mod new_names;
mod note_tags;
mod row_additions;
mod row_edits;

pub use call_laws::{card_edits_are_admitted, row_changes_are_admitted, row_edits_are_admitted};
pub use card_edits::{CardChange, CardEdit, edit_cards};
pub use deck_paths::path_of;
pub use held_rows::held_row;
pub use new_names::{first_name, new_name, next_free};
pub use note_tags::stored_tags;
pub use row_additions::add_row;
pub use row_edits::edit_row;
