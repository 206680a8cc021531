// What a user may rely on in edits, as laws of what is held: each call keeps a sound collection sound, and so does each undo.
#![tactic(auto)]

mod card_laws;
mod deck_laws;
mod edit_laws;
mod filtered_laws;
mod import_laws;
mod line_laws;
mod note_laws;
mod option_laws;
mod type_laws;

pub use card_laws::{
    answers_keep_sound, any_answers_keep_sound, day_starts_keep_sound, flags_keep_sound,
    moves_keep_sound, places_keep_sound,
};
pub use deck_laws::{
    added_decks_keep_sound, deleted_decks_keep_sound, option_uses_keep_sound,
    renamed_decks_keep_sound, renamed_decks_stand_under_their_paths,
};
pub use edit_laws::{
    edits_keep_sound, edits_leave_what_they_ask_for, sound_begins_with_a_check, undos_keep_sound,
};
pub use filtered_laws::{
    built_decks_keep_sound, emptied_decks_keep_sound, emptied_subtrees_keep_sound,
    made_decks_keep_sound, sent_cards_keep_sound,
};
pub use import_laws::imports_keep_sound;
pub use line_laws::{init_begins_sound, lines_keep_sound, runs_keep_sound};
pub use note_laws::{
    added_notes_keep_sound, added_notes_say_what_was_given, deleted_notes_keep_sound,
    edited_notes_keep_sound, edited_notes_say_what_was_given,
};
pub use option_laws::{
    added_options_keep_sound, changed_options_keep_sound, deleted_options_keep_sound,
    spreads_keep_sound,
};
pub use type_laws::{
    added_types_keep_sound, deleted_types_keep_sound, edited_types_keep_sound,
    edited_types_move_fields, kept_cards_stay_apart,
};
