// What a line does at the desk: it is obeyed, or refused.
#![tactic(auto)]

mod answers;
mod asking_lines;
mod card_lines;
mod collection_lines;
mod deck_lines;
mod line_laws;
mod note_lines;
mod obeying;
mod option_lines;
mod turns;
mod type_lines;
mod view_lines;

pub use asking_lines::answered;
pub use line_laws::{lines_are_single_steps, lines_keep_links, undo_lists_suit_after_lines};
pub use obeying::{counted, obey};
pub use turns::Turn;
