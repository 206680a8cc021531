// An edit under way over a keeper that is only read, and its end: stamps, graves, tags, moments and the undo list.
#![tactic(auto)]

mod changes;
mod desk_faults;
mod edit_laws;
mod ends;
mod made_rows;
mod plans;
mod stores;
mod undo_laws;
mod undos;
mod view_laws;
mod views;

pub use changes::Change;
pub use desk_faults::DeskFault;
pub use edit_laws::{
    changes_build_edits, finished_edits_keep_all, finished_lists_suit,
    noted_rows_stand_over_held_ones, same_edits,
};
pub use undo_laws::undone_steps_keep_all;
pub use undos::undo;
pub use view_laws::views_show_what_edits_leave;
pub use views::ChangedView;
