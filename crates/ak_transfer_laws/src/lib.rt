// What a user may rely on in uploads and downloads, as laws: that one which nothing stops is finished, and what the next sync comes to.
#![tactic(auto)]

mod completeness;
mod next_syncs;
mod stops;

pub use completeness::{downloads_complete, uploads_complete};
pub use next_syncs::{
    copies_have_nothing_to_sync, equal_sides_have_nothing_to_sync, other_schemas_need_a_whole,
    syncs_after_transfers_say_why, transfers_leave_linked,
};
pub use stops::transfers_are_never_stopped;
