// What the requests of a session do to contents: which may come, what each is given, what they make of the committed
// collection, and what a sync's requests add up to. There is no code but functions without a body, whose contracts
// are the laws.
#![tactic(auto)]

mod answer_laws;
mod check_laws;
mod chunk_laws;
mod commit_laws;
mod message_laws;
mod plan_laws;
mod range_laws;
mod step_laws;
mod sync_laws;
mod upload_laws;

pub use answer_laws::answers_have_their_form;
pub use check_laws::{checks_alone_end_sessions, checks_are_decided, finishes_are_sound};
pub use chunk_laws::{chunks_are_slices, slices_add_up, starts_and_changes_are_given};
pub use commit_laws::{
    commits_are_later, finishes_are_commits, folds_take_what_came, uploads_replace,
};
pub use message_laws::replies_bring_what_is_given;
pub use plan_laws::{
    directions_never_grow, plans_are_accepted, plans_are_short, plans_end_with_their_finish,
};
pub use range_laws::ranges_are_tested;
pub use step_laws::{sessions_go_on, sessions_remember};
pub use sync_laws::{
    checks_test_the_join, parts_ascend, parts_of_a_sync, syncs_exchange, syncs_give_what_is_lacking,
};
pub use upload_laws::uploads_leave_the_content;
