// What a server makes of the requests of syncs: a machine over plain values, on which server and client both stand,
// and what holds of every log of requests and views. There is no code but functions without a body, whose contracts
// are the laws.
#![tactic(auto)]

mod commit_laws;
mod content_laws;
mod growth_laws;
mod isolation_laws;
mod kept_laws;
mod repeat_laws;
mod session_laws;
mod sync_laws;

pub use commit_laws::{commits_lead, commits_lead_on, commits_stay, only_commits_change};
pub use content_laws::{
    commits_are_made, commits_give_fresh_schemas, fits_stay, growths_keep_links,
    lawful_stays_lawful, links_stay, undisturbed_syncs_commit,
};
pub use growth_laws::others_may_come;
pub use isolation_laws::{accounts_are_served_alone, logs_part, other_accounts_stay};
pub use kept_laws::{
    grants_are_earned, idle_events_keep_replies, kept_replies_stay_lawful, replies_stay,
    setbacks_end_sessions, views_end_sessions,
};
pub use repeat_laws::{
    asked_again, refusals_change_nothing, repeats_change_nothing, repeats_in_a_row,
};
pub use session_laws::{
    keys_stay_fresh, next_is_done, next_is_no_repeat, replies_are_past, sessions_hold_fronts,
    sessions_stay_lawful, undisturbed_sessions_go_on,
};
pub use sync_laws::{
    calls_keep_syncs, calls_tell, events_keep_syncs, events_leave_unused, metas_leave_unused,
    metas_open_syncs, syncs_are_held, syncs_ask_more, tries_are_one_growth, tries_reply,
    unknown_keys_are_told, unused_keys_commit_nothing,
};
