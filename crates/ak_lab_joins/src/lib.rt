// What a user may rely on in a lab, as laws: devices stay linked with the server, and a finished sync leaves both with the join.
#![tactic(auto)]

mod lab_laws;

pub use lab_laws::{
    commits_lead_on, committed_reviews_stay, crossed_syncs_join, few_lines_leave_a_session_key,
    finished_syncs_join, finished_syncs_send_reviews, finished_transfers_replace,
    keepers_fail_by_breaks_alone, late_finishes_join, lines_keep_labs_linked,
    lines_without_uploads_take_fresh_schemas, lost_syncs_met_three_losses, only_lines_break,
    only_lines_plan, only_served_requests_commit, opened_labs_are_linked, other_syncs_keep_sides,
    other_transfers_keep_sides, outcomes_tell_commits, printed_syncs_join,
    printed_transfers_replace, resends_leave_schemas, runs_keep_labs_linked, script_syncs_join,
    script_transfers_replace, syncs_get_no_bad_reply, syncs_use_up_breaks, unchanged_syncs_agree,
};
