// The command `sync`, over any keeper, wire, clock, chance and output: how it ends, what it leaves and what it writes; and how a
// command tells its end. Nothing here knows of the program's words.
#![tactic(auto)]

mod no_servers;
mod run_laws;
mod sync_runs;

pub use no_servers::NoServer;
pub use run_laws::{
    a_lost_finish_is_healed, a_printed_finish_joins, a_printed_no_changes_agrees,
    a_sync_commits_once, memory_runs_out_early, other_ends_keep_the_device,
};
pub use sync_runs::{NO_COLLECTION, print_ending, run_sync, tell_outcome};
