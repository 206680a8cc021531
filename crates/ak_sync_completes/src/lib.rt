// What a sync leaves, that one which nothing stops is finished, and why another one ends, as laws over what `sync_over` and `run_sync` promise.
#![tactic(auto)]

mod alone_laws;
mod causes;
mod completeness;
mod runs;
mod stops;

pub use alone_laws::syncs_alone_join;
pub use causes::told_ends_have_causes;
pub use completeness::syncs_complete;
pub use runs::runs_complete;
pub use stops::syncs_are_never_stopped;
