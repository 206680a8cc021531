// A whole run of a server: its words, its accounts, and the links that come by its door.
#![tactic(auto)]

mod doors;
mod laws;
mod run_ends;
mod runs;

pub use laws::{failures_are_counted, runs_are_one_run, unnamed_accounts_stay};
pub use run_ends::RunEnd;
pub use runs::serve_all;
