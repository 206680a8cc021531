// A lab: one server and its devices in memory, driven by the lines of a script. Devices sync with the server by messages.
#![tactic(auto)]

mod lab_lines;
mod lab_plans;
mod lab_runs;
mod lab_stops;
mod lab_syncs;
mod labs;
mod server_copies;

pub use ak_lab_wires::SessionKind;
pub use lab_runs::run_lab;
