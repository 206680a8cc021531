// What comes between the calls of a lab's sync: requests of the log again, and whole syncs of other devices. And a session of a
// device over such a wire.
#![tactic(auto)]

mod crossed_syncs;
mod lab_sessions;
mod named_requests;
mod replayed_requests;
mod spares;

pub use crossed_syncs::{CrossedLab, Crossings, take_plan};
pub use lab_sessions::{SessionKind, SessionTurn, lab_key, run_over, still_clock};
pub use named_requests::{requests_named, serve_each};
pub use replayed_requests::Replays;
pub use spares::stand_in;
