// What a device does to its collection while it syncs, over a keeper that is marked: it takes what the server gave, gathers
// what was not sent yet, settles what it sent, and commits. Nothing here knows a wire.
#![tactic(auto)]

mod closings;
mod gatherings;
mod ids;
mod receipts;
mod settlings;

pub use closings::{commit_at, raise_moments};
pub use gatherings::{FIRST_PLACE, Gathered, graves_part, next_chunk, unsent_changes};
pub use receipts::{take_changes, take_chunk, take_graves};
pub use settlings::settle_sent;
