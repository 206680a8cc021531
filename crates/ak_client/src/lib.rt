// A sync from the device's side, over a keeper, a wire and a clock: it exchanges what the two sides lack, and commits only
// after its finish was answered.
#![tactic(auto)]

mod greetings;
mod outcomes;
mod states;
mod sync_laws;
mod syncs;
mod unsent;

pub use ak_exchange::Ids;
pub use greetings::{second_of, test_clocks, test_rows};
pub use outcomes::{Outcome, outcome_of};
pub use states::{Checked, Exchanged, Greeted, Hello, Pulled, Pushed, Started};
pub use sync_laws::{lost_finishes_heal, syncs_may_go_on};
pub use syncs::sync_over;
