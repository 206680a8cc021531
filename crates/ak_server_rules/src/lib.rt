// The machine of a server: what it remembers of an account, which requests it accepts, and the form of its replies.
// Nothing here asks a keeper.
#![tactic(auto)]

mod decisions;
mod objections;
mod replies;
mod sessions;
mod summary_laws;

pub use decisions::{Declined, refusal_of};
pub use objections::{Cause, are_checked, has_twin_rows};
pub use replies::{declined_reply, granted, meta_reply, setback_reply, unknown_key};
pub use sessions::{Kept, Session};
pub use summary_laws::summaries_serve_alike;
