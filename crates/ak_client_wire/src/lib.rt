// The wire of a device: what a call of it makes of the log of the server that it leads to, how often a request is tried,
// and the forms of the replies of a sync.
#![tactic(auto)]

mod asks;
mod forms;
mod said;
mod tries;
mod wires;

pub use asks::{Unanswered, ask, granted_in, in_form};
pub use forms::{Form, is_moment};
pub use said::said_of;
pub use tries::try_thrice;
pub use wires::{MetaSaid, Said, Wire, WireEnd};
