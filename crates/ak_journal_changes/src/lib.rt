// What a commit touched of a collection, as the change that its payload tells.
#![tactic(auto)]

mod laws;
mod touched;

pub use laws::the_change_makes_what_is_held;
pub use touched::change_of;
