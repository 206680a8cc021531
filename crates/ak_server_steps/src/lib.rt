// What accepted requests of a session do to its tables, which a keeper holds, and what they are given.
#![tactic(auto)]

mod answers;
mod closings;
mod sanity;
mod wholes;

pub use answers::{Answered, Basis, answer};
pub use closings::{finish, upload};
pub use wholes::{read_whole, whole_of};
