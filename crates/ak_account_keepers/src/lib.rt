// The accounts of a server, opened: the file that lists them is read, and each gets the keeper that is made for its file.
#![tactic(auto)]

mod accounts;
mod files;
mod makers;
mod memory_makers;
mod openings;

pub use accounts::{OpenFault, open_accounts};
pub use makers::MakeKeeper;
pub use memory_makers::MemoryMaker;
