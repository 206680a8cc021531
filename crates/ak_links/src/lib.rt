// Connections: one of them, the door by which they come, the dial by which they are made, and sources that have
// names; each as a trait with its meaning, and in memory.
#![tactic(auto)]

mod memory_dials;
mod memory_doors;
mod memory_files;
mod memory_links;
mod traits;

pub use memory_dials::MemoryDial;
pub use memory_doors::MemoryDoor;
pub use memory_files::MemoryFile;
pub use memory_links::MemoryLink;
pub use traits::{Dial, Door, Link, Named};
