// A disk as one file: what a read gives, what a crash may leave of it, and one in memory that shows its images.
#![tactic(auto)]

mod disks;
mod files;
mod laws;
mod logs;
mod memory;

pub use disks::Disk;
pub use files::{part, rest};
pub use laws::{a_picked_image_may_be_left, what_is_read_may_be_left};
pub use memory::MemoryDisk;
