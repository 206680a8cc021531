// A disk over a file of the system, which is locked for this program and never a database of SQLite.
#![tactic(auto)]

mod file_disks;
mod openings;
mod retries;

pub use file_disks::FileDisk;
