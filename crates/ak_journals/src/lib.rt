// A journal over a disk: payloads, each on the disk before its commit answers, which a crash at any moment leaves
// whole: those that were kept, or the one under way too.
#![tactic(auto)]

mod faults;
mod journals;
mod laws;
mod openings;
mod reads;
mod steps;

pub use faults::DiskFault;
pub use journals::Journal;
pub use laws::{no_image_is_damaged, what_is_opened_was_kept_or_under_way};
pub use openings::{JournalFault, Opened, open};
