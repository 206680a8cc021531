// A collection over a journal on a disk: a commit adds the payload of what was touched. A crash at any moment leaves what was
// committed last, or the commit under way too.
#![tactic(auto)]

mod commits;
mod folds;
mod laws;
mod openings;
mod tables;

pub use laws::{
    a_file_holds_one_collection, no_image_of_a_collection_is_damaged,
    what_is_left_now_might_have_been_left_since, what_is_opened_was_committed_or_under_way,
};
pub use openings::{JournalKeeper, open};
pub use tables::JournalTables;
