// What both sides of a sync do with rows and messages: the rows that a side gives, in parts, the rows that it takes, and
// whether what came is in its ranges.
#![tactic(auto)]

mod chunks;
mod counts;
mod heads;
mod lists;
mod methods;
mod parts;
mod ranges;
mod reads;
mod takes;
mod takings;
mod uploads;
mod walks;

pub use chunks::next_rows;
pub use counts::{counts_of, same_counts};
pub use heads::{head_of, held_numbers, newer_of};
pub use lists::append_page;
pub use methods::asked_method;
pub use parts::{changes_of, chunk_of, grave_ids};
pub use ranges::{
    are_changes_in_range, are_graves_in_range, are_rows_checked, is_conf_in_range, is_id,
    is_tag_name,
};
pub use reads::{wanted_changes, wanted_graves, wanted_in_chunks, wanted_tags};
pub use takings::{take_changes, take_chunk_rows, take_given_graves};
pub use uploads::{tag_names, uploaded_rows};
pub use walks::{WantedWalk, rows_from};
