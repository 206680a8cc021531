// The rows of a collection as JSON, read and written by one description of each kind of row.
#![tactic(auto)]

mod arrays;
mod cells;
mod confs;
mod decimals;
mod decks;
mod depths;
mod faults;
mod form_faults;
mod forms;
mod groups;
mod keys;
mod kinds;
mod laws;
mod members;
mod note_types;
mod objects;
mod rests;
mod rows;
mod texts;
mod versions;
mod written;

pub use cells::integers;
pub use confs::{read_conf, write_conf};
pub use decimals::{read_decimal, write_decimal};
pub use faults::JsonFault;
pub use kinds::is_number_within;
pub use laws::{
    confs_are_read_again, decimals_are_written, each_value_is_read_or_refused, one_conf_is_read,
    one_fault_is_told, one_row_is_read, option_groups_migrate, rows_are_read_again,
    what_is_read_is_in_range, what_is_read_is_not_refused, whole_numbers_are_written,
};
pub use rows::{read_row, write_row};
pub use texts::{read_text, write_text};
