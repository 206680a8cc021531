// The editing calls on groups of options, and on the settings of a collection.
#![tactic(auto)]

mod option_deletions;
mod option_groups;
mod option_laws;
mod spreads;

pub use option_deletions::{DeleteOptions, delete_options};
pub use option_groups::{add_options, set_options};
pub use option_laws::{
    additions_are_admitted, changes_are_admitted, deletions_are_admitted, spreads_are_admitted,
};
pub use spreads::set_spread;
