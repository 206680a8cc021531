// The accounts of a server, as a text lists them.
#![tactic(auto)]

mod entries;
mod listings;
mod texts;

pub use listings::{AccountsFault, ListedAccount};
pub use texts::read_accounts;
