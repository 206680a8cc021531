// A server in memory with one account that holds no rows yet, and its clock, for the programs of cases that sync.
#![tactic(auto)]

mod empty_accounts;
mod moments;

pub use empty_accounts::{empty_account, empty_keeper, host_key};
pub use moments::moment_at;
