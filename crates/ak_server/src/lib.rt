// The server of a sync: its accounts, each a keeper with at most one live session, and what it makes of requests.
#![tactic(auto)]

mod accounts;
mod link_laws;
mod servers;
mod serving;

pub use accounts::Account;
pub use link_laws::served_links_stay;
pub use servers::{AddFault, Server};
