// A server that writes down what comes to it, and a wire in memory that leads to it: messages get lost, are repeated, and
// cross those of other devices, as a script says. What the server committed is read by views.
#![tactic(auto)]

mod between_laws;
mod betweens;
mod copies;
mod deliveries;
mod filled_keepers;
mod logged_servers;
mod logs;
mod loop_wires;
mod mishaps;
mod table_views;

pub use between_laws::{openings_are_told, others_may_act};
pub use betweens::{Between, NothingBetween};
pub use copies::{view_all, views_keep_the_collection};
pub use filled_keepers::keeper_with;
pub use logged_servers::LoggedServer;
pub use logs::{Entry, Log, Logged, Trouble};
pub use loop_wires::LoopWire;
pub use mishaps::{Mishap, What};
