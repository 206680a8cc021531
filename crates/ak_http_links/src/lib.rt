// One request over one connection: it is read from the bytes that came, served, and answered by the bytes that are
// written.
#![tactic(auto)]

mod bodies;
mod laws;
mod link_ends;
mod requests;
mod sends;
mod serving;

pub use laws::{bytes_ask_one_thing, bytes_ask_or_are_refused};
pub use link_ends::LinkEnd;
pub use requests::{RequestFault, receive_request};
pub use serving::serve_link;
