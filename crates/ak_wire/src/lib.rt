// The bodies of the messages of a sync as JSON, read and written by one description of each object.
#![tactic(auto)]

mod bodies;
mod budgets;
mod forms;
mod keys;
mod kinds;
mod laws;
mod objects;
mod parts;
mod replies;
mod requests;
mod texts;
mod wholes;
mod wire_faults;
mod words;
mod written;

pub use ak_messages::{
    Ask, Changes, Chunk, Envelope, Give, GraveIds, MetaReply, Method, Newer, Reply, Request,
    SanityCounts, SanityReply, Whole, Word, method_of,
};
pub use laws::{
    each_body_is_read_or_refused, one_fault_is_told, one_message_is_read, replies_are_read_again,
    requests_are_read_again, what_is_read_is_not_refused,
};
pub use replies::{read_reply, write_reply};
pub use requests::{read_request, write_request};
pub use wire_faults::WireFault;
pub use words::word_text;
