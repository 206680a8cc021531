// The messages of sync protocol 10 in this project's profile: what a client asks, and what a server answers.
#![tactic(auto)]

mod laws;
mod methods;
mod replies;
mod requests;

pub use laws::{methods_are_read, names_are_of_methods};
pub use methods::{Method, method_of};
pub use replies::{Give, MetaReply, Reply, SanityReply, Word};
pub use requests::{
    Ask, Changes, Chunk, Envelope, GraveIds, MOST_ENTRIES, Newer, Request, SanityCounts, Whole,
};
