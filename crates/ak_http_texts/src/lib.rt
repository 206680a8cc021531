// Replies as texts of HTTP: a head of a status line and three headers, and the JSON of the reply as its body.
#![tactic(auto)]

mod laws;
mod refusals;
mod reply_texts;

pub use laws::{refusals_are_worded, texts_are_heads_and_bodies};
pub use refusals::Refusal;
pub use reply_texts::{refusal_text, reply_text};
