// The words of a server program.
#![tactic(auto)]

mod commands;
mod words;

pub use words::{ServerWords, WordsFault, server_words};
