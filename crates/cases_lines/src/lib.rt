// What the programs of cases have in common: the lines of their input, the arguments of a command, and faults in words.
#![tactic(auto)]

mod arguments;
mod faults;
mod lines;
mod words;

pub use arguments::{
    card_at, list_at, natural_at, note_at, note_type_at, number_at, options_at, row_at, table_of,
    text_at, texts_at, words_at,
};
pub use faults::Unread;
pub use lines::{Answers, print_answers};
pub use words::{
    at_place, bytes_text, json_fault, listed, named, quoted, row_fault, row_text, truth, value_text,
};
