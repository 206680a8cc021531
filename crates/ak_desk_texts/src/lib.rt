// What the desk prints: the answers to its lines, and the texts of refused ones.
#![tactic(auto)]

mod answers;
mod fault_texts;
mod line_refusals;
mod pieces;

pub use answers::{DeskAnswer, write_answer, write_check_fault};
pub use fault_texts::{table_text, write_desk_fault, write_line_fault, write_refusal};
pub use line_refusals::LineRefusal;
