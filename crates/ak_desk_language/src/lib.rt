// The lines by which a learner works at the desk, read: what each says, or why it says nothing.
#![tactic(auto)]

mod any_lines;
mod contents;
mod desk_lines;
mod filter_plans;
mod laws;
mod line_faults;
mod numbers;
mod verbs;

pub use any_lines::{AnyLine, read_line};
pub use desk_lines::{DeskLine, is_skipped};
pub use laws::one_line_is_said;
pub use line_faults::LineFault;
pub use numbers::{next_number, number_in};
