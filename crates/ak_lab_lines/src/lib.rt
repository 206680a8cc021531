// The lines of a lab script, read: what each says. And the texts that the lab prints of what they name.
#![tactic(auto)]

mod lab_faults;
mod lab_lines;
mod lab_texts;
mod laws;
mod words;

pub use lab_faults::LabLineFault;
pub use lab_lines::{Direction, LabLine, Shown, Side, read_lab_line};
pub use lab_texts::{
    direction_word, write_counts, write_ending, write_no_device, write_no_request, write_requests,
    write_status,
};
pub use laws::{a_line_is_said_so, a_said_line_is_read};
