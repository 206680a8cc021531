// Runs of lines, whatever the lines say: how a line stops, how a run ends, and what is printed of both. The desk and the
// lab each have a loop of their own over it, since they hold what their lines work on in different ways.
#![tactic(auto)]

mod answer_pieces;
mod came_prints;
mod command_ends;
mod line_prints;
mod line_stops;
mod line_texts;

pub use came_prints::print_came;
pub use command_ends::{CommandEnd, refuse_command};
pub use line_prints::{LinePrint, as_lines};
pub use line_stops::{LineStop, line_stop, refusal_stop, stop_by};
pub use line_texts::{is_skipped_line, text_of};
