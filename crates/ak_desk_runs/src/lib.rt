// The commands `init` and `desk`, over any keeper, clock, chance, filters, input and output: how each ends, what it
// leaves and what it writes. Nothing here knows of the program's words.
#![tactic(auto)]

mod desk_runs;
mod inits;
mod obeyed_lines;
mod progress;
mod turn_takings;

pub use desk_runs::run_desk;
pub use inits::init_collection;
