// The top call of the program `anki`.
#![tactic(auto)]

mod program_commands;
mod program_runs;
mod statuses;

pub use ak_outcomes::{KEEPER_FAILED, NO_MEMORY};
pub use program_commands::ProgramCommand;
pub use program_runs::{print_usage, run};
pub use statuses::{COMMAND_REFUSED, DONE, READ_FAILED, USAGE, WRITE_FAILED};
