// A collection that is made of a seed, a day of work on a device that has it, and the device's sync: the work that a collection of that
// size costs, with nothing read and nothing stored.
#![tactic(auto)]

mod day_laws;
mod days;
mod made_servers;
mod makes;
mod measures;

pub use day_laws::{lines_of_the_largest_sizes, words_of_the_day_follow};
pub use makes::make;
pub use measures::{Measured, measure};
