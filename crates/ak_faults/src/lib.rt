// Why a call of the outside fails: a count of its faults, and for what stands in its place in memory, the
// list of the calls that are to fail.
#![tactic(auto)]

mod counters;

pub use counters::Calls;
