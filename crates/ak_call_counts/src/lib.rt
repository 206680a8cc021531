// What a wire counts of its calls: how many were made, how many failed, in all and in a row, and what the last reply said.
#![tactic(auto)]

mod call_counts;

pub use call_counts::CallCounts;
