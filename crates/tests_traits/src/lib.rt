// Tests of what no case can show: readers and writers that are interrupted or fail, a clock that can't be read, an input at its
// limit, filters behind boxes, and code that is generic over the keeper.
#![tactic(auto)]

#[cfg(test)]
mod callers;
#[cfg(test)]
mod clocks;
#[cfg(test)]
mod ends;
#[cfg(test)]
mod filters;
#[cfg(test)]
mod inputs;
