// A wire that is one of two kinds, as a program chooses by its words.
#![tactic(auto)]

mod either_wires;

pub use either_wires::EitherWire;
