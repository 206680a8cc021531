// The head of an HTTP request, from bytes: the first test that it fails, or what it asks and where its body begins.
#![tactic(auto)]

mod checks;
mod fields;
mod heads;
mod laws;
mod parses;
mod routes;

pub use fields::length_in;
pub use heads::{Head, HeadFault, MOST_HEAD_BYTES, read_byte, read_head};
pub use laws::{
    bytes_are_read_in_one_way, heads_are_unique, heads_ask_or_are_refused, routes_are_named,
    tests_come_in_order, values_have_one_form,
};
pub use parses::MOST_FIELDS;
