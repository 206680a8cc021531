// Searches: patterns of texts, and the expression that a search text stands for.
#![tactic(auto)]

mod answers;
mod at_once;
mod boxed_types;
mod by_note;
mod checks;
mod earliest;
mod evaluator;
mod faults;
mod holds;
mod ids;
mod kept_types;
mod laws;
mod lexemes;
mod matching;
mod numbers;
mod parses;
mod patterns;
mod prefixes;
mod readers;
mod related;
mod searches;
mod source_chars;
mod states;
mod terms;
mod texts;
mod tokens;

pub use faults::SearchFault;
pub use laws::{
    all_hit, both_hit, both_meet, either_hits, either_meets, faults_are_of_the_text, least_fault,
    no_fault_with_tree, none_meets, one_tree, other_hits, tree_without_fault, walked,
};
pub use matching::{matches, matches_spaced};
pub use parses::{Expr, parse};
pub use patterns::PatternItem;
pub use searches::{Search, find};
pub use terms::{Comparison, Property, State, Term};
pub use tokens::Piece;
