// Templates: from a text to its tree, and from the tree and the fields of a note to a page.
#![tactic(auto)]

mod builders;
mod clozes;
mod faces;
mod faults;
mod filters;
mod laws;
mod pages;
mod parses;
mod showing;
mod steps;
mod tags;
mod trims;

pub use ak_filters::strip;
pub use clozes::{LAST_NUMBER, cloze_numbers, show_clozes};
pub use faces::{Face, PageFault, Pair, value_of};
pub use faults::TemplateFault;
pub use laws::{
    a_cloze_is_found, a_tag_is_read, clozes_end_first, faults_are_of_the_text, faults_are_tags,
    no_fault_with_tree, one_tree, page_by_steps, parts_are_the_field, plain_fields_stay,
    plain_text_is_words, tree_without_fault, turns_by_occurrences, unasked_filters_may_go,
    unclosed_sections_go_on, written_is_read,
};
pub use pages::render;
pub use parses::parse;
pub use showing::shows;
pub use steps::{Step, Template, ends_in_cloze};
