// The cards of a deck that a day asks for: which, in which order, and how many.
#![tactic(auto)]

mod burials;
mod choices;
mod day_queues;
mod faults;
mod gathered;
mod homes;
mod laws;
mod limits;
mod nexts;
mod paths;
mod queues;
mod scopes;

pub use burials::{bury_list, restored_queue};
pub use day_queues::{Counts, DayQueue};
pub use faults::QueueFault;
pub use laws::{
    each_card_in_its_turn, lists_ascend, new_cards_ascend, next_ends_with_all_lists,
    no_larger_new_list, opening_options_serve, the_new_list_is_lawful,
};
pub use nexts::{Progress, next};
pub use queues::{counts, queue_of};
