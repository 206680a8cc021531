// What a commit changed of a collection, as the payload of a frame of a journal: one compact JSON text, both ways.
#![tactic(auto)]

mod apart;
mod changes;
mod entries;
mod faults;
mod heads;
mod laws;
mod listed;
mod payloads;
mod values;

pub use changes::Change;
pub use faults::ChangeFault;
pub use laws::{
    a_change_says_what_is_held, changes_keep_a_collection, each_payload_leads_on,
    one_change_is_read, payloads_lead_to_one_collection,
};
pub use payloads::{read_change, write_change};
