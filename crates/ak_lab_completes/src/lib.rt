// How a sync of a lab ends that nothing hinders, as laws: by what both sides hold, or because memory ran out.
#![tactic(auto)]

mod lab_completeness;

pub use lab_completeness::{
    joins_stay_joinable, left_alone_syncs_complete, new_devices_begin_unhindered,
    next_syncs_begin_unhindered, next_syncs_heal, retries_heal, scripts_begin_unhindered,
    unhindered_syncs_complete, unhindered_syncs_print,
};
