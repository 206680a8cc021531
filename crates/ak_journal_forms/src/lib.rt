// The bytes of a journal: frames of payloads behind gates. What a crash between two syncs can make of the last of them.
#![tactic(auto)]

mod frames;
mod gates;
mod laws;

pub use frames::{FormFault, Frames, read_frames};
pub use gates::{OPEN, SHUT, closed_frame, read_gate};
pub use laws::{
    a_gate_opens_the_payload_behind_it, a_lone_byte_is_no_open_gate,
    a_payload_stands_behind_those_before_it, a_write_behind_a_gate_leaves_it_shut,
    frames_stand_before_what_follows, one_list_of_payloads, whole_files_are_not_damaged,
};
