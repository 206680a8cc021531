// The commands `upload` and `download`, over any keeper, wire, clock, chance and output: how they end, what they leave and what they
// write. Nothing here knows of the program's words.
#![tactic(auto)]

mod transfer_laws;
mod transfer_runs;

pub use transfer_laws::{
    a_download_never_commits, a_printed_download_is_the_committed, a_printed_upload_is_committed,
    an_upload_commits_once, other_ends_keep_the_device,
};
pub use transfer_runs::{run_download, run_upload};
