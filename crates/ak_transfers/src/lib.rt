// Whole collections between a device and its server: an upload puts the device's collection in place of the committed one,
// a download the committed one in place of the device's.
#![tactic(auto)]

mod asks;
mod device_rows;
mod downloads;
mod forms;
mod greetings;
mod uploads;

pub use downloads::download_over;
pub use uploads::upload_over;
