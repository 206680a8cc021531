// The ends to the outside over the system: links, doors and dials over TCP, and files by name. They tell nothing of
// what they hold: the network and the disk are trusted.
#![tactic(auto)]

mod buffers;
mod deadlines;
mod faults;
mod file_sources;
mod retries;
mod tcp_dials;
mod tcp_doors;
mod tcp_links;

pub use file_sources::FileSource;
pub use tcp_dials::TcpDial;
pub use tcp_doors::TcpDoor;
pub use tcp_links::TcpLink;
