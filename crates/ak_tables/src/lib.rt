// A keeper that stores its collection in tables: it keeps a copy in memory, and writes what was touched at each commit.
#![tactic(auto)]

mod keepers;
mod laws;
mod loads;
mod tables;
mod touched;

pub use keepers::TableKeeper;
pub use laws::touched_names_suffice;
pub use tables::{OpenTables, StoredCollection, Tables};
pub use touched::Touched;
