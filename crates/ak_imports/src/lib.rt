// Notes that come from elsewhere: what a record of one is, and how records are taken.
#![tactic(auto)]

mod exports;
mod guids;
mod import_laws;
mod imports;
mod made_rows;
mod own_tests;
mod records;
mod same_notes;
mod works;

pub use exports::notes_of;
pub use import_laws::{imports_are_admitted, new_guids_are_added};
pub use imports::{Import, Imported, NotesFault, put_notes};
pub use records::Record;
