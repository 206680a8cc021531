// The notes of one type as a file of CSV: read into a collection, and written out of one, over any keeper, source and sink.
// Nothing here knows of the program's words.
#![tactic(auto)]

mod exports;
mod guids;
mod import_faults;
mod imports;
mod inputs;
mod note_file_laws;
mod places;
mod rules;

pub use exports::{ExportFault, export_notes};
pub use import_faults::ImportFault;
pub use imports::import_notes;
pub use note_file_laws::{exported_notes_return, exported_records_break_no_rule};
pub use places::ImportPlace;
