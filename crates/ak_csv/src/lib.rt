// Notes as records of CSV: read from a text, and written as one. A record is a guid, the tags with one space between, and then a
// column for each field; there is no header line. Nothing here knows of a collection.
#![tactic(auto)]

mod csv_faults;
mod csv_laws;
mod note_records;
mod readings;
mod record_rules;
mod rows;

pub use csv_faults::CsvFault;
pub use csv_laws::{texts_have_one_reading, written_notes_are_read_again};
pub use note_records::write_record;
pub use readings::read_records;
pub use record_rules::RecordRules;
