// What a note's fields give it: its cards, the text that it is sorted by, and its checksum.
#![tactic(auto)]

mod checksums;
mod cloze_ords;
mod faces;
mod faults;
mod fronts;
mod laws;
mod ords;
mod sort_texts;

pub use checksums::csum;
pub use faces::face_of;
pub use faults::GenFault;
pub use fronts::Fronts;
pub use laws::empty_notes_have_no_cards;
pub use ords::ords_of;
pub use sort_texts::sort_text;
