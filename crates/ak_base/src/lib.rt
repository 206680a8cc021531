// The values of a collection: its rows, their names and order, and which of them are in range.
#![tactic(auto)]

mod cards;
mod columns;
mod contents;
mod cuts;
mod days;
mod decimals;
mod decks;
mod errors;
mod graves;
mod heads;
mod keys;
mod laws;
mod limits;
mod lists;
mod names;
mod note_types;
mod notes;
mod option_groups;
mod paths;
mod rests;
mod reviews;
mod rows;
mod texts;

pub use cards::Card;
pub use cuts::cut;
pub use days::{DAY_SECONDS, Day};
pub use decimals::{is_decimal, read_number};
pub use decks::{Count, Deck};
pub use errors::{Memory, RowFault};
pub use graves::Grave;
pub use heads::{Conf, Head, Tag, is_within};
pub use keys::{HostKey, SessionKey, are_lower_hex};
pub use laws::{
    a_decimal_is_read, codes_of_graves, graves_and_rows, name_and_grave, opening_options_pass,
    parts_are_cut_at_colons, parts_make_the_path, same_but_stamp_and_usn_is_equality,
    same_content_is_equality,
};
pub use limits::{
    EXTRA_BYTES, FIRST_DAY, LAST_CLOCK_MOMENT, LAST_COUNT, LAST_DAY, LAST_HEAD_USN, LAST_I64,
    LAST_ID, LAST_MOMENT, LAST_ORD, LAST_STAMP, LAST_USN, LONGEST_STEP, NAME_BYTES, REST_BYTES,
    TAGS_BYTES, TEXT_BYTES,
};
pub use lists::{List, copy_each};
pub use names::{Name, Table};
pub use note_types::{CardTemplate, FieldDef, NoteType};
pub use notes::Note;
pub use option_groups::Options;
pub use paths::{is_in_subtree, next_part, path_parts};
pub use rests::{OfConf, OfDeck, OfField, OfNoteType, OfOptions, OfTemplate, Owner, Rest};
pub use reviews::Review;
pub use rows::Row;
pub use texts::{Text, copy_texts};
