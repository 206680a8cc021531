// The filters of a field's text: the trait by which a page applies them, the five that every desk has, and the list that they are in.
#![tactic(auto)]

mod filters;
mod furigana;
mod hints;
mod laws;
mod lists;
mod readings;
mod strips;

pub use filters::FieldFilter;
pub use furigana::{FuriganaFilter, KanaFilter, KanjiFilter};
pub use hints::HintFilter;
pub use laws::{
    a_piece_goes, a_reading_is_shown, a_space_comes, plain_text_stays, strip_again,
    text_without_readings_stays,
};
pub use lists::drop_filter;
pub use strips::{TextFilter, is_blank, is_empty_value, strip};
