// The pages of a card: its front and its back, as its note type's template makes them of its note.
#![tactic(auto)]

mod card_faces;
mod card_pages;
mod shown_cards;

pub use card_pages::card_page;
