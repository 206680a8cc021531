use crate::faults::failed;
use ak_base::{Card, Options};
use ak_keep::{
    KeepFault, Lookup, card_at, deck_at, deck_of_card, note_at, options_of_card, options_of_deck,
    type_of_note,
};
use cases_lines::Unread;
use std::alloc::Global;

/// `type-of NOTE`, `deck-of CARD`, `options-of CARD` and `options-of-deck DECK`: an id, or `none`.
pub fn related<L: Lookup>(
    alloc: Global,
    keeper: &mut L,
    word: &str,
    rest: &str,
) -> Result<String, Unread> {
    let id = rest.parse::<i64>().ok().ok_or(Unread::Bad)?;
    let found = match word {
        "type-of" => type_id(keeper, id),
        "deck-of" => deck_id(keeper, id),
        "options-of" => options_id(keeper, id),
        _ => options_id_of_deck(keeper, id),
    };
    told(alloc, found)
}

fn told(alloc: Global, found: Result<Option<i64>, KeepFault>) -> Result<String, Unread> {
    match found {
        Ok(Some(id)) => Ok(format!(in alloc; "{id}")?),
        Ok(None) => Ok(String::from_str(alloc, "none")?),
        Err(fault) => failed(alloc, fault),
    }
}

/// The id of the type of a note.
fn type_id<R: Lookup>(from: &mut R, id: i64) -> Result<Option<i64>, KeepFault> {
    match note_at(from, id)? {
        Some(note) => match type_of_note(from, &note)? {
            Some(found) => Ok(Some(found.id)),
            None => Ok(None),
        },
        None => Ok(None),
    }
}

/// The id of the deck of a card.
fn deck_id<R: Lookup>(from: &mut R, id: i64) -> Result<Option<i64>, KeepFault> {
    match card_at(from, id)? {
        Some(card) => match deck_of_card(from, &card)? {
            Some(deck) => Ok(Some(deck.id)),
            None => Ok(None),
        },
        None => Ok(None),
    }
}

/// The id of the options of a card.
fn options_id<R: Lookup>(from: &mut R, id: i64) -> Result<Option<i64>, KeepFault> {
    match card_at(from, id)? {
        Some(card) => options_of(from, &card),
        None => Ok(None),
    }
}

fn options_of<R: Lookup>(from: &mut R, card: &Card) -> Result<Option<i64>, KeepFault> {
    let options = options_of_card(from, card)?;
    Ok(id_of(options))
}

fn id_of(options: Option<Options>) -> Option<i64> {
    match options {
        Some(options) => Some(options.id),
        None => None,
    }
}

/// The id of the options of a deck.
fn options_id_of_deck<R: Lookup>(from: &mut R, id: i64) -> Result<Option<i64>, KeepFault> {
    match deck_at(from, id)? {
        Some(deck) => {
            let options = options_of_deck(from, &deck)?;
            Ok(id_of(options))
        },
        None => Ok(None),
    }
}
