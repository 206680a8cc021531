use crate::Unread;
use ak_base::{Card, List, Note, NoteType, Options, Row, Table, Text};
use ak_json::read_row;
use serde_json::Value;
use std::alloc::Global;

/// The text at a place of the arguments.
pub fn text_at(arguments: &Value, place: usize) -> Result<&str, Unread> {
    match arguments.get(place) {
        Some(value) => value.as_str().ok_or(Unread::Bad),
        None => Err(Unread::Bad),
    }
}

/// The whole number at a place of the arguments.
pub fn number_at(arguments: &Value, place: usize) -> Result<i64, Unread> {
    match arguments.get(place) {
        Some(value) => value.as_i64().ok_or(Unread::Bad),
        None => Err(Unread::Bad),
    }
}

/// The natural number at a place of the arguments.
pub fn natural_at(arguments: &Value, place: usize) -> Result<u64, Unread> {
    match arguments.get(place) {
        Some(value) => value.as_u64().ok_or(Unread::Bad),
        None => Err(Unread::Bad),
    }
}

/// The list of texts at a place of the arguments.
pub fn texts_at(alloc: Global, arguments: &Value, place: usize) -> Result<List<Text>, Unread> {
    let values = list_at(arguments, place)?;
    let mut texts = List::new(alloc);
    for value in values {
        match value.as_str() {
            Some(text) => texts.push(Text::of(alloc, text)?)?,
            None => return Err(Unread::Bad),
        }
    }
    Ok(texts)
}

/// The list of words at a place of the arguments.
pub fn words_at(alloc: Global, arguments: &Value, place: usize) -> Result<Vec<String>, Unread> {
    let mut words = Vec::new(alloc);
    for value in list_at(arguments, place)? {
        let word = value.as_str().ok_or(Unread::Bad)?;
        words.push(String::from_str(alloc, word)?)?;
    }
    Ok(words)
}

/// The list at a place of the arguments.
pub fn list_at(arguments: &Value, place: usize) -> Result<&[Value], Unread> {
    match arguments.get(place) {
        Some(value) => match value.as_array() {
            Some(values) => Ok(values.as_slice()),
            None => Err(Unread::Bad),
        },
        None => Err(Unread::Bad),
    }
}

/// The table of a name.
pub fn table_of(name: &str) -> Result<Table, Unread> {
    match name {
        "note" => Ok(Table::Note),
        "card" => Ok(Table::Card),
        "review" => Ok(Table::Review),
        "type" => Ok(Table::NoteType),
        "deck" => Ok(Table::Deck),
        "options" => Ok(Table::Options),
        "note-grave" => Ok(Table::NoteGrave),
        "card-grave" => Ok(Table::CardGrave),
        "deck-grave" => Ok(Table::DeckGrave),
        _ => Err(Unread::Bad),
    }
}

/// The row of a table at a place of the arguments.
pub fn row_at(alloc: Global, arguments: &Value, place: usize, table: Table) -> Result<Row, Unread> {
    match arguments.get(place) {
        Some(value) => match read_row(alloc, table, value) {
            Ok(row) => Ok(row),
            Err(_) => Err(Unread::Bad),
        },
        None => Err(Unread::Bad),
    }
}

/// The card at a place of the arguments.
pub fn card_at(alloc: Global, arguments: &Value, place: usize) -> Result<Card, Unread> {
    match row_at(alloc, arguments, place, Table::Card)? {
        Row::Card(card) => Ok(card),
        _ => Err(Unread::Bad),
    }
}

/// The options at a place of the arguments.
pub fn options_at(alloc: Global, arguments: &Value, place: usize) -> Result<Options, Unread> {
    match row_at(alloc, arguments, place, Table::Options)? {
        Row::Options(options) => Ok(options),
        _ => Err(Unread::Bad),
    }
}

/// The note at a place of the arguments.
pub fn note_at(alloc: Global, arguments: &Value, place: usize) -> Result<Note, Unread> {
    match row_at(alloc, arguments, place, Table::Note)? {
        Row::Note(note) => Ok(note),
        _ => Err(Unread::Bad),
    }
}

/// The note type at a place of the arguments.
pub fn note_type_at(alloc: Global, arguments: &Value, place: usize) -> Result<NoteType, Unread> {
    match row_at(alloc, arguments, place, Table::NoteType)? {
        Row::NoteType(note_type) => Ok(note_type),
        _ => Err(Unread::Bad),
    }
}
