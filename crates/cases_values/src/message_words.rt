use ak_base::{Table, Text, cut};
use ak_wire::{Method, WireFault, method_of};
use cases_lines::{Unread, json_fault, named};
use std::alloc::Global;

/// The method that the words begin with, and what follows it.
pub fn method_in(words: &str) -> Result<(Method, &str), Unread> {
    let (name, rest) = cut(words, " ").ok_or(Unread::Bad)?;
    let method = method_of(name).ok_or(Unread::Bad)?;
    Ok((method, rest))
}

/// The text of a body.
pub fn body_text(alloc: Global, text: &Text) -> Result<String, Unread> {
    Ok(String::from_str(alloc, text.as_str())?)
}

/// Why a body is no message, in words.
pub fn wire_fault(alloc: Global, fault: &WireFault) -> Result<String, Unread> {
    match fault {
        WireFault::Json(fault) => json_fault(alloc, fault),
        WireFault::TooManyRows(entries) => Ok(format!(in alloc; "too many rows {entries}")?),
        WireFault::RowOrder(table) => named(alloc, "row order ", table_name(*table)),
        WireFault::Memory => Ok(String::from_str(alloc, "memory")?),
    }
}

fn table_name(table: Table) -> &'static str {
    match table {
        Table::Note => "note",
        Table::Card => "card",
        Table::Review => "review",
        Table::NoteType => "type",
        Table::Deck => "deck",
        Table::Options => "options",
        Table::NoteGrave => "note-grave",
        Table::CardGrave => "card-grave",
        Table::DeckGrave => "deck-grave",
    }
}
