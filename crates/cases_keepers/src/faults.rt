use ak_base::{Name, Table};
use ak_keep::KeepFault;
use cases_lines::Unread;
use std::alloc::Global;

/// `ok`, or `failed` where the keeper refused.
pub fn done(alloc: Global, answer: Result<(), KeepFault>) -> Result<String, Unread> {
    match answer {
        Ok(()) => Ok(String::from_str(alloc, "ok")?),
        Err(fault) => failed(alloc, fault),
    }
}

/// `failed`, where the keeper refused.
pub fn failed(alloc: Global, fault: KeepFault) -> Result<String, Unread> {
    match fault {
        KeepFault::Failed => Ok(String::from_str(alloc, "failed")?),
        KeepFault::Memory => Err(Unread::Ended),
    }
}

/// A name in words, or `none`.
pub fn name_text(alloc: Global, name: Option<Name>) -> Result<String, Unread> {
    match name {
        None => Ok(String::from_str(alloc, "none")?),
        Some(name) => {
            let word = word_of(name.table);
            let id = name.id;
            Ok(format!(in alloc; "{word} {id}")?)
        },
    }
}

fn word_of(table: Table) -> &'static str {
    match table {
        Table::Note => "note",
        Table::Card => "card",
        Table::Review => "review",
        Table::NoteType => "type",
        Table::Deck => "deck",
        Table::Options => "options",
        Table::NoteGrave => "note-grave",
        Table::CardGrave => "card-grave",
        Table::DeckGrave => "deck-grave",
    }
}
