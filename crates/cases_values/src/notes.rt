use crate::words::cards_fault;
use ak_base::{List, NoteType, Text};
use ak_cardgen::{csum, ords_of, sort_text};
use cases_lines::{Unread, listed, note_type_at, quoted, text_at, texts_at};
use serde_json::Value;
use std::alloc::Global;

/// `ords [TYPE, FIELDS]`: the ords of the cards that a note of the type with these fields has.
pub fn ords(alloc: Global, arguments: &Value) -> Result<String, Unread> {
    let note_type = note_type_at(alloc, arguments, 0)?;
    let fields = texts_at(alloc, arguments, 1)?;
    told_ords(alloc, &note_type, &fields)
}

fn told_ords(alloc: Global, note_type: &NoteType, fields: &List<Text>) -> Result<String, Unread> {
    match ords_of(alloc, note_type, fields) {
        Ok(ords) => listed(alloc, ords.as_slice()),
        Err(fault) => cards_fault(alloc, fault),
    }
}

/// `sort [TYPE, FIELDS]`: the text that a note is sorted by.
pub fn sorted_by(alloc: Global, arguments: &Value) -> Result<String, Unread> {
    let note_type = note_type_at(alloc, arguments, 0)?;
    let fields = texts_at(alloc, arguments, 1)?;
    told_sort(alloc, &note_type, &fields)
}

fn told_sort(alloc: Global, note_type: &NoteType, fields: &List<Text>) -> Result<String, Unread> {
    let text = sort_text(alloc, note_type, fields)?;
    quoted(alloc, text.as_str())
}

/// `checksum [TEXT]`: of a note with this first field.
pub fn checksum(alloc: Global, arguments: &Value) -> Result<String, Unread> {
    let number = csum(alloc, text_at(arguments, 0)?)?;
    Ok(format!(in alloc; "{number}")?)
}
