use crate::call_faults::fault_text;
use crate::calls::done;
use crate::sessions::Session;
use ak_base::Text;
use ak_edit::DeskFault;
use ak_keep::{Keeper, Lookup};
use ak_notes::{Added, NewNote, NoteEdit, add_note, edit_note};
use cases_lines::{Unread, listed, natural_at, number_at, texts_at};
use serde_json::Value;
use std::alloc::Global;

/// `add-note [AT, WORD, TYPE, DECK, GUID, FIELDS, TAGS]`.
pub fn add_by(alloc: Global, session: &mut Session, arguments: &Value) -> Result<String, Unread> {
    if session.keeper.marked() || !session.keeper.held() {
        return Err(Unread::Bad);
    }
    let at = number_at(arguments, 0)?;
    let new = new_note_at(alloc, arguments)?;
    added(
        alloc,
        add_note(&mut session.keeper, &mut session.steps, &new, at),
    )
}

/// The note that the arguments give from the second place on.
fn new_note_at(alloc: Global, arguments: &Value) -> Result<NewNote, Unread> {
    let chance = natural_at(arguments, 1)?;
    let note_type = number_at(arguments, 2)?;
    let deck = number_at(arguments, 3)?;
    let guid = guid_at(alloc, arguments)?;
    let fields = texts_at(alloc, arguments, 5)?;
    let tags = texts_at(alloc, arguments, 6)?;
    Ok(NewNote {
        note_type,
        deck,
        guid,
        fields,
        tags,
        chance,
    })
}

/// The text at the fifth place, none if it is null.
fn guid_at(alloc: Global, arguments: &Value) -> Result<Option<Text>, Unread> {
    match arguments.get(4) {
        Some(Value::Null) => Ok(None),
        Some(value) => {
            let guid = value.as_str().ok_or(Unread::Bad)?;
            Ok(Some(Text::of(alloc, guid)?))
        },
        None => Err(Unread::Bad),
    }
}

/// `added`, the note's id and those of its cards, or why the call was refused.
fn added(alloc: Global, answer: Result<Added, DeskFault>) -> Result<String, Unread> {
    match answer {
        Ok(added) => added_text(alloc, &added),
        Err(fault) => fault_text(alloc, fault),
    }
}

/// `added`, the note's id and those of its cards.
fn added_text(alloc: Global, added: &Added) -> Result<String, Unread> {
    let note = added.note;
    let cards = listed(alloc, added.cards.as_slice())?;
    Ok(format!(in alloc; "added {note} {cards}")?)
}

/// `edit-note [AT, NOTE, FIELDS, TAGS]`.
pub fn edit_by(alloc: Global, session: &mut Session, arguments: &Value) -> Result<String, Unread> {
    if session.keeper.marked() || !session.keeper.held() {
        return Err(Unread::Bad);
    }
    let at = number_at(arguments, 0)?;
    let given = note_edit_at(alloc, arguments)?;
    done(
        alloc,
        edit_note(&mut session.keeper, &mut session.steps, &given, at),
    )
}

/// The texts that the arguments give a note from the first place on.
fn note_edit_at(alloc: Global, arguments: &Value) -> Result<NoteEdit, Unread> {
    let note = number_at(arguments, 1)?;
    let fields = texts_at(alloc, arguments, 2)?;
    let tags = texts_at(alloc, arguments, 3)?;
    Ok(NoteEdit { note, fields, tags })
}
