use crate::calls::{added, done, moment_at};
use crate::option_calls::{numbers_behind, truth_at};
use crate::sessions::Session;
use ak_base::{List, NoteType};
use ak_keep::{Keeper, Lookup};
use ak_types::{DeleteNoteType, TypeEdit, add_note_type, delete_note_type, edit_note_type};
use cases_lines::{Unread, list_at, note_type_at, number_at};
use serde_json::Value;
use std::alloc::Global;

/// `add-type [AT, TYPE, ID, STAMP, USN, SORTF]`.
pub fn add_by(alloc: Global, session: &mut Session, arguments: &Value) -> Result<String, Unread> {
    if session.keeper.marked() || !session.keeper.held() {
        return Err(Unread::Bad);
    }
    let at = number_at(arguments, 0)?;
    let note_type = type_at(alloc, arguments)?;
    added(
        alloc,
        add_note_type(&mut session.keeper, &mut session.steps, note_type, at),
    )
}

/// `edit-type [AT, TYPE, ID, STAMP, USN, SORTF, FROM-FIELDS, FROM-TEMPLATES, ALLOW]`.
pub fn edit_by(alloc: Global, session: &mut Session, arguments: &Value) -> Result<String, Unread> {
    if session.keeper.marked() || !session.keeper.held() {
        return Err(Unread::Bad);
    }
    let at = number_at(arguments, 0)?;
    let given = type_edit_at(alloc, arguments)?;
    done(
        alloc,
        edit_note_type(&mut session.keeper, &mut session.steps, &given, at),
    )
}

/// The note type that the arguments give in place of another one. What is dear to drop is read last.
fn type_edit_at(alloc: Global, arguments: &Value) -> Result<TypeEdit, Unread> {
    let allow = truth_at(arguments, 8)?;
    let from_fields = places_at(alloc, arguments, 6)?;
    let from_templates = places_at(alloc, arguments, 7)?;
    let note_type = type_at(alloc, arguments)?;
    Ok(TypeEdit {
        note_type,
        from_fields,
        from_templates,
        allow,
    })
}

/// `delete-type [AT, TYPE, ALLOW]`.
pub fn delete_by(
    alloc: Global,
    session: &mut Session,
    arguments: &Value,
) -> Result<String, Unread> {
    if session.keeper.marked() || !session.keeper.held() {
        return Err(Unread::Bad);
    }
    let at = moment_at(arguments)?;
    let note_type = number_at(arguments, 1)?;
    let allow = truth_at(arguments, 2)?;
    let wanted = DeleteNoteType { note_type, allow };
    done(
        alloc,
        delete_note_type(&mut session.keeper, &mut session.steps, &wanted, at),
    )
}

/// The type at the second place, with the id, stamp, usn and place of the sort field that follow it: a type
/// that is read is in its ranges, and these four may be out of them.
fn type_at(alloc: Global, arguments: &Value) -> Result<NoteType, Unread> {
    let [id, stamp, usn, sortf] = numbers_behind(arguments)?;
    let mut note_type = note_type_at(alloc, arguments, 1)?;
    note_type.id = id;
    note_type.stamp = stamp;
    note_type.usn = usn;
    note_type.sortf = sortf;
    Ok(note_type)
}

/// The list at a place of the arguments of places of old fields or templates, null for a new one.
fn places_at(alloc: Global, arguments: &Value, place: usize) -> Result<List<Option<u16>>, Unread> {
    let mut places = List::new(alloc);
    for value in list_at(arguments, place)? {
        places.push(place_of(value)?)?;
    }
    Ok(places)
}

/// A place of an old field or template, None for null.
fn place_of(value: &Value) -> Result<Option<u16>, Unread> {
    match value {
        Value::Null => Ok(None),
        other => match other.as_u64() {
            Some(place) if place < 65_536 => Ok(Some(place as u16)),
            _ => Err(Unread::Bad),
        },
    }
}
