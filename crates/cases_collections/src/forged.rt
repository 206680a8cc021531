use ak_base::{Conf, Row, Tag, Text};
use ak_wire::{Ask, Changes, Chunk, GraveIds, Newer, Request, Whole};
use cases_lines::{Unread, number_at, row_at, table_of, text_at};
use serde_json::Value;
use std::alloc::Global;

/// The request with a part that no body can bring, since its reader would refuse it.
pub fn with_part(alloc: Global, request: Request, part: &Value) -> Result<Request, Unread> {
    let mut request = request;
    put_part(alloc, &mut request.ask, part)?;
    Ok(request)
}

fn put_part(alloc: Global, ask: &mut Ask, part: &Value) -> Result<(), Unread> {
    match ask {
        Ask::ApplyGraves(ids) => put_card_id(ids, part),
        Ask::ApplyChanges(changes) => put_in_changes(alloc, changes, part),
        Ask::ApplyChunk(chunk) => put_in_chunk(alloc, chunk, part),
        Ask::Upload(whole) => put_in_whole(alloc, whole, part),
        _ => Err(Unread::Bad),
    }
}

/// `["card-id",ID]`: one more card's id.
fn put_card_id(ids: &mut GraveIds, part: &Value) -> Result<(), Unread> {
    let id = number_at(part, 1)?;
    match text_at(part, 0)? {
        "card-id" => Ok(ids.cards.push(id)?),
        _ => Err(Unread::Bad),
    }
}

/// A tag, a number, or a row of a note type, a deck or a group of options.
fn put_in_changes(alloc: Global, changes: &mut Changes, part: &Value) -> Result<(), Unread> {
    match text_at(part, 0)? {
        "tag" => {
            let name = Text::of(alloc, text_at(part, 1)?)?;
            Ok(changes.tags.push(name)?)
        },
        "type" | "deck" | "options" => put_changed(alloc, changes, part),
        word => put_in_newer(&mut changes.newer, word, number_at(part, 1)?),
    }
}

fn put_changed(alloc: Global, changes: &mut Changes, part: &Value) -> Result<(), Unread> {
    match row_in(alloc, part)? {
        Row::NoteType(note_type) => Ok(changes.models.push(note_type)?),
        Row::Deck(deck) => Ok(changes.decks.push(deck)?),
        Row::Options(options) => Ok(changes.options.push(options)?),
        _ => Err(Unread::Bad),
    }
}

fn put_in_newer(newer: &mut Option<Newer>, word: &str, number: i64) -> Result<(), Unread> {
    match newer {
        Some(newer) => match word {
            "crt" => {
                newer.crt = number;
                Ok(())
            },
            _ => put_in_conf(&mut newer.conf, word, number),
        },
        None => Err(Unread::Bad),
    }
}

/// `["spread",NUMBER]`, `["collapse",NUMBER]`, `["next",NUMBER]` or `["unburied",NUMBER]`.
fn put_in_conf(conf: &mut Conf, word: &str, number: i64) -> Result<(), Unread> {
    match word {
        "spread" => conf.new_spread = number,
        "collapse" => conf.collapse = number,
        "next" => conf.next_pos = number,
        "unburied" => conf.last_unburied = number,
        _ => return Err(Unread::Bad),
    }
    Ok(())
}

/// One more review, card or note.
fn put_in_chunk(alloc: Global, chunk: &mut Chunk, part: &Value) -> Result<(), Unread> {
    match row_in(alloc, part)? {
        Row::Review(review) => Ok(chunk.reviews.push(review)?),
        Row::Card(card) => Ok(chunk.cards.push(card)?),
        Row::Note(note) => Ok(chunk.notes.push(note)?),
        _ => Err(Unread::Bad),
    }
}

/// A tag, a number, or a row of any table.
fn put_in_whole(alloc: Global, whole: &mut Whole, part: &Value) -> Result<(), Unread> {
    match text_at(part, 0)? {
        "tag" => put_tag(alloc, whole, text_at(part, 1)?),
        "crt" => {
            whole.crt = number_at(part, 1)?;
            Ok(())
        },
        "spread" | "collapse" | "next" | "unburied" => {
            put_in_conf(&mut whole.conf, text_at(part, 0)?, number_at(part, 1)?)
        },
        _ => put_row(alloc, whole, part),
    }
}

/// `["tag",NAME]`: one more tag.
fn put_tag(alloc: Global, whole: &mut Whole, name: &str) -> Result<(), Unread> {
    let name = Text::of(alloc, name)?;
    Ok(whole.tags.push(Tag { name, usn: 0 })?)
}

fn put_row(alloc: Global, whole: &mut Whole, part: &Value) -> Result<(), Unread> {
    let row = row_in(alloc, part)?;
    Ok(whole.rows.push(row)?)
}

/// `[TABLE,JSON,USN]`: the row with this usn, which may be out of its range.
fn row_in(alloc: Global, part: &Value) -> Result<Row, Unread> {
    let usn = number_at(part, 2)?;
    let mut row = row_at(alloc, part, 1, table_of(text_at(part, 0)?)?)?;
    row.set_usn(usn);
    Ok(row)
}
