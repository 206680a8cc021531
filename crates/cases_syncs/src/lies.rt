use ak_base::{Card, Row, Tag, Text};
use ak_json::write_text;
use ak_wire::{Give, Method, Reply, Whole, method_of, read_reply};
use cases_lines::{Unread, card_at, number_at, text_at};
use serde_json::Value;
use std::alloc::Global;

/// What a wire answers that lies: none, if it answers what can't be read.
pub fn lie_at(alloc: Global, arguments: &Value) -> Result<Option<Reply>, Unread> {
    let method = method_of(text_at(arguments, 6)?).ok_or(Unread::Bad)?;
    let mut lie = reply_at(alloc, arguments, method)?;
    if let Some(reply) = &mut lie {
        add_part(alloc, reply, arguments)?;
    }
    Ok(lie)
}

fn reply_at(alloc: Global, arguments: &Value, method: Method) -> Result<Option<Reply>, Unread> {
    let status = number_at(arguments, 7)?;
    if status < 0 || status > 65_535 {
        return Err(Unread::Bad);
    }
    match arguments.get(8) {
        Some(body) => read(alloc, method, status as u16, body),
        None => Err(Unread::Bad),
    }
}

fn read(alloc: Global, method: Method, status: u16, body: &Value) -> Result<Option<Reply>, Unread> {
    let text = write_text(alloc, body)?;
    match read_reply(alloc, method, status, text.as_str().as_bytes()) {
        Ok(reply) => Ok(Some(reply)),
        Err(_) => Ok(None),
    }
}

/// Adds the part to the chunk or the whole collection, if there is one. No body can bring it, since its reader would refuse it.
fn add_part(alloc: Global, reply: &mut Reply, arguments: &Value) -> Result<(), Unread> {
    if arguments.get(9).is_none() {
        return Ok(());
    }
    match &mut reply.give {
        Give::Chunk(chunk) => Ok(chunk.cards.push(forged_card(alloc, arguments)?)?),
        Give::Whole(whole) => put_in_whole(alloc, whole, arguments),
        _ => Err(Unread::Bad),
    }
}

fn put_in_whole(alloc: Global, whole: &mut Whole, arguments: &Value) -> Result<(), Unread> {
    match text_at(arguments, 9) {
        Ok("tag") => add_tag(alloc, whole, arguments),
        Ok(word) => put_number(whole, word, number_at(arguments, 10)?),
        Err(_) => add_card(alloc, whole, arguments),
    }
}

/// `CARD, USN`: one more card after all rows.
fn add_card(alloc: Global, whole: &mut Whole, arguments: &Value) -> Result<(), Unread> {
    let card = forged_card(alloc, arguments)?;
    Ok(whole.rows.push(Row::Card(card))?)
}

fn forged_card(alloc: Global, arguments: &Value) -> Result<Card, Unread> {
    let mut card = card_at(alloc, arguments, 9)?;
    card.usn = number_at(arguments, 10)?;
    Ok(card)
}

/// `"tag", USN, NAME`: one more tag after all others.
fn add_tag(alloc: Global, whole: &mut Whole, arguments: &Value) -> Result<(), Unread> {
    let usn = number_at(arguments, 10)?;
    let name = Text::of(alloc, text_at(arguments, 11)?)?;
    Ok(whole.tags.push(Tag { name, usn })?)
}

/// A number in the place of the collection's own.
fn put_number(whole: &mut Whole, word: &str, number: i64) -> Result<(), Unread> {
    match word {
        "crt" => whole.crt = number,
        "mod" => whole.moment = number,
        "scm" => whole.schema = number,
        "usn" => whole.usn = number,
        "spread" => whole.conf.new_spread = number,
        _ => return Err(Unread::Bad),
    }
    Ok(())
}
