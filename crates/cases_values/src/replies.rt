use crate::message_fields::give_fields;
use crate::message_words::{body_text, method_in, wire_fault};
use ak_base::{cut, read_number};
use ak_wire::{Method, Reply, WireFault, Word, read_reply, write_reply};
use cases_lines::Unread;
use std::alloc::Global;

/// `reply METHOD STATUS BODY`: the body of the reply that the body is read as, or its first fault.
pub fn reply(alloc: Global, rest: &str) -> Result<String, Unread> {
    let (method, words) = method_in(rest)?;
    let (status, body) = status_in(words)?;
    written_again(alloc, method, status, body)
}

/// The status that the words begin with, and what follows it.
pub fn status_in(words: &str) -> Result<(u16, &str), Unread> {
    let (status, rest) = cut(words, " ").ok_or(Unread::Bad)?;
    let number = read_number(status, 65_535).ok_or(Unread::Bad)?;
    Ok((number as u16, rest))
}

fn written_again(alloc: Global, method: Method, status: u16, body: &str) -> Result<String, Unread> {
    match read_reply(alloc, method, status, body.as_bytes()) {
        Ok(reply) => written(alloc, &reply),
        Err(fault) => wire_fault(alloc, &fault),
    }
}

fn written(alloc: Global, reply: &Reply) -> Result<String, Unread> {
    let text = write_reply(alloc, reply)?;
    body_text(alloc, &text)
}

/// The fields of the reply that the body is read as, or its first fault.
pub fn reply_fields(
    alloc: Global,
    method: Method,
    status: u16,
    body: &str,
) -> Result<String, Unread> {
    match read_reply(alloc, method, status, body.as_bytes()) {
        Ok(reply) => told(alloc, &reply),
        Err(fault) => wire_fault(alloc, &fault),
    }
}

fn told(alloc: Global, reply: &Reply) -> Result<String, Unread> {
    let (status, seen) = (reply.status, reply.seen);
    let word = word_name(reply.word);
    let mut made = format!(in alloc; "status {status} word {word} seen {seen} ")?;
    made.push_str(give_fields(alloc, &reply.give)?.as_str())?;
    Ok(made)
}

/// The word's own name, which is not the text that stands in a body.
fn word_name(word: Word) -> &'static str {
    match word {
        Word::Ok => "Ok",
        Word::Key => "Key",
        Word::Base => "Base",
        Word::NoSession => "NoSession",
        Word::Step => "Step",
        Word::Usn => "Usn",
        Word::Sequence => "Sequence",
        Word::Rows => "Rows",
        Word::Row => "Row",
        Word::Newer => "Newer",
        Word::Keeper => "Keeper",
        Word::Memory => "Memory",
        Word::Head => "Head",
        Word::Route => "Route",
        Word::Method => "Method",
        Word::Length => "Length",
        Word::Large => "Large",
        Word::Compressed => "Compressed",
        Word::Headers => "Headers",
        Word::Cut => "Cut",
        Word::Body => "Body",
    }
}

/// Why the bytes are not the body of a reply, if they are not.
pub fn reply_fault(alloc: Global, method: Method, status: u16, body: &[u8]) -> Option<WireFault> {
    match read_reply(alloc, method, status, body) {
        Ok(_) => None,
        Err(fault) => Some(fault),
    }
}
