use crate::bytes::{bytes_of, text_of};
use crate::links::link_of;
use crate::moments::number_in;
use ak_base::{HostKey, List, SessionKey, Text, cut};
use ak_client_wire::{Wire, WireEnd};
use ak_http_wires::{HttpWire, request_text};
use ak_io::End;
use ak_links::{MemoryDial, MemoryLink};
use ak_messages::{Envelope, Request, method_of};
use ak_wire::{read_request, write_reply};
use cases_lines::Unread;
use std::alloc::Global;

/// `asks HOST-NAME METHOD SESSION STEP BASE BODY`: the request as it goes over HTTP. Its key is 32 letters `a`.
pub fn asks(alloc: Global, rest: &str) -> Result<String, Unread> {
    let (host_name, rest) = cut(rest, " ").ok_or(Unread::Bad)?;
    let request = request_in(alloc, rest)?;
    let text = request_text(alloc, host_name, &request)?;
    text_of(alloc, text.as_str().as_bytes())
}

/// `calls DIAL-FAILS LINK-FAILS ROOM METHOD BYTES | BYTES ..`: what the calls of a wire answer, one for each of the answers, and
/// what it counts then. The calls of its dial and those of each of its links that are to fail are listed as `0,2`, or `-` for
/// none, and each link has room for so many bytes.
pub fn calls(alloc: Global, rest: &str) -> Result<String, Unread> {
    let (dial_fails, rest) = cut(rest, " ").ok_or(Unread::Bad)?;
    let (link_fails, rest) = cut(rest, " ").ok_or(Unread::Bad)?;
    let (room, rest) = number_in(rest)?;
    let (method, answers) = cut(rest, " ").ok_or(Unread::Bad)?;
    let links = links_with(alloc, link_fails, room, answers)?;
    let dial = MemoryDial::new(links, numbers_of(alloc, dial_fails)?);
    let mut wire = HttpWire::to(alloc, dial, Text::of(alloc, "h")?);
    let request = request_in(alloc, format!(in alloc; "{method} 10 0 0 {{}}")?.as_str())?;
    let mut told = String::new(alloc);
    for _ in answers.split(" | ") {
        told.push_str(called(alloc, &mut wire, &request)?.as_str())?;
        told.push_str(" | ")?;
    }
    told.push_str(counted(alloc, &wire)?.as_str())?;
    Ok(told)
}

/// A link for each of the answers.
fn links_with(
    alloc: Global,
    fails: &str,
    room: u64,
    answers: &str,
) -> Result<List<MemoryLink>, Unread> {
    let mut links = List::new(alloc);
    for answer in answers.split(" | ") {
        let bytes = bytes_of(alloc, answer)?;
        let fails = numbers_of(alloc, fails)?;
        links.push(link_of(alloc, bytes.as_slice(), room, fails)?)?;
    }
    Ok(links)
}

/// What one call answers.
fn called<W: Wire>(alloc: Global, wire: &mut W, request: &Request) -> Result<String, Unread> {
    match wire.call(request) {
        Ok(reply) => {
            let status = reply.status;
            let body = write_reply(alloc, &reply)?;
            let body = body.as_str();
            Ok(format!(in alloc; "{status} {body}")?)
        }
        Err(WireEnd::Failed) => Ok(String::from_str(alloc, "failed")?),
        Err(WireEnd::BadReply) => Ok(String::from_str(alloc, "bad")?),
        Err(WireEnd::Memory) => Err(Unread::Ended),
    }
}

/// What a wire counts, and the status of what the reply of its last call said.
fn counted<W: Wire>(alloc: Global, wire: &W) -> Result<String, Unread> {
    let faults = wire.faults();
    let bad = wire.bad();
    let silent = wire.silent();
    let status = match wire.last() {
        Some(said) => said.status,
        None => 0,
    };
    Ok(format!(in alloc; "faults {faults} bad {bad} silent {silent} last {status}")?)
}

/// `METHOD SESSION STEP BASE BODY`.
fn request_in(alloc: Global, words: &str) -> Result<Request, Unread> {
    let (method, words) = cut(words, " ").ok_or(Unread::Bad)?;
    let method = method_of(method).ok_or(Unread::Bad)?;
    let (envelope, body) = envelope_in(words)?;
    match read_request(alloc, envelope, method, body.as_bytes()) {
        Ok(request) => Ok(request),
        Err(_) => Err(Unread::Bad),
    }
}

fn envelope_in(words: &str) -> Result<(Envelope, &str), Unread> {
    let (session, words) = number_in(words)?;
    let (step, words) = number_in(words)?;
    let (base, body) = cut(words, " ").ok_or(Unread::Bad)?;
    let envelope = Envelope {
        host: HostKey::of("aaaaaaaaaaaaaaaaaaaaaaaaaaaaaaaa").ok_or(Unread::Bad)?,
        session: SessionKey(session),
        step,
        base: base_of(base)?,
    };
    Ok((envelope, body))
}

fn base_of(word: &str) -> Result<i64, Unread> {
    match word.parse::<i64>() {
        Ok(base) => Ok(base),
        Err(_) => Err(Unread::Bad),
    }
}

/// The numbers of a list, as `0,2`, or `-` for none.
fn numbers_of(alloc: Global, list: &str) -> Result<List<u64>, Unread> {
    let mut numbers = List::new(alloc);
    if list == "-" {
        return Ok(numbers);
    }
    for word in list.split(",") {
        match word.parse::<u64>() {
            Ok(number) => numbers.push(number)?,
            Err(_) => return Err(Unread::Bad),
        }
    }
    Ok(numbers)
}
