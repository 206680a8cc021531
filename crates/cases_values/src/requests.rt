use crate::message_fields::ask_fields;
use crate::message_words::{body_text, method_in, wire_fault};
use ak_base::{HostKey, SessionKey};
use ak_wire::{Envelope, Method, Request, WireFault, read_request, write_request};
use cases_lines::Unread;
use std::alloc::Global;

/// `request METHOD BODY`: the body of the request that the body is read as, or its first fault.
pub fn request(alloc: Global, rest: &str) -> Result<String, Unread> {
    let (method, body) = method_in(rest)?;
    written_again(alloc, envelope()?, method, body)
}

fn written_again(
    alloc: Global,
    envelope: Envelope,
    method: Method,
    body: &str,
) -> Result<String, Unread> {
    match read_request(alloc, envelope, method, body.as_bytes()) {
        Ok(request) => written(alloc, &request),
        Err(fault) => wire_fault(alloc, &fault),
    }
}

fn written(alloc: Global, request: &Request) -> Result<String, Unread> {
    let text = write_request(alloc, request)?;
    body_text(alloc, &text)
}

/// The fields of the request that the body is read as, or its first fault.
pub fn request_fields(alloc: Global, method: Method, body: &str) -> Result<String, Unread> {
    match read_request(alloc, envelope()?, method, body.as_bytes()) {
        Ok(request) => ask_fields(alloc, &request.ask),
        Err(fault) => wire_fault(alloc, &fault),
    }
}

/// Why the bytes are not the body of a request, if they are not.
pub fn request_fault(
    alloc: Global,
    method: Method,
    body: &[u8],
) -> Result<Option<WireFault>, Unread> {
    let envelope = envelope()?;
    match read_request(alloc, envelope, method, body) {
        Ok(_) => Ok(None),
        Err(fault) => Ok(Some(fault)),
    }
}

/// The envelope of each request: a body says nothing of it.
fn envelope() -> Result<Envelope, Unread> {
    let host = HostKey::of("0123456789abcdef0123456789abcdef").ok_or(Unread::Bad)?;
    Ok(Envelope {
        host,
        session: SessionKey(1),
        step: 2,
        base: 3,
    })
}
