use crate::message_words::method_in;
use crate::replies::{reply_fault, status_in};
use crate::requests::request_fault;
use ak_base::cut;
use ak_json::JsonFault;
use ak_wire::{Method, WireFault};
use cases_lines::Unread;
use std::alloc::Global;

/// What bytes are to be the body of.
#[derive(Clone, Copy)]
enum Kind {
    Request(Method),
    Reply(Method, u16),
}

/// How often the fronts of a body were read, refused as no JSON, and refused for another fault.
#[derive(Clone, Copy)]
struct Counts {
    no_json: u64,
    other: u64,
    read: u64,
}

/// `cuts request METHOD BODY` or `cuts reply METHOD STATUS BODY`: how many of the fronts of the body, of each length
/// in bytes up to the whole, are no JSON, are refused for another fault, and are read.
pub fn cuts(alloc: Global, rest: &str) -> Result<String, Unread> {
    let (kind, body) = kind_in(rest)?;
    let counts = counted(alloc, kind, body.as_bytes())?;
    let (no_json, other, read) = (counts.no_json, counts.other, counts.read);
    Ok(format!(in alloc; "no JSON {no_json} other {other} read {read}")?)
}

fn kind_in(rest: &str) -> Result<(Kind, &str), Unread> {
    let (word, words) = cut(rest, " ").ok_or(Unread::Bad)?;
    let (method, words) = method_in(words)?;
    match word {
        "request" => Ok((Kind::Request(method), words)),
        "reply" => reply_in(method, words),
        _ => Err(Unread::Bad),
    }
}

fn reply_in(method: Method, words: &str) -> Result<(Kind, &str), Unread> {
    let (status, body) = status_in(words)?;
    Ok((Kind::Reply(method, status), body))
}

fn counted(alloc: Global, kind: Kind, body: &[u8]) -> Result<Counts, Unread> {
    let mut counts = Counts {
        no_json: 0,
        other: 0,
        read: 0,
    };
    for length in 0..body.len() {
        counts = with_front(alloc, counts, kind, &body[..length])?;
    }
    with_front(alloc, counts, kind, body)
}

fn with_front(alloc: Global, counts: Counts, kind: Kind, front: &[u8]) -> Result<Counts, Unread> {
    let fault = match kind {
        Kind::Request(method) => request_fault(alloc, method, front)?,
        Kind::Reply(method, status) => reply_fault(alloc, method, status, front),
    };
    Ok(with_fault(counts, fault))
}

fn with_fault(counts: Counts, fault: Option<WireFault>) -> Counts {
    let mut counts = counts;
    match fault {
        None => counts.read = counts.read.saturating_add(1),
        Some(WireFault::Json(JsonFault::NotJson)) => {
            counts.no_json = counts.no_json.saturating_add(1);
        },
        Some(_) => counts.other = counts.other.saturating_add(1),
    }
    counts
}
