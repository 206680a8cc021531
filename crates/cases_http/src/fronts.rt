ghost use Rattle.ak_io.specs.Arrivals.{IsClockMoment};

use crate::bytes::bytes_of;
use crate::links::{ROOM, end_of, link_of};
use crate::moments::moment_in;
use ak_base::{List, cut};
use ak_memory::MemoryKeeper;
use ak_server::Server;
use cases_lines::Unread;
use std::alloc::Global;

/// How many fronts of bytes were answered with each word.
#[derive(Clone, Copy)]
struct Counts {
    head: u64,
    cut: u64,
    body: u64,
    other: u64,
}

/// `fronts MOMENT BYTES`: of the fronts of the bytes, of each length below the whole, how many are refused by which word.
pub fn fronts(
    alloc: Global,
    server: &mut Server<MemoryKeeper>,
    rest: &str,
) -> Result<String, Unread> {
    let (moment, rest) = moment_in(rest)?;
    let bytes = bytes_of(alloc, rest)?;
    let bytes = bytes.as_slice();
    let mut counts = none();
    for length in 0..bytes.len() {
        counts = with_front(alloc, server, moment, &bytes[..length], counts)?;
    }
    counts_text(alloc, counts)
}

/// `cuts MOMENT METHOD BODY`: the same of the fronts of a body, each with its own length in the head, and then with the
/// length of the whole.
pub fn cuts(
    alloc: Global,
    server: &mut Server<MemoryKeeper>,
    rest: &str,
) -> Result<String, Unread> {
    let (moment, rest) = moment_in(rest)?;
    let (method, body) = cut(rest, " ").ok_or(Unread::Bad)?;
    let own = cut_counts(alloc, server, moment, method, body.as_bytes(), false)?;
    let whole = cut_counts(alloc, server, moment, method, body.as_bytes(), true)?;
    let own = counts_text(alloc, own)?;
    let whole = counts_text(alloc, whole)?;
    Ok(format!(in alloc; "own {own} whole {whole}")?)
}

fn cut_counts(
    alloc: Global,
    server: &mut Server<MemoryKeeper>,
    moment: i64,
    method: &str,
    body: &[u8],
    is_whole: bool,
) -> Result<Counts, Unread>
    requires { IsClockMoment moment }
{
    let mut counts = none();
    for length in 0..body.len() {
        let told = if is_whole { body.len() } else { length };
        let mut bytes = head_of(alloc, method, told)?;
        bytes.extend_from_slice(&body[..length])?;
        counts = with_front(alloc, server, moment, bytes.as_slice(), counts)?;
    }
    Ok(counts)
}

/// A head of the first account, with this method and length.
fn head_of(alloc: Global, method: &str, length: usize) -> Result<Vec<u8>, Unread> {
    let key = "aaaaaaaaaaaaaaaaaaaaaaaaaaaaaaaa";
    let line = format!(in alloc; "POST /sync/{method} HTTP/1.1\r\nX-Anki-Key: {key}\r\n")?;
    let fields = "X-Anki-Session: 000000000000000a\r\nX-Anki-Step: 1\r\nX-Anki-Base: 0\r\n";
    let size = format!(in alloc; "Content-Length: {length}\r\n\r\n")?;
    let mut bytes = Vec::from_slice(alloc, line.as_bytes())?;
    bytes.extend_from_slice(fields.as_bytes())?;
    bytes.extend_from_slice(size.as_bytes())?;
    Ok(bytes)
}

fn none() -> Counts {
    Counts {
        head: 0,
        cut: 0,
        body: 0,
        other: 0,
    }
}

fn with_front(
    alloc: Global,
    server: &mut Server<MemoryKeeper>,
    moment: i64,
    front: &[u8],
    counts: Counts,
) -> Result<Counts, Unread>
    requires { IsClockMoment moment }
{
    let mut link = link_of(alloc, front, ROOM, List::new(alloc))?;
    let _end = end_of(alloc, server, moment, &mut link)?;
    let mut counts = counts;
    let written = link.bytes();
    if written.ends_with(b"\"word\":\"head\"}") {
        counts.head = counts.head.saturating_add(1);
    } else if written.ends_with(b"\"word\":\"cut\"}") {
        counts.cut = counts.cut.saturating_add(1);
    } else if written.ends_with(b"\"word\":\"body\"}") {
        counts.body = counts.body.saturating_add(1);
    } else {
        counts.other = counts.other.saturating_add(1);
    }
    Ok(counts)
}

fn counts_text(alloc: Global, counts: Counts) -> Result<String, Unread> {
    let (head, cut, body, other) = (counts.head, counts.cut, counts.body, counts.other);
    Ok(format!(in alloc; "head {head} cut {cut} body {body} other {other}")?)
}
