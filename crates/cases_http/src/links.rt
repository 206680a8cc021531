ghost use Rattle.ak_io.specs.Arrivals.{IsClockMoment};

use crate::bytes::text_of;
use crate::moments::clock_at;
use ak_base::List;
use ak_http_links::{LinkEnd, serve_link};
use ak_io::{Failed, Source};
use ak_links::MemoryLink;
use ak_memory::MemoryKeeper;
use ak_server::Server;
use cases_lines::Unread;
use std::alloc::Global;

/// The room for what is written, where a line tells none.
pub const ROOM: u64 = 1_000_000;

/// Serves a link at a moment.
pub fn end_of(
    alloc: Global,
    server: &mut Server<MemoryKeeper>,
    moment: i64,
    link: &mut MemoryLink,
) -> Result<LinkEnd, Unread>
    requires { IsClockMoment moment }
{
    let mut clock = clock_at(alloc, moment)?;
    Ok(serve_link(alloc, link, server, &mut clock))
}

/// A link on which these bytes came.
pub fn link_of(
    alloc: Global,
    bytes: &[u8],
    room: u64,
    fails: List<u64>,
) -> Result<MemoryLink, Unread> {
    let bytes = Vec::from_slice(alloc, bytes)?;
    Ok(MemoryLink::new(alloc, List::of(bytes), room, fails)?)
}

/// How the serving of a link ended, how many bytes are left, and what was written.
pub fn told(alloc: Global, end: LinkEnd, link: &mut MemoryLink) -> Result<String, Unread> {
    let end = end_text(alloc, end)?;
    let written = text_of(alloc, link.bytes())?;
    let left = left_of(link);
    Ok(format!(in alloc; "{end} left {left} {written}")?)
}

/// How the serving of a link ended, and what was written.
pub fn told_written(alloc: Global, end: LinkEnd, link: &MemoryLink) -> Result<String, Unread> {
    let end = end_text(alloc, end)?;
    let written = text_of(alloc, link.bytes())?;
    Ok(format!(in alloc; "{end} {written}")?)
}

fn end_text(alloc: Global, end: LinkEnd) -> Result<String, Unread> {
    match end {
        LinkEnd::Served(status) => Ok(format!(in alloc; "{status}")?),
        LinkEnd::Failed => Ok(String::from_str(alloc, "failed")?),
        LinkEnd::Memory => Err(Unread::Ended),
    }
}

/// How many bytes a link has still to give.
fn left_of(link: &mut MemoryLink) -> u64 {
    let mut left: u64 = 0;
    let mut piece = [0u8; 4096];
    for _ in 0..u64::MAX {
        match link.read(&mut piece) {
            Ok(0) => break,
            Ok(count) => left = left.saturating_add(count as u64),
            Err(Failed) => {}
        }
    }
    left
}
