ghost use Rattle.ak_io.specs.Arrivals.{IsClockMoment};

use crate::bytes::bytes_of;
use crate::links::{ROOM, end_of, link_of, told_written};
use crate::moments::moment_in;
use ak_base::List;
use ak_http_links::LinkEnd;
use ak_links::MemoryLink;
use ak_memory::MemoryKeeper;
use ak_server::Server;
use cases_lines::Unread;
use std::alloc::Global;

/// `fails MOMENT BYTES`: serves the bytes on links of which the first call fails, then the second, and so on, until no call
/// failed. Each before must end as failed, with nothing written or a front of the last answer.
pub fn fails(
    alloc: Global,
    server: &mut Server<MemoryKeeper>,
    rest: &str,
) -> Result<String, Unread> {
    let (moment, rest) = moment_in(rest)?;
    let bytes = bytes_of(alloc, rest)?;
    let (whole, link) = failing(alloc, server, moment, bytes.as_slice(), u64::MAX)?;
    let answer = told_written(alloc, whole, &link)?;
    for number in 0..u64::MAX {
        let (end, tried) = failing(alloc, server, moment, bytes.as_slice(), number)?;
        match end {
            LinkEnd::Failed if link.bytes().starts_with(tried.bytes()) => {}
            LinkEnd::Served(_) if number > 0 => return Ok(format!(in alloc;
                "failed, then {answer}"
            )?),
            _ => return Ok(format!(in alloc; "call {number} of {answer}")?),
        }
    }
    Err(Unread::Ended)
}

fn failing(
    alloc: Global,
    server: &mut Server<MemoryKeeper>,
    moment: i64,
    bytes: &[u8],
    number: u64,
) -> Result<(LinkEnd, MemoryLink), Unread>
    requires { IsClockMoment moment }
{
    let mut fails = List::new(alloc);
    fails.push(number)?;
    let mut link = link_of(alloc, bytes, ROOM, fails)?;
    let end = end_of(alloc, server, moment, &mut link)?;
    Ok((end, link))
}
