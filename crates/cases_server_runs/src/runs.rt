ghost use Rattle.std.specs.Prelude.{◌≡◌, ◌<◌, length, IfOk};
ghost use Rattle.std.specs.List.{All};
ghost use Rattle.ak_io.specs.Arrivals.{IsClockMoment};

use crate::makers::maker_of;
use crate::scenes::Found;
use ak_base::List;
use ak_io::ListClock;
use ak_links::{Door, MemoryDoor, MemoryFile, MemoryLink};
use ak_memory::MemoryKeeper;
use ak_server::Server;
use ak_server_runs::serve_all;
use cases_lines::{Unread, quoted, truth};
use std::alloc::Global;
use std::str;

/// Runs a server with these words, and tells how it ended: its status, how many links came, whether the door has ended, and
/// what was written to each link that was given back. The server is handed out.
pub fn run_scene(
    alloc: Global,
    words: &[String],
    found: Found,
) -> Result<(String, Server<MemoryKeeper>), Unread> {
    let mut file = MemoryFile::new(List::of(found.file), found.file_fails);
    let mut maker = maker_of(alloc, found.keepers, found.maker_fails)?;
    let mut door = MemoryDoor::new(alloc, List::of(found.links), found.door_fails)?;
    let mut clock = clock_of(alloc, found.moments)?;
    let mut server = Server::new(alloc);
    let status = serve_all(
        alloc,
        words,
        &mut file,
        &mut door,
        &mut maker,
        &mut clock,
        &mut server,
    );
    let answer = told(alloc, status, &door)?;
    Ok((answer, server))
}

/// How a run ended.
fn told(alloc: Global, status: u8, door: &MemoryDoor) -> Result<String, Unread> {
    let accepted = door.accepted();
    let ended = truth(alloc, door.ended())?;
    let given = given_text(alloc, door.given_back())?;
    Ok(format!(in alloc; "{status} accepted {accepted} ended {ended} given [{given}]")?)
}

/// What was written to each link, as JSON texts.
fn given_text(alloc: Global, links: &[MemoryLink]) -> Result<String, Unread> {
    let mut text = String::new(alloc);
    for (place, link) in links.iter().enumerate() {
        if place > 0 {
            text.push_str(",")?;
        }
        let written = str::from_utf8(link.bytes()).ok().ok_or(Unread::Bad)?;
        text.push_str(quoted(alloc, written)?.as_str())?;
    }
    Ok(text)
}

/// A clock of these moments, in milliseconds, of which there is one at least.
fn clock_of(alloc: Global, numbers: List<u64>) -> Result<ListClock, Unread> {
    let mut moments = List::new(alloc);
    for number in numbers.as_slice() {
        moments.push(moment_of(*number)?)?;
    }
    if moments.as_slice().is_empty() {
        return Err(Unread::Bad);
    }
    Ok(ListClock::new(moments))
}

/// The moment, if a clock may answer it.
fn moment_of(number: u64) -> Result<i64, Unread>
    ensures { IfOk result IsClockMoment }
{
    if number > 4_294_967_294_999 {
        return Err(Unread::Bad);
    }
    Ok(number as i64)
}
