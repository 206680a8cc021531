use crate::bytes::bytes_of;
use crate::fails::fails;
use crate::fronts::{cuts, fronts};
use crate::links::{ROOM, end_of, link_of, told, told_written};
use crate::moments::{moment_in, moment_of, number_in};
use crate::wires::{asks, calls};
use ak_base::{HostKey, List, Text};
use ak_memory::MemoryKeeper;
use ak_server::Server;
use cases_accounts::empty_keeper;
use cases_lines::{Answers, Unread};
use std::alloc::Global;

/// A server of two accounts, whose host keys are 32 letters `a` and 32 letters `b`.
#[derive(Drop)]
pub struct Served {
    server: Server<MemoryKeeper>,
}

impl Served {
    /// A server without accounts.
    pub fn new(alloc: Global) -> Served {
        Served {
            server: Server::new(alloc),
        }
    }

    /// `fresh MOMENT`: a server of two accounts that were opened at a moment.
    fn start(&mut self, alloc: Global, rest: &str) -> Result<String, Unread> {
        self.server = fresh(alloc, rest)?;
        Ok(String::from_str(alloc, "ok")?)
    }

    /// `serve MOMENT BYTES`.
    fn serve(&mut self, alloc: Global, rest: &str) -> Result<String, Unread> {
        let (moment, rest) = moment_in(rest)?;
        let bytes = bytes_of(alloc, rest)?;
        let mut link = link_of(alloc, bytes.as_slice(), ROOM, List::new(alloc))?;
        let end = end_of(alloc, &mut self.server, moment, &mut link)?;
        told(alloc, end, &mut link)
    }

    /// `answer MOMENT BYTES`: the same, but for what is left.
    fn answer_alone(&mut self, alloc: Global, rest: &str) -> Result<String, Unread> {
        let (moment, rest) = moment_in(rest)?;
        let bytes = bytes_of(alloc, rest)?;
        let mut link = link_of(alloc, bytes.as_slice(), ROOM, List::new(alloc))?;
        let end = end_of(alloc, &mut self.server, moment, &mut link)?;
        told_written(alloc, end, &link)
    }

    /// `room ROOM MOMENT BYTES`: the same as `serve`, with room for so many bytes.
    fn room(&mut self, alloc: Global, rest: &str) -> Result<String, Unread> {
        let (room, rest) = number_in(rest)?;
        let (moment, rest) = moment_in(rest)?;
        let bytes = bytes_of(alloc, rest)?;
        let mut link = link_of(alloc, bytes.as_slice(), room, List::new(alloc))?;
        let end = end_of(alloc, &mut self.server, moment, &mut link)?;
        told(alloc, end, &mut link)
    }
}

impl Answers for Served {
    fn answer(&mut self, alloc: Global, word: &str, rest: &str) -> Result<String, Unread> {
        match word {
            "fresh" => self.start(alloc, rest),
            "serve" => self.serve(alloc, rest),
            "answer" => self.answer_alone(alloc, rest),
            "room" => self.room(alloc, rest),
            "fronts" => fronts(alloc, &mut self.server, rest),
            "cuts" => cuts(alloc, &mut self.server, rest),
            "fails" => fails(alloc, &mut self.server, rest),
            "asks" => asks(alloc, rest),
            "calls" => calls(alloc, rest),
            _ => Err(Unread::Bad),
        }
    }
}

fn fresh(alloc: Global, moment: &str) -> Result<Server<MemoryKeeper>, Unread> {
    let mut server = Server::new(alloc);
    add(
        alloc,
        &mut server,
        moment,
        "aaaaaaaaaaaaaaaaaaaaaaaaaaaaaaaa",
    )?;
    add(
        alloc,
        &mut server,
        moment,
        "bbbbbbbbbbbbbbbbbbbbbbbbbbbbbbbb",
    )?;
    Ok(server)
}

fn add(
    alloc: Global,
    server: &mut Server<MemoryKeeper>,
    moment: &str,
    host: &str,
) -> Result<(), Unread> {
    let host_key = HostKey::of(host).ok_or(Unread::Bad)?;
    let name = Text::of(alloc, host)?;
    let keeper = empty_keeper(alloc, moment_of(moment)?)?;
    match server.add(name, host_key, keeper) {
        Ok(()) => Ok(()),
        Err(_) => Err(Unread::Ended),
    }
}
