use crate::sides::{answer_of_link, answer_of_source, told};
use ak_base::Text;
use ak_io::{End, Failed};
use ak_links::{Dial, Door, Named};
use ak_sockets::{FileSource, TcpDial, TcpDoor, TcpLink};
use cases_lines::{Answers, Unread};
use std::alloc::Global;
use std::rt::HostRuntime;

/// A free port of the loopback.
const FREE_PORT: &str = "127.0.0.1:0";

/// A door, both sides of one connection while they are there, and a file.
#[derive(Drop)]
pub struct Sockets<'a> {
    rt: &'a HostRuntime,
    door: TcpDoor<'a, HostRuntime>,
    client: Option<TcpLink<'a, HostRuntime>>,
    server: Option<TcpLink<'a, HostRuntime>>,
    file: FileSource<'a, HostRuntime>,
}

impl<'a> Sockets<'a> {
    /// No side yet.
    pub fn new(rt: &'a HostRuntime) -> Sockets<'a> {
        Sockets {
            rt,
            door: TcpDoor::new(rt),
            client: None,
            server: None,
            file: FileSource::new(rt),
        }
    }

    /// The address of the door, as a text.
    fn door_address(&self, alloc: Global) -> Result<String, Unread> {
        match self.door.address() {
            Some(address) => Ok(format!(in alloc; "{address}")?),
            None => Err(Unread::Bad),
        }
    }

    /// Listens at an address.
    fn listen(&mut self, alloc: Global, address: &str) -> Result<String, Unread> {
        let answer = match address {
            "" => self.door.listen(FREE_PORT),
            "same" => {
                let same = self.door_address(alloc)?;
                self.door.listen(same.as_str())
            }
            _ => self.door.listen(address),
        };
        told(alloc, answer)
    }

    /// Makes the client's side.
    fn dial(&mut self, alloc: Global, address: &str) -> Result<String, Unread> {
        let address = match address {
            "" => self.door_address(alloc)?,
            _ => String::from_str(alloc, address)?,
        };
        let mut dial = TcpDial::to(self.rt, Text::from(address));
        match dial.dial() {
            Ok(link) => {
                self.client = Some(link);
                told(alloc, Ok(()))
            }
            Err(Failed) => told::<()>(alloc, Err(Failed)),
        }
    }

    /// Takes the next connection as the server's side.
    fn accept(&mut self, alloc: Global) -> Result<String, Unread> {
        match self.door.accept() {
            Ok(Some(link)) => {
                self.server = Some(link);
                told(alloc, Ok(()))
            }
            Ok(None) => Ok(String::from_str(alloc, "ended")?),
            Err(Failed) => told::<()>(alloc, Err(Failed)),
        }
    }

    /// Gives the server's side back.
    fn give_back(&mut self, alloc: Global) -> Result<String, Unread> {
        match self.server.take() {
            Some(link) => {
                self.door.give_back(link);
                told(alloc, Ok(()))
            }
            None => Err(Unread::Bad),
        }
    }

    /// Lets the client's side go.
    fn hang_up(&mut self, alloc: Global) -> Result<String, Unread> {
        self.client = None;
        told(alloc, Ok(()))
    }

    /// What the door tells of itself.
    fn door_text(&self, alloc: Global) -> Result<String, Unread> {
        let (links, faults, ended) = (self.door.accepted(), self.door.faults(), self.door.ended());
        Ok(format!(in alloc; "{links} links, {faults} faults, ended: {ended}")?)
    }

    /// The answer to a command of one side.
    fn answer_of_side(&mut self, alloc: Global, side: &str, rest: &str) -> Result<String, Unread> {
        let (word, rest) = rest.split_once(' ').unwrap_or((rest, ""));
        match (side, &mut self.client, &mut self.server) {
            ("client", Some(client), _) => answer_of_link(alloc, client, word, rest),
            ("server", _, Some(server)) => answer_of_link(alloc, server, word, rest),
            ("file", _, _) => answer_of_source(alloc, &mut self.file, word, rest),
            _ => Err(Unread::Bad),
        }
    }
}

impl Answers for Sockets<'_> {
    fn answer(&mut self, alloc: Global, word: &str, rest: &str) -> Result<String, Unread> {
        match word {
            "listen" => self.listen(alloc, rest),
            "dial" => self.dial(alloc, rest),
            "accept" => self.accept(alloc),
            "give-back" => self.give_back(alloc),
            "hang-up" => self.hang_up(alloc),
            "door" => self.door_text(alloc),
            "open" => {
                let answer = self.file.open(rest);
                told(alloc, answer)
            }
            _ => self.answer_of_side(alloc, word, rest),
        }
    }
}
