use crate::requests::{forge, host_of, serve};
use crate::views::{all, view, view_head};
use ak_base::{HostKey, Text, cut};
use ak_keep::{Keeper, Lookup};
use ak_memory::MemoryKeeper;
use ak_server::{AddFault, Server};
use cases_keepers::{answer_of, calls_of};
use cases_lines::Unread;
use std::alloc::Global;
use std::mem;

/// A server, and the keeper that the next account is given.
#[derive(Drop)]
pub struct Hosts {
    keeper: MemoryKeeper,
    server: Server<MemoryKeeper>,
}

impl Hosts {
    /// An empty keeper, and a server without accounts.
    pub fn new(alloc: Global) -> Hosts {
        Hosts {
            keeper: MemoryKeeper::new(alloc),
            server: Server::new(alloc),
        }
    }

    /// The answer to a command of the server.
    pub fn answer(&mut self, alloc: Global, word: &str, rest: &str) -> Result<String, Unread> {
        match word {
            "keeper" => self.keep(alloc, rest),
            "add" => self.add(alloc, rest),
            "faults" => self.faults(alloc, rest),
            "fail-at" => self.fail_at(alloc, rest),
            "serve" => serve(alloc, &mut self.server, rest),
            "forge" => forge(alloc, &mut self.server, rest),
            "view" => view(alloc, &mut self.server, rest),
            "view-head" => view_head(alloc, &mut self.server, rest),
            "all" => all(alloc, &mut self.server, rest),
            _ => Err(Unread::Bad),
        }
    }

    /// `keeper COMMAND`: a command of the keeper that is not an account's yet.
    fn keep(&mut self, alloc: Global, rest: &str) -> Result<String, Unread> {
        match cut(rest, " ") {
            Some((word, rest)) => answer_of(alloc, &mut self.keeper, word, rest),
            None => answer_of(alloc, &mut self.keeper, rest, ""),
        }
    }

    /// `add NAME HOST`: an account of the keeper, which is empty afterwards. A refused one is handed back.
    fn add(&mut self, alloc: Global, rest: &str) -> Result<String, Unread> {
        let (name, host) = cut(rest, " ").ok_or(Unread::Bad)?;
        let host = host_of(host)?;
        if self.keeper.marked() {
            return Err(Unread::Bad);
        }
        let name = Text::of(alloc, name)?;
        let keeper = mem::replace(&mut self.keeper, MemoryKeeper::new(alloc));
        match self.server.add(name, host, keeper) {
            Ok(()) => Ok(String::from_str(alloc, "ok")?),
            Err((fault, keeper)) => {
                self.keeper = keeper;
                refused(alloc, fault)
            },
        }
    }

    /// `faults HOST`.
    fn faults(&self, alloc: Global, rest: &str) -> Result<String, Unread> {
        match self.server.faults(host_of(rest)?) {
            Some(faults) => Ok(format!(in alloc; "{faults}")?),
            None => Ok(String::from_str(alloc, "none")?),
        }
    }

    /// `fail-at HOST [CALL, ..]`.
    fn fail_at(&mut self, alloc: Global, rest: &str) -> Result<String, Unread> {
        let (host, calls) = cut(rest, " ").ok_or(Unread::Bad)?;
        let host = host_of(host)?;
        let calls = calls_of(alloc, calls)?;
        if self.server.fail_at(host, calls) {
            Ok(String::from_str(alloc, "ok")?)
        } else {
            Ok(String::from_str(alloc, "none")?)
        }
    }
}

fn refused(alloc: Global, fault: AddFault) -> Result<String, Unread> {
    match fault {
        AddFault::KeyHeld => Ok(String::from_str(alloc, "key held")?),
        AddFault::Empty => Ok(String::from_str(alloc, "empty")?),
        AddFault::Memory => Err(Unread::Ended),
    }
}
