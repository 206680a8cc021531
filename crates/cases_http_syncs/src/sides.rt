ghost use Rattle.std.specs.Prelude.{◌≡◌, false, IfOk};
ghost use Rattle.ak_io.specs.Arrivals.{IsClockMoment};
ghost use Rattle.ak_keep.specs.Keepers.{all_known, is_marked};

use crate::devices::answer_of_device;
use crate::server_ends::ServerEnd;
use ak_base::{List, Memory, Text};
use ak_io::ListClock;
use ak_memory::MemoryKeeper;
use ak_openings::opening;
use ak_server::Server;
use ak_sync_in_memory::keeper_with;
use cases_accounts::{host_key, moment_at};
use cases_keepers::value_of;
use cases_lines::{Answers, Unread};
use std::alloc::Global;
use std::cell::RefCell;
use std::rc::Rc;
use std::rt::HostRuntime;

/// Two devices, and the server that they sync with, if it was opened.
#[derive(Drop)]
pub struct Sides<'r> {
    rt: &'r HostRuntime,
    first: MemoryKeeper,
    second: MemoryKeeper,
    server: Option<Rc<RefCell<ServerEnd<'r>>>>,
}

impl<'r> Sides<'r> {
    /// Two devices without a collection, and no server.
    pub fn new(rt: &'r HostRuntime) -> Sides<'r> {
        Sides {
            rt,
            first: MemoryKeeper::new(rt.alloc()),
            second: MemoryKeeper::new(rt.alloc()),
            server: None,
        }
    }

    /// `open [AT, CLOCK]`: a server whose account, of 32 letters `a`, was opened at a moment, and whose clock stays at another,
    /// and two devices that hold the same collection.
    fn open(&mut self, alloc: Global, rest: &str) -> Result<String, Unread> {
        let arguments = value_of(alloc, rest)?;
        let at = moment_at(&arguments, 0)?;
        let now = moment_at(&arguments, 1)?;
        self.first = opened(alloc, at)?;
        self.second = opened(alloc, at)?;
        let server = server_with(alloc, opened(alloc, at)?)?;
        let clock = ListClock::new(List::of(vec![in alloc; now]?));
        let end = ServerEnd::new(self.rt, server, clock)?;
        self.server = Some(Rc::new(alloc, RefCell::new(end))?);
        Ok(String::from_str(alloc, "ok")?)
    }
}

impl Answers for Sides<'_> {
    fn answer(&mut self, alloc: Global, word: &str, rest: &str) -> Result<String, Unread> {
        if word == "open" {
            return self.open(alloc, rest);
        }
        match (word, &self.server) {
            ("A", Some(server)) => answer_of_device(self.rt, &mut self.first, server, rest),
            ("B", Some(server)) => answer_of_device(self.rt, &mut self.second, server, rest),
            _ => Err(Unread::Bad),
        }
    }
}

/// A keeper of a collection that was opened at a moment.
fn opened(alloc: Global, at: i64) -> Result<MemoryKeeper, Memory>
    requires { IsClockMoment at }
    ensures { IfOk result (λ keeper. is_marked (all_known keeper.kept) ≡ false) }
{
    keeper_with(alloc, opening(alloc, at, false)?)
}

/// A server of one account.
fn server_with(alloc: Global, keeper: MemoryKeeper) -> Result<Server<MemoryKeeper>, Unread>
    requires { is_marked (all_known keeper.kept) ≡ false }
{
    let mut server = Server::new(alloc);
    let name = Text::of(alloc, "account")?;
    match server.add(name, host_key()?, keeper) {
        Ok(()) => Ok(server),
        Err(_) => Err(Unread::Ended),
    }
}
