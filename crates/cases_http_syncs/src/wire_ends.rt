ghost use Rattle.std.specs.Prelude.{◌≡◌};
ghost use Rattle.ak_io.specs.Ends.{uncertain};

use crate::server_ends::ServerEnd;
use ak_io::{End, Failed, Sink, Source};
use ak_links::{Dial, Link};
use ak_sockets::{TcpDial, TcpLink};
use std::alloc::Global;
use std::cell::RefCell;
use std::rc::Rc;
use std::rt::HostRuntime;

/// A dial to a server in this process.
#[derive(Drop)]
pub struct NearDial<'r> {
    pub alloc: Global,
    pub dial: TcpDial<'r, HostRuntime>,
    pub server: Rc<RefCell<ServerEnd<'r>>>,
    pub faults: u64,
}

/// A connection to a server in this process, which serves it at the first read.
#[derive(Drop)]
pub struct NearLink<'r> {
    alloc: Global,
    link: TcpLink<'r, HostRuntime>,
    server: Rc<RefCell<ServerEnd<'r>>>,
    is_served: bool,
}

impl NearLink<'_> {
    /// Lets the server read what was written, and answer it.
    fn serve(&mut self)
        ensures { self.new.link ≡ self.old.link }
    {
        if self.is_served {
            return;
        }
        self.is_served = true;
        if let Ok(mut server) = self.server.try_borrow_mut() {
            server.serve(self.alloc);
        }
    }
}

impl End for NearLink<'_> {
    ghost health = { λ near. uncertain near.link };

    fn faults(&self) -> u64 {
        self.link.faults()
    }
}

impl Source for NearLink<'_> {
    ghost use Rattle.std.specs.Prelude.{None};

    ghost left = { λ near. None };

    fn read(&mut self, into: &mut [u8]) -> Result<usize, Failed> {
        self.serve();
        self.link.read(into)
    }
}

impl Sink for NearLink<'_> {
    ghost use Rattle.std.specs.Prelude.{None};

    ghost written = { λ near. None };

    fn write(&mut self, from: &[u8]) -> Result<usize, Failed> {
        self.link.write(from)
    }
}

impl Link for NearLink<'_> {
    fn receive(&mut self, into: &mut [u8]) -> Result<usize, Failed> {
        self.read(into)
    }

    fn send(&mut self, from: &[u8]) -> Result<usize, Failed> {
        self.write(from)
    }
}

impl End for NearDial<'_> {
    ghost health = { λ near. uncertain near.faults };

    fn faults(&self) -> u64 {
        self.faults
    }
}

impl<'r> Dial for NearDial<'r> {
    type Link = NearLink<'r>;

    ghost use Rattle.std.specs.Prelude.{None};

    ghost to_come = { λ near. None };

    fn dial(&mut self) -> Result<NearLink<'r>, Failed> {
        match (self.dial.dial(), Rc::clone(&self.server)) {
            (Ok(link), Ok(server)) => Ok(NearLink {
                alloc: self.alloc,
                link,
                server,
                is_served: false,
            }),
            _ => {
                self.faults = self.faults.saturating_add(1);
                Err(Failed)
            }
        }
    }
}
