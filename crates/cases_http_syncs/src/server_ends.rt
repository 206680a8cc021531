use ak_base::Text;
use ak_http_links::serve_link;
use ak_io::ListClock;
use ak_links::Door;
use ak_memory::MemoryKeeper;
use ak_server::Server;
use ak_sockets::TcpDoor;
use cases_lines::Unread;
use std::alloc::Global;
use std::rt::HostRuntime;

/// A server behind a door of the loopback.
#[derive(Drop)]
pub struct ServerEnd<'r> {
    door: TcpDoor<'r, HostRuntime>,
    server: Server<MemoryKeeper>,
    clock: ListClock,
}

impl<'r> ServerEnd<'r> {
    /// A server that listens at a free port, and goes by this clock.
    pub fn new(
        rt: &'r HostRuntime,
        server: Server<MemoryKeeper>,
        clock: ListClock,
    ) -> Result<ServerEnd<'r>, Unread> {
        let mut door = TcpDoor::new(rt);
        door.listen("127.0.0.1:0")?;
        Ok(ServerEnd {
            door,
            server,
            clock,
        })
    }

    /// Where it listens.
    pub fn address(&self, alloc: Global) -> Result<Text, Unread> {
        match self.door.address() {
            Some(address) => Ok(Text::from(format!(in alloc; "{address}")?)),
            None => Err(Unread::Bad),
        }
    }

    /// Serves the connection that came, and closes it. It is not given back to the door, which would wait for the device to
    /// close its side first, and the device is in this process.
    pub fn serve(&mut self, alloc: Global) {
        if let Ok(Some(mut link)) = self.door.accept() {
            let _end = serve_link(alloc, &mut link, &mut self.server, &mut self.clock);
        }
    }
}
