use ak_base::{Memory, Text, read_number};
use ak_either_wires::EitherWire;
use ak_http_wires::HttpWire;
use ak_sockets::TcpDial;
use ak_sync_runs::NoServer;

/// The way to the server that a word names: to none, or over HTTP.
pub type ServerWire<'r> = EitherWire<NoServer, HttpWire<TcpDial<'r, HostRuntime>>>;

/// Whether a word names a server: `-` for none, or `HOST:PORT`, a name or an address and a port from 1 to 65535.
pub fn is_server(word: &str) -> bool {
    word == "-" || is_address(word)
}

fn is_address(word: &str) -> bool {
    let Some((host, port)) = word.rsplit_once(':') else {
        return false;
    };
    !host.is_empty() && matches!(read_number(port, 65_535), Some(1..))
}

/// The wire to the server that this word names. It dials only when it is asked.
pub fn wire_to<'r>(rt: &'r HostRuntime, server: &str) -> Result<ServerWire<'r>, Memory> {
    if server == "-" {
        return Ok(EitherWire::First(NoServer::new()));
    }
    let alloc = rt.alloc();
    let dial = TcpDial::to(rt, Text::of(alloc, server)?);
    let host_name = Text::of(alloc, server)?;
    Ok(EitherWire::Second(HttpWire::to(alloc, dial, host_name)))
}
