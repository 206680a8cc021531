ghost use Rattle.std.specs.Prelude.{◌≡◌, IfOk, OnErr};
ghost use Rattle.ak_faults.specs.Causes.{HasCause};
ghost use Rattle.ak_io.specs.Ends.{uncertain, untold};
ghost use Rattle.ak_links.specs.Dials.{GivesFirst};
ghost use Rattle.ak_sockets.specs.Counts.{faults_after};

use crate::deadlines::Deadline;
use crate::faults::Faults;
use crate::tcp_links::TcpLink;
use ak_base::Text;
use ak_io::{End, Failed};
use ak_links::Dial;
use std::io::{self, Error, ErrorKind};
use std::marker::Model;
use std::net::{Net, OpenStream, TcpStream, ToSocketAddrs};
use std::time::{Clock, Duration};

/// How many seconds one of the server's addresses is tried.
const CONNECT_SECONDS: u64 = 5;

/// How many seconds a link that was made waits for the server at each read or write: the server serves one link at a time,
/// and a long one may be before it.
const REPLY_SECONDS: u64 = 300;

/// A dial over TCP: connections to one server.
#[derive(Drop)]
pub struct TcpDial<'r, R: Net + Clock> {
    rt: &'r R,
    address: Text,
    faults: Faults,
}

impl<'r, R: Net + Clock> Model for TcpDial<'r, R> {
    ghost use Rattle.std.specs.Prelude.{ℕ};

    ghost Value = { ℕ };

    ghost view = { λ dial. dial.faults };
}

impl<'r, R: Net + Clock> TcpDial<'r, R> {
    /// A dial to the server at this address, as `example.org:27701`.
    pub fn to(rt: &'r R, address: Text) -> TcpDial<'r, R>
        ensures { result ≡ 0 }
    {
        TcpDial {
            rt,
            address,
            faults: Faults::new(),
        }
    }

    /// A connection to the first of the addresses that takes one.
    fn connect(&self) -> io::Result<TcpLink<'r, R>> {
        let most = Duration::from_secs(CONNECT_SECONDS);
        for address in self.address.as_str().to_socket_addrs(self.rt)? {
            if let Ok(stream) = TcpStream::connect_timeout(self.rt, &address, most) {
                // A request is written in pieces, and each is to leave at once.
                let _ = stream.set_nodelay(true);
                let deadline = Deadline::of_each(Duration::from_secs(REPLY_SECONDS));
                return Ok(TcpLink::new(self.rt, stream, deadline));
            }
        }
        Err(Error::from(ErrorKind::NotConnected))
    }
}

impl<'r, R: Net + Clock> End for TcpDial<'r, R> {
    ghost health = { uncertain };

    fn faults(&self) -> u64 {
        self.faults.count()
    }
}

impl<'r, R: Net + Clock> Dial for TcpDial<'r, R> {
    type Link = TcpLink<'r, R>;

    ghost to_come = { untold };

    fn dial(&mut self) -> Result<TcpLink<'r, R>, Failed>
        ensures ok { IfOk result (λ link. GivesFirst (untold self.old) (untold self.new) link) }
        ensures err { OnErr result (untold self.new ≡ untold self.old) }
        ensures cause { HasCause (uncertain self.old) (uncertain self.new) result }

        // A fault is counted only where it is answered.
        ensures count { self.new ≡ faults_after self.old result }
    {
        let answer = self.connect();
        self.faults.counted(answer)
    }
}
