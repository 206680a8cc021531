ghost use Rattle.std.specs.Prelude.{◌≡◌, ℕ, IfOk, OnErr, OnSome, IsSome};
ghost use Rattle.ak_faults.specs.Causes.{GoesOn, HasCause};
ghost use Rattle.ak_links.specs.Doors.{Accepts, HasLent, after_give_back};
ghost use Rattle.ak_sockets.specs.Counts.{faults_after, tcp_door, tcp_door_health, after_taking};

use crate::deadlines::Deadline;
use crate::faults::Faults;
use crate::retries::accept_retrying;
use crate::tcp_links::TcpLink;
use ak_io::{End, Failed};
use ak_links::Door;
use std::io::{self, Error, ErrorKind};
use std::marker::Model;
use std::net::{Net, OpenListener, OpenStream, SocketAddr, TcpListener};
use std::time::{Clock, Duration};

/// How many seconds a link that came waits for its peer at each read or write.
const WAIT_SECONDS: u64 = 30;

/// How many seconds a link that came lasts in all, since links are served one after the other.
const LINK_SECONDS: u64 = 900;

/// A door over TCP. It never ends.
#[derive(Drop)]
pub struct TcpDoor<'r, R: Net + Clock> {
    rt: &'r R,
    listener: Option<R::Listener>,
    accepted: u64,
    faults: Faults,
}

impl<'r, R: Net + Clock> Model for TcpDoor<'r, R> {
    ghost use Rattle.ak_sockets.specs.Counts.{TcpDoorState};

    ghost Value = { TcpDoorState };

    ghost view = { λ door. record { accepted = door.accepted; fault_count = door.faults } };
}

impl<'r, R: Net + Clock> TcpDoor<'r, R> {
    /// A door that listens nowhere yet: until it does, each accept is refused.
    pub fn new(rt: &'r R) -> TcpDoor<'r, R>
        ensures { result ≡ record { accepted = 0; fault_count = 0 } }
    {
        TcpDoor {
            rt,
            listener: None,
            accepted: 0,
            faults: Faults::new(),
        }
    }

    /// Where it listens, with the port that the system chose if port 0 was asked for.
    pub fn address(&self) -> Option<SocketAddr> {
        match &self.listener {
            Some(listener) => listener.local_addr().ok(),
            None => None,
        }
    }

    /// The next connection that came.
    fn next_link(&self) -> io::Result<TcpLink<'r, R>> {
        match &self.listener {
            Some(listener) => {
                let stream = accept_retrying(listener)?;
                // A reply is written in pieces, and each is to leave at once.
                let _ = stream.set_nodelay(true);
                let (wait, whole) = (
                    Duration::from_secs(WAIT_SECONDS),
                    Duration::from_secs(LINK_SECONDS),
                );
                Ok(TcpLink::new(self.rt, stream, Deadline::of_all(self.rt, wait, whole)?))
            }
            None => Err(Error::from(ErrorKind::NotConnected)),
        }
    }
}

impl<'r, R: Net + Clock> End for TcpDoor<'r, R> {
    ghost health = { tcp_door_health };

    fn faults(&self) -> u64 {
        self.faults.count()
    }
}

impl<'r, R: Net + Clock> Door for TcpDoor<'r, R> {
    type Link = TcpLink<'r, R>;

    ghost state = { tcp_door };

    fn listen(&mut self, address: &str) -> Result<(), Failed>
        ensures state { tcp_door {L = ℕ} self.new ≡ tcp_door self.old }
        ensures cause { HasCause (tcp_door_health self.old) (tcp_door_health self.new) result }

        // A fault is counted only where it is answered.
        ensures count { self.new ≡ record self.old { fault_count = faults_after self.old.fault_count result } }
    {
        let listener = self.faults.counted(TcpListener::bind(self.rt, address))?;
        self.listener = Some(listener);
        Ok(())
    }

    fn accept(&mut self) -> Result<Option<TcpLink<'r, R>>, Failed>
        ensures ok { IfOk result (λ given. Accepts (tcp_door self.old) (tcp_door self.new) given) }
        ensures err { OnErr result (tcp_door {L = ℕ} self.new ≡ tcp_door self.old) }
        ensures cause { HasCause (tcp_door_health self.old) (tcp_door_health self.new) result }
        ensures lent { IfOk result (λ given. OnSome given (HasLent {L = ℕ} (tcp_door self.new))) }

        // It never ends, and counts a fault only where it is answered.
        ensures some { IfOk result (λ given. IsSome given) }
        ensures count { self.new ≡ after_taking self.old result }
    {
        let answer = self.next_link();
        let link = self.faults.counted(answer)?;
        self.accepted = self.accepted.saturating_add(1);
        Ok(Some(link))
    }

    fn give_back(&mut self, link: TcpLink<'r, R>)
        requires { HasLent {L = ℕ} (tcp_door self.old) }
        ensures state { tcp_door self.new ≡ after_give_back link (tcp_door self.old) }
        ensures goes { GoesOn (tcp_door_health self.old) (tcp_door_health self.new) }
        ensures same { self.new ≡ self.old }
    {
        link.close();
    }

    fn accepted(&self) -> u64 {
        self.accepted
    }

    fn ended(&self) -> bool {
        false
    }
}
