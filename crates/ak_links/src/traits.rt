ghost use Rattle.std.specs.Prelude.{◌≡◌, ◌<◌, true, length, Option, List, IfOk, OnOk, OnErr, OnSome};
ghost use Rattle.std.specs.Io.{ReadsAtMost, WritesAtMost};
ghost use Rattle.std.specs.Io.KnownBytes.{ReadConsumes, WriteAppends};
ghost use Rattle.ak_faults.specs.Causes.{GoesOn, HasCause, Rose};
ghost use Rattle.ak_links.specs.Dials.{GivesFirst};
ghost use Rattle.ak_links.specs.Doors.{DoorState, Accepts, HasLent, after_give_back};

use ak_io::{End, Failed, Sink, Source};

/// One connection: what the other side sent is read from it, and what is written goes to the other side. Its reads and
/// writes share one count of faults. It is closed when it is let go.
pub trait Link: Source + Sink {
    /// Reads as `read` does, and leaves what was written.
    fn receive(&mut self, into: &mut [u8]) -> Result<usize, Failed>
        ensures bound { ReadsAtMost result into.new }
        ensures bytes { ReadConsumes (Self.left self.old) (Self.left self.new) result into.new }
        ensures apart { Self.written self.new ≡ Self.written self.old }
        ensures cause { HasCause (Self.health self.old) (Self.health self.new) result };

    /// Writes as `write` does, and leaves what is to be read.
    fn send(&mut self, from: &[u8]) -> Result<usize, Failed>
        ensures bound { WritesAtMost result from.now }
        ensures bytes { WriteAppends (Self.written self.old) (Self.written self.new) result from.now }
        ensures apart { Self.left self.new ≡ Self.left self.old }
        ensures cause { HasCause (Self.health self.old) (Self.health self.new) result }

        // Nothing of a piece that is not empty is taken only if the count rose, and never by a calm link.
        ensures stuck { IfOk result (λ n. n ≡ 0 → 0 < length from.now → Rose (Self.health self.old) (Self.health self.new)) }
        ensures moves { (Self.health self.old).calm ≡ true → IfOk result (λ n. 0 < length from.now → 0 < n) };
}

/// Where links come from: the side of a server.
pub trait Door: End {
    type Link: Link + Drop;

    /// The links, if the door tells them, how many it has given, and whether it has ended.
    ghost state: { Self → DoorState Self.Link };

    /// Begins to take links at this address, as `127.0.0.1:27701`.
    fn listen(&mut self, address: &str) -> Result<(), Failed>
        ensures state { state self.new ≡ state self.old }
        ensures cause { HasCause (Self.health self.old) (Self.health self.new) result };

    /// The next link, or none if the door has ended. It may wait for one.
    fn accept(&mut self) -> Result<Option<Self::Link>, Failed>
        ensures ok { IfOk result (λ given. Accepts (state self.old) (state self.new) given) }
        ensures err { OnErr result (state self.new ≡ state self.old) }
        ensures cause { HasCause (Self.health self.old) (Self.health self.new) result }

        // A link that was given may be given back.
        ensures lent { IfOk result (λ given. OnSome given (HasLent (state self.new))) };

    /// Takes back a link that was served, and closes it. It takes no memory and can't fail: a fault on the way
    /// shows in the count alone.
    fn give_back(&mut self, link: Self::Link)
        requires { HasLent (state self.old) }
        ensures state { state self.new ≡ after_give_back link (state self.old) }
        ensures goes { GoesOn (Self.health self.old) (Self.health self.new) };

    /// How many links `accept` has given. At the last `u64` it stays. It takes no memory.
    fn accepted(&self) -> u64
        ensures { result ≡ (state self.now).accepted };

    /// Whether an `accept` has answered that no link comes any more. It takes no memory.
    fn ended(&self) -> bool
        ensures { result ≡ (state self.now).ended };
}

/// Where links are made: the side of a client. It knows the server's address.
pub trait Dial: End {
    type Link: Link + Drop;

    /// The links to come, if the dial tells them.
    ghost to_come: { Self → Option (List Self.Link) };

    /// A new connection to the server. It may wait.
    fn dial(&mut self) -> Result<Self::Link, Failed>
        ensures ok { IfOk result (λ link. GivesFirst (to_come self.old) (to_come self.new) link) }
        ensures err { OnErr result (to_come self.new ≡ to_come self.old) }
        ensures cause { HasCause (Self.health self.old) (Self.health self.new) result };
}

/// A source that can become any file, by its name.
pub trait Named: Source {
    /// From now on it reads the file of this name, from its beginning. If it is refused it reads on where it was.
    fn open(&mut self, name: &str) -> Result<(), Failed>
        ensures left { Self.left self.new ≡ Self.left self.old }
        ensures cause { HasCause (Self.health self.old) (Self.health self.new) result };
}
