ghost use Rattle.std.specs.Prelude.{◌≡◌};
ghost use Rattle.ak_client_wire.specs.Wires.{WireKind, WireState, Called};

use ak_base::SessionKey;
use ak_io::End;
use ak_messages::{Reply, Request, SanityReply, Word};

/// What leads to a server. Its `faults` count the calls that got no answer.
///
/// While a call is under way anything may come to the server: views, requests of other accounts and other sessions,
/// and what this session asked before, any number of times. The request itself may come not at all, or several times.
/// Of a wire that is known to be alone nothing else comes.
pub trait Wire: End {
    /// Its kind: what stands inside of it, and what a call makes of that.
    ghost kind: { WireKind };

    /// What is known of it: the log of the server, if it tells it, and its counts and its inside, always.
    ghost state: { Self → WireState kind };

    /// How many answers could not be read. At the last `u64` it stays. It takes no memory.
    fn bad(&self) -> u64
        ensures { result ≡ (state self.now).reading.faults };

    /// How many calls in a row, the last one among them, got no answer. At the last `u64` it stays. It takes no memory.
    fn silent(&self) -> u64
        ensures { result ≡ (state self.now).silence };

    /// What the reply said that the last call answered; none if it answered no reply. It takes no memory.
    fn last(&self) -> Option<Said>
        ensures { result ≡ (state self.now).said };

    /// Sends a request, and answers the reply that came back.
    fn call(&mut self, request: &Request) -> Result<Reply, WireEnd>
        ensures called { Called (Self.health self.old) (Self.health self.new) (state self.old) (state self.new)
            request.now result };
}

/// Why a call of a wire answered no reply.
#[derive(Clone, Copy, Debug, PartialEq, Eq)]
pub enum WireEnd {
    /// No answer came: the request or its reply was lost.
    Failed,
    /// What came back can't be read as a reply.
    BadReply,
    /// Out of memory.
    Memory,
}

/// What a reply said.
#[derive(Debug, PartialEq, Drop)]
pub struct Said {
    /// The session key of the request.
    pub session: SessionKey,
    pub status: u16,
    pub word: Word,
    pub seen: i64,
    /// Of a meta that was granted, in its form.
    pub meta: Option<MetaSaid>,
    /// Of a sanity check that was granted, in its form.
    pub sanity: Option<SanityReply>,
}

/// What the reply to a meta says of the server.
#[derive(Clone, Copy, Debug, PartialEq, Eq)]
pub struct MetaSaid {
    /// Whether the sync may go on.
    pub cont: bool,
    /// The server's clock, in seconds. It may be any number.
    pub ts: i64,
    /// The moment of the committed collection, in milliseconds.
    pub moment: i64,
    /// Its schema moment, in milliseconds.
    pub scm: i64,
    /// The usn that the next sync gives.
    pub usn: i64,
}
