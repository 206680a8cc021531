ghost use Rattle.ak_io.specs.Arrivals.{IsClockMoment};

use crate::betweens::Between;
use crate::deliveries::{fate_at, serve_by};
use crate::logged_servers::LoggedServer;
use crate::mishaps::Mishap;
use ak_base::{List, Memory};
use ak_call_counts::CallCounts;
use ak_client_wire::{Said, Wire, WireEnd};
use ak_io::End;
use ak_messages::{Reply, Request};

/// A wire in memory: it owns a logged server, serves each call there at one moment, and tells the log. Before a call
/// others may act on the server, and mishaps lose and repeat its messages.
#[derive(Drop)]
pub struct LoopWire<B> {
    server: LoggedServer,
    between: B,
    moment: i64,
    mishaps: List<Mishap>,
    counts: CallCounts,
    ghost clock: { IsClockMoment moment },
}

impl<B: Between> LoopWire<B> {
    ghost use Rattle.std.specs.Prelude.{◌≡◌};
    ghost use Rattle.ak_call_counts.specs.CallCounts.{no_calls};
    ghost use Rattle.ak_sync_in_memory.specs.LoopWires.{Delivers};

    /// A wire to this server, whose clock stays at this moment, in milliseconds.
    pub fn new(server: LoggedServer, moment: i64, mishaps: List<Mishap>, between: B) -> LoopWire<B>
        requires clock { IsClockMoment moment }
        ensures server { result.server ≡ server }
        ensures moment { result.moment ≡ moment }
        ensures mishaps { result.mishaps ≡ mishaps }
        ensures between { result.between ≡ between }
        ensures counts { result.counts ≡ no_calls }
    {
        LoopWire {
            server,
            between,
            moment,
            mishaps,
            counts: CallCounts::new(),
        }
    }

    /// How many calls were made, tries too. At the last `u64` it stays. It takes no memory.
    pub fn calls(&self) -> u64
        ensures { result ≡ self.now.counts.calls }
    {
        self.counts.calls
    }

    /// Hands back the server, and what acted between the calls.
    pub fn into_parts(self) -> (LoggedServer, B)
        ensures server { result.0 ≡ self.server }
        ensures between { result.1 ≡ self.between }
    {
        (self.server, self.between)
    }

    /// Lets the others act, and serves the request as the mishaps of the call say.
    fn deliver(&mut self, request: &Request) -> Result<Reply, WireEnd>
        ensures delivers { Delivers B.acts B.idle self.old.counts.calls self.old.mishaps self.old.between self.new.between
            self.old.server self.new.server request.now self.old.moment result }
        ensures moment { self.new.moment ≡ self.old.moment }
        ensures mishaps { self.new.mishaps ≡ self.old.mishaps }
        ensures counts { self.new.counts ≡ self.old.counts }
    {
        let call = self.counts.calls;
        match self.between.before(call, request.session, &mut self.server) {
            Ok(()) => {
                let fate = fate_at(call, self.mishaps.as_slice());
                serve_by(&mut self.server, request, self.moment, fate)
            }
            Err(Memory) => Err(WireEnd::Memory),
        }
    }
}

impl<B: Between> End for LoopWire<B> {
    ghost use Rattle.ak_sync_in_memory.specs.LoopWires.{health_over};

    ghost health = { λ wire. health_over wire.counts wire.mishaps };

    fn faults(&self) -> u64 {
        self.counts.faults
    }
}

impl<B: Between> Wire for LoopWire<B> {
    ghost use Rattle.ak_client_wire.specs.Wires.{Called};
    ghost use Rattle.ak_sync_in_memory.specs.LoopWires.{health_over, inside_with, loop_kind, state_of_loop};

    ghost kind = { loop_kind B.acts B.idle };

    ghost state = { λ wire. state_of_loop B.acts B.idle
        (inside_with wire.server wire.between wire.moment wire.mishaps wire.counts) };

    fn bad(&self) -> u64 {
        0
    }

    fn silent(&self) -> u64 {
        self.counts.silent
    }

    fn last(&self) -> Option<Said> {
        self.counts.last()
    }

    /// Sends a request. If memory suffices, it fails exactly if a mishap of this call loses the request or its reply.
    fn call(&mut self, request: &Request) -> Result<Reply, WireEnd>
        ensures called { Called (health_over self.old.counts self.old.mishaps)
            (health_over self.new.counts self.new.mishaps)
            (state_of_loop B.acts B.idle
            (inside_with self.old.server self.old.between self.old.moment self.old.mishaps self.old.counts))
            (state_of_loop B.acts B.idle
            (inside_with self.new.server self.new.between self.new.moment self.new.mishaps self.new.counts))
            request.now result }
    {
        let answer = self.deliver(request);
        self.counts.count(request, &answer);
        answer
    }
}
