use crate::intercepted_counts::InterceptedCounts;
use ak_client_wire::{Said, Wire, WireEnd};
use ak_io::End;
use ak_messages::{Reply, Request};
use ak_sync_in_memory::{LoopWire, NothingBetween};

/// Who gets each call of a device before the server does.
pub trait Interceptor {
    /// What the device is answered at the call of this number, counted from 0. The wire leads to the server.
    fn answer(
        &mut self,
        wire: &mut LoopWire<NothingBetween>,
        call: u64,
        request: &Request,
    ) -> Result<Reply, WireEnd>;
}

/// A wire on which somebody acts. It tells nothing of what comes to the server.
#[derive(Drop)]
pub struct InterceptedWire<I> {
    inner: LoopWire<NothingBetween>,
    interceptor: I,
    counts: InterceptedCounts,
}

impl<I: Interceptor> InterceptedWire<I> {
    /// A wire to the server to which this one leads. No call was made.
    pub fn new(inner: LoopWire<NothingBetween>, interceptor: I) -> InterceptedWire<I> {
        InterceptedWire {
            inner,
            interceptor,
            counts: InterceptedCounts::new(),
        }
    }

    /// The wire that leads to the server, and who acted.
    pub fn into_parts(self) -> (LoopWire<NothingBetween>, I) {
        (self.inner, self.interceptor)
    }

    /// How many calls were made.
    pub fn calls(&self) -> u64 {
        self.counts.calls
    }
}

impl<I: Interceptor> End for InterceptedWire<I> {
    ghost use Rattle.cases_syncs.specs.Intercepted.{health_over};

    ghost health = { λ wire. health_over wire.counts };

    fn faults(&self) -> u64 {
        self.counts.faults
    }
}

impl<I: Interceptor> Wire for InterceptedWire<I> {
    ghost use Rattle.ak_client_wire.specs.Wires.{plain_kind};
    ghost use Rattle.cases_syncs.specs.Intercepted.{state_over};

    ghost kind = { plain_kind };

    ghost state = { λ wire. state_over wire.counts };

    fn bad(&self) -> u64 {
        self.counts.unread
    }

    fn silent(&self) -> u64 {
        self.counts.silent
    }

    fn last(&self) -> Option<Said> {
        self.counts.last()
    }

    fn call(&mut self, request: &Request) -> Result<Reply, WireEnd> {
        let answer = self
            .interceptor
            .answer(&mut self.inner, self.counts.calls, request);
        self.counts.count(request, &answer);
        answer
    }
}
