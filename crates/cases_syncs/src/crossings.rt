use crate::errands::Errand;
use crate::intercepted_wires::Interceptor;
use ak_client::Outcome;
use ak_client_wire::{Wire, WireEnd};
use ak_memory::MemoryKeeper;
use ak_messages::{Reply, Request};
use ak_sync_in_memory::{LoopWire, NothingBetween};
use cases_lines::Unread;
use std::alloc::Global;

/// Has another device do an errand, from its first call to its last, before one call of the device. It never lies.
#[derive(Drop)]
pub struct Crossing {
    pub alloc: Global,
    /// The number of that call, counted from 0.
    pub call: u64,
    /// The other device's.
    pub keeper: MemoryKeeper,
    pub errand: Errand,
    /// How the errand ended. None before that call.
    pub ended: Option<Result<Outcome, Unread>>,
}

impl Crossing {
    /// The other device's keeper, and how the errand ended.
    pub fn into_parts(self) -> (MemoryKeeper, Option<Result<Outcome, Unread>>) {
        (self.keeper, self.ended)
    }
}

impl Interceptor for Crossing {
    fn answer(
        &mut self,
        wire: &mut LoopWire<NothingBetween>,
        call: u64,
        request: &Request,
    ) -> Result<Reply, WireEnd> {
        if call == self.call {
            self.ended = Some(self.errand.over(self.alloc, &mut self.keeper, wire));
        }
        wire.call(request)
    }
}
