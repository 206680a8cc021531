use crate::intercepted_wires::Interceptor;
use ak_client_wire::{Wire, WireEnd};
use ak_messages::{Reply, Request};
use ak_sync_in_memory::{LoopWire, NothingBetween};

/// Answers, from a call on, another reply than the server's, or what can't be read. The server serves each call all the same.
#[derive(Drop)]
pub struct Liar {
    /// The first call at which it lies, counted from 0.
    pub from: u64,
    /// None for what can't be read.
    pub lie: Option<Reply>,
}

impl Interceptor for Liar {
    fn answer(
        &mut self,
        wire: &mut LoopWire<NothingBetween>,
        call: u64,
        request: &Request,
    ) -> Result<Reply, WireEnd> {
        let told = wire.call(request);
        if call < self.from {
            return told;
        }
        drop(told);
        match &self.lie {
            Some(reply) => copied(reply),
            None => Err(WireEnd::BadReply),
        }
    }
}

fn copied(reply: &Reply) -> Result<Reply, WireEnd> {
    match reply.copy() {
        Ok(reply) => Ok(reply),
        Err(_) => Err(WireEnd::Memory),
    }
}
