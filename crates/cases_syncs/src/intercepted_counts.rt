ghost use Rattle.std.specs.Prelude.{◌≡◌};
ghost use Rattle.ak_client_wire.specs.Wires.{Called, said_after};
ghost use Rattle.cases_syncs.specs.Intercepted.{health_over, state_over};

use ak_client_wire::{Said, WireEnd, said_of};
use ak_messages::{Reply, Request};

/// What a wire counts of its calls, and what the reply of the last one said. Each count stays at the last `u64`.
#[derive(Drop)]
pub struct InterceptedCounts {
    pub calls: u64,
    /// The calls that got no answer.
    pub faults: u64,
    /// The answers that could not be read.
    pub unread: u64,
    /// The calls that got no answer in a row, up to the last one.
    pub silent: u64,
    pub said: Option<Said>,
}

impl InterceptedCounts {
    /// No call was made.
    pub fn new() -> InterceptedCounts {
        InterceptedCounts {
            calls: 0,
            faults: 0,
            unread: 0,
            silent: 0,
            said: None,
        }
    }

    /// Counts a call that was answered so.
    pub fn count(&mut self, request: &Request, answer: &Result<Reply, WireEnd>)
        ensures { Called (health_over self.old) (health_over self.new) (state_over self.old) (state_over self.new)
            request.now answer.now }
    {
        self.calls = self.calls.saturating_add(1);
        self.said = said_by(request, answer);
        match answer {
            Err(WireEnd::Failed) => {
                self.faults = self.faults.saturating_add(1);
                self.silent = self.silent.saturating_add(1);
            },
            Err(WireEnd::BadReply) => {
                self.unread = self.unread.saturating_add(1);
                self.silent = 0;
            },
            _ => self.silent = 0,
        }
    }

    /// What the reply of the last call said.
    pub fn last(&self) -> Option<Said>
        ensures { result ≡ self.now.said }
    {
        match &self.said {
            Some(said) => Some(said.copy()),
            None => None,
        }
    }
}

fn said_by(request: &Request, answer: &Result<Reply, WireEnd>) -> Option<Said>
    ensures { result ≡ said_after request.now answer.now }
{
    match answer {
        Ok(reply) => Some(said_of(request, reply)),
        Err(_) => None,
    }
}
