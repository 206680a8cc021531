ghost use Rattle.std.specs.Prelude.{◌≡◌, ◌≤◌};
ghost use Rattle.ak_call_counts.specs.CallCounts.{counts_after, no_calls};

use ak_client_wire::{Said, WireEnd, said_of};
use ak_messages::{Reply, Request};

/// What a wire counts of its calls, and what the reply of the last one said. Each count stays at the last `u64`. It takes no memory.
#[derive(Drop)]
pub struct CallCounts {
    /// The calls that were made.
    pub calls: u64,
    /// Those that failed.
    pub faults: u64,
    /// Those that failed in a row, up to the last one.
    pub silent: u64,
    pub said: Option<Said>,
}

impl CallCounts {
    /// No call was made.
    pub fn new() -> CallCounts
        ensures { result ≡ no_calls }
    {
        CallCounts {
            calls: 0,
            faults: 0,
            silent: 0,
            said: None,
        }
    }

    /// What the reply of the last call said.
    pub fn last(&self) -> Option<Said>
        ensures { result ≡ self.now.said }
    {
        match &self.said {
            Some(said) => Some(said.copy()),
            None => None,
        }
    }

    /// Counts a call that was answered so.
    pub fn count(&mut self, request: &Request, answer: &Result<Reply, WireEnd>)
        ensures counts { self.new ≡ counts_after self.old request.now answer.now }
        ensures later { self.old.faults ≤ self.new.faults }
    {
        self.calls = self.calls.saturating_add(1);
        self.silent = match answer {
            Err(WireEnd::Failed) => self.silent.saturating_add(1),
            _ => 0,
        };
        if let Err(WireEnd::Failed) = answer {
            self.faults = self.faults.saturating_add(1);
        }
        self.said = match answer {
            Ok(reply) => Some(said_of(request, reply)),
            Err(_) => None,
        };
    }
}
