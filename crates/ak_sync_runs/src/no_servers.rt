ghost use Rattle.std.specs.Prelude.{◌≡◌};

use ak_client_wire::{Said, Wire, WireEnd};
use ak_io::End;
use ak_messages::{Reply, Request};

/// The wire of a program that was given no server: no call gets an answer.
#[derive(Debug, Drop)]
pub struct NoServer {
    /// How many calls were made. At the last `u64` it stays.
    calls: u64,
}

impl NoServer {
    /// A wire on which no call was made.
    pub fn new() -> NoServer
        ensures { result ≡ record { calls = 0 } }
    {
        NoServer { calls: 0 }
    }
}

impl End for NoServer {
    ghost use Rattle.ak_sync_runs.specs.NoServers.{all_failed};

    ghost health = { λ wire. all_failed wire.calls };

    fn faults(&self) -> u64 {
        self.calls
    }
}

impl Wire for NoServer {
    ghost use Rattle.std.specs.Prelude.{◌≡◌, Err};
    ghost use Rattle.ak_client_wire.specs.Wires.{Called, more, plain_kind};
    ghost use Rattle.ak_client_wire.specs.declared.wires.WireEnd.TheVariants as ends;
    ghost use Rattle.ak_sync_runs.specs.NoServers.{all_failed, all_silent};

    ghost kind = { plain_kind };

    ghost state = { λ wire. all_silent wire.calls };

    fn bad(&self) -> u64 {
        0
    }

    fn silent(&self) -> u64 {
        self.calls
    }

    fn last(&self) -> Option<Said> {
        None
    }

    /// Sends nothing, and fails.
    fn call(&mut self, request: &Request) -> Result<Reply, WireEnd>
        ensures called { Called (all_failed self.old.calls) (all_failed self.new.calls)
            (all_silent self.old.calls) (all_silent self.new.calls) request.now result }
        ensures failed { result ≡ Err ends.Failed }
        ensures count { self.new.calls ≡ more 1 self.old.calls }
    {
        self.calls = self.calls.saturating_add(1);
        Err(WireEnd::Failed)
    }
}
