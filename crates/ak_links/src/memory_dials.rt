ghost use Rattle.std.specs.Prelude.{◌≡◌, IfOk, OnErr, Some};
ghost use Rattle.std.specs.Result.{result_ok};
ghost use Rattle.ak_faults.specs.Causes.{HasCause};
ghost use Rattle.ak_links.specs.Dials.{GivesFirst, new_dial, dial_health, dials, after_dial};

use crate::memory_links::MemoryLink;
use crate::traits::Dial;
use ak_base::List;
use ak_faults::Calls;
use ak_io::{End, Failed};
use std::marker::Model;

/// A dial in memory: the links that it will give, each once and in order. A call that finds none to come fails, and
/// so do those named.
#[derive(Debug, Drop)]
pub struct MemoryDial {
    to_come: Vec<MemoryLink>,
    calls: Calls,
}

impl Model for MemoryDial {
    ghost use Rattle.ak_links.specs.Dials.{DialState};

    ghost Value = { DialState };

    ghost view = { λ dial. record {
      to_come = dial.to_come.items;
      calls = dial.calls.count;
      fails = dial.calls.fails.items;
      fault_count = dial.calls.faults;
    } };
}

impl MemoryDial {
    /// A dial that gives these links. The calls whose numbers are in `fails` fail, counted from 0.
    pub fn new(links: List<MemoryLink>, fails: List<u64>) -> MemoryDial
        ensures { result ≡ new_dial links fails }
    {
        MemoryDial {
            to_come: links.into_vec(),
            calls: Calls::new(fails.into_vec()),
        }
    }
}

impl End for MemoryDial {
    ghost health = { dial_health };

    fn faults(&self) -> u64 {
        self.calls.faults
    }
}

impl Dial for MemoryDial {
    type Link = MemoryLink;

    ghost to_come = { λ dial. Some dial.to_come };

    fn dial(&mut self) -> Result<MemoryLink, Failed>
        ensures ok { IfOk result (λ link. GivesFirst (Some self.old.to_come) (Some self.new.to_come) link) }
        ensures err { OnErr result (Some self.new.to_come ≡ Some self.old.to_come) }
        ensures cause { HasCause (dial_health self.old) (dial_health self.new) result }

        // No other call fails.
        ensures only { result_ok result ≡ dials self.old }
        ensures left { self.new ≡ after_dial self.old }
    {
        let named = self.calls.is_next_named();
        if named || self.to_come.is_empty() {
            self.calls.count_fault();
            return Err(Failed);
        }
        Ok(self.to_come.remove(0))
    }
}
