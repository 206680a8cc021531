ghost use Rattle.std.specs.Prelude.{◌≡◌, IfOk, OnOk, OnErr, OnSome, Some, None, if◌then◌else◌};
ghost use Rattle.std.specs.Result.{result_ok};
ghost use Rattle.ak_faults.specs.Causes.{GoesOn, HasCause};
ghost use Rattle.ak_links.specs.Doors.{Accepts, HasLent, after_give_back, with_given_back, new_door, door_state, door_health, is_next_to_fail, after_call, accepts, after_accept};

use crate::memory_links::MemoryLink;
use crate::traits::Door;
use ak_base::{List, Memory};
use ak_faults::Calls;
use ak_io::{End, Failed};
use std::alloc::Global;
use std::marker::Model;

/// A door in memory: the links that will come, each once and in order, and those that were given back. It ends after
/// the last one. The calls named fail.
#[derive(Debug, Drop)]
pub struct MemoryDoor {
    to_come: Vec<MemoryLink>,
    given_back: Vec<MemoryLink>,
    accepted: u64,
    ended: bool,
    calls: Calls,
}

impl Model for MemoryDoor {
    ghost use Rattle.std.specs.Prelude.{◌+◌, ◌≤◌, vec_len, vec_capacity};
    ghost use Rattle.ak_links.specs.Doors.{MemoryDoorState};

    ghost Value = { MemoryDoorState };

    ghost view = { λ door. record {
      links = record { to_come = door.to_come.items; given_back = door.given_back.items };
      accepted = door.accepted;
      ended = door.ended;
      calls = door.calls.count;
      fails = door.calls.fails.items;
      fault_count = door.calls.faults;
    } };

    // Each link that was given, and each that is to come, has its place among those given back.
    ghost invariant = { λ d. (vec_len d.given_back ≤ d.accepted) × (d.accepted + vec_len d.to_come ≤ vec_capacity d.given_back) };
}

impl MemoryDoor {
    /// A door by which these links come. The calls whose numbers are in `fails` fail: those of `listen` and `accept`
    /// are counted together, from 0.
    pub fn new(
        alloc: Global,
        links: List<MemoryLink>,
        fails: List<u64>,
    ) -> Result<MemoryDoor, Memory>
        ensures { IfOk result (λ door. door ≡ new_door links fails) }
    {
        let to_come = links.into_vec();
        let given_back = Vec::with_capacity(alloc, to_come.len())?;
        Ok(MemoryDoor {
            to_come,
            given_back,
            accepted: 0,
            ended: false,
            calls: Calls::new(fails.into_vec()),
        })
    }

    /// The links that were given back, in their order.
    pub fn given_back(&self) -> &[MemoryLink]
        ensures { result.now ≡ self.now.links.given_back }
    {
        self.given_back.as_slice()
    }
}

impl End for MemoryDoor {
    ghost health = { door_health };

    fn faults(&self) -> u64 {
        self.calls.faults
    }
}

impl Door for MemoryDoor {
    type Link = MemoryLink;

    ghost state = { door_state };

    fn listen(&mut self, _address: &str) -> Result<(), Failed>
        ensures state { door_state self.new ≡ door_state self.old }
        ensures cause { HasCause (door_health self.old) (door_health self.new) result }

        // No other call fails.
        ensures only { result_ok result ≡ (if is_next_to_fail self.old then None else Some tt) }
        ensures left { self.new ≡ after_call self.old }
    {
        if self.calls.is_next_named() {
            self.calls.count_fault();
            return Err(Failed);
        }
        Ok(())
    }

    fn accept(&mut self) -> Result<Option<MemoryLink>, Failed>
        ensures ok { IfOk result (λ given. Accepts (door_state self.old) (door_state self.new) given) }
        ensures err { OnErr result (door_state self.new ≡ door_state self.old) }
        ensures cause { HasCause (door_health self.old) (door_health self.new) result }
        ensures lent { IfOk result (λ given. OnSome given (HasLent (door_state self.new))) }

        // No other call fails, and the door ends only after its last link.
        ensures only { result_ok result ≡ accepts self.old }
        ensures left { self.new ≡ after_accept self.old }
    {
        if self.calls.is_next_named() {
            self.calls.count_fault();
            return Err(Failed);
        }
        if self.to_come.is_empty() {
            self.ended = true;
            return Ok(None);
        }
        self.accepted = self.accepted.saturating_add(1);
        Ok(Some(self.to_come.remove(0)))
    }

    fn give_back(&mut self, link: MemoryLink)
        requires { HasLent (door_state self.old) }
        ensures state { door_state self.new ≡ after_give_back link (door_state self.old) }
        ensures goes { GoesOn (door_health self.old) (door_health self.new) }

        // It counts no call and no fault.
        ensures left { self.new ≡ record self.old { links = with_given_back link self.old.links } }
    {
        match self.given_back.push(link) {
            Ok(()) => {}
            // Its place was taken when the door was made.
            Err(_) => unreachable!(),
        }
    }

    fn accepted(&self) -> u64 {
        self.accepted
    }

    fn ended(&self) -> bool {
        self.ended
    }
}
