// A session of a device over a wire in memory.
ghost use Rattle.std.specs.Prelude.{◌≡◌, ◌≢◌, ◌∷◌, [], true, Some, IfOk};
ghost use Rattle.ak_call_counts.specs.CallCounts.{no_calls};
ghost use Rattle.ak_client.specs.Outcomes.{HasOutcomeCause};
ghost use Rattle.ak_client.specs.declared.outcomes.Outcome.TheVariants as outcomes;
ghost use Rattle.ak_faults.specs.Calls.{names_none};
ghost use Rattle.ak_io.specs.Arrivals.{IsClockMoment};
ghost use Rattle.ak_lab_devices.specs.Devices.{given_outside, keeping_of};
ghost use Rattle.ak_lab_wires.specs.LabSessions.{EndsByKind, IsSessionOver, LeavesDevice, MayEnd, calls_known_after, fails_after, fails_in, lab_host};
ghost use Rattle.ak_sync_in_memory.specs.LoopWires.{health_over, inside_with, state_of_loop};

use ak_base::{HostKey, List, Memory, SessionKey};
use ak_client::{Ids, Outcome};
use ak_io::ListClock;
use ak_lab_devices::Device;
use ak_lab_lines::Direction;
use ak_sync_in_memory::{Between, LoggedServer, LoopWire};
use std::alloc::Global;
use std::mem;

/// What a device does in a session with the server. The laws of labs speak of a session by its kind.
#[derive(Clone, Copy, Debug)]
pub enum SessionKind {
    Sync,
    Transfer(Direction),
}

/// What a session is for, which one it is, and the clock of its device. The caller makes the clock, so that no memory is wanted
/// to begin.
#[derive(Drop)]
pub struct SessionTurn {
    pub kind: SessionKind,
    pub key: u64,
    pub clock: ListClock,
}

/// Runs the session of a device over a wire that was not used yet. It hands back the server, whoever acted between the calls, and
/// how the session ended.
pub fn run_over<B: Between>(
    device: &mut Device,
    wire: LoopWire<B>,
    turn: SessionTurn,
) -> (LoggedServer, B, Outcome)
    requires unused { wire.counts ≡ no_calls }
    ensures { IsSessionOver B.acts B.idle turn.kind turn.key wire.moment turn.clock wire.mishaps device.old device.new
        wire.between result.1 wire.server result.0 result.2 }
{
    let SessionTurn {
        kind,
        key,
        mut clock,
    } = turn;
    let mut wire = wire;
    let ids = Ids {
        host: lab_key(),
        session: SessionKey(key),
    };
    let outcome = run_by_kind(device, kind, &mut wire, &mut clock, ids);
    let (server, between) = wire.into_parts();
    (server, between, outcome)
}

/// Runs it by its kind. A sync uses up the calls of the device's keeper that are to fail, and sets how many calls of its wire the device
/// knows of.
fn run_by_kind<B: Between>(
    device: &mut Device,
    kind: SessionKind,
    wire: &mut LoopWire<B>,
    clock: &mut ListClock,
    ids: Ids,
) -> Outcome
    ensures ended { EndsByKind kind ids (keeping_of device.old) (keeping_of device.new)
        (given_outside (health_over wire.old.counts wire.old.mishaps) (state_of_loop B.acts B.idle
        (inside_with wire.old.server wire.old.between wire.old.moment wire.old.mishaps wire.old.counts)) (Some clock.old))
        (given_outside (health_over wire.new.counts wire.new.mishaps) (state_of_loop B.acts B.idle
        (inside_with wire.new.server wire.new.between wire.new.moment wire.new.mishaps wire.new.counts)) (Some clock.new))
        result }
    ensures may { MayEnd kind result }
    ensures device { LeavesDevice kind (keeping_of device.old) (keeping_of device.new)
        (Some clock.old) (Some clock.new) result }
    ensures unfailed { names_none (fails_in kind device.old.fails) ≡ true → result ≢ outcomes.Keep }
    ensures lost { HasOutcomeCause outcomes.Lost (health_over wire.old.counts wire.old.mishaps)
        (health_over wire.new.counts wire.new.mishaps) result }
    ensures rest { device.new ≡ record device.old {
      collection = device.new.collection;
      undo = [];
      calls = calls_known_after kind device.old.calls wire.new.counts.calls;
      fails = fails_after kind device.old.fails;
    } }
{
    match kind {
        SessionKind::Sync => {
            let none = List::new(device.fails.allocator());
            let fails = mem::replace(&mut device.fails, none);
            let outcome = device
                .collection
                .sync(&mut device.undo, wire, clock, ids, fails);
            device.calls = wire.calls();
            outcome
        }
        SessionKind::Transfer(Direction::Upload) => device
            .collection
            .upload(&mut device.undo, wire, clock, ids),
        SessionKind::Transfer(Direction::Download) => device
            .collection
            .download(&mut device.undo, wire, clock, ids),
    }
}

/// A clock that stands at this moment, in milliseconds.
pub fn still_clock(alloc: Global, at: i64) -> Result<ListClock, Memory>
    requires { IsClockMoment at }
    ensures { IfOk result (λ clock. clock ≡ at ∷ []) }
{
    let mut moments = List::new(alloc);
    moments.push(at)?;
    Ok(ListClock::new(moments))
}

/// The host key of the server's account: 32 times the letter `a`.
pub fn lab_key() -> HostKey
    ensures { result.digits ≡ lab_host }
{
    match HostKey::of("aaaaaaaaaaaaaaaaaaaaaaaaaaaaaaaa") {
        Some(key) => key,
        None => unreachable!(),
    }
}
