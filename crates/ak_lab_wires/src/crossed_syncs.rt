// Whole syncs of other devices, between the calls of a wire.
ghost use Rattle.std.specs.Prelude.{◌≡◌, ◌⊎◌, ◌∷◌, [], ◌+ℤ◌, ◌<◌, ◌≤◌, ℕ, List as Sequence, Some, IfOk, IfSome, IsTrue, slice_get};
ghost use Rattle.ak_io.specs.Arrivals.{IsClockMoment};
ghost use Rattle.ak_lab_devices.specs.Devices.{with_plan};
ghost use Rattle.ak_lab_devices.specs.Plans.{crossings_of};
ghost use Rattle.ak_lab_devices.specs.declared.devices.Device.{Device};
ghost use Rattle.ak_lab_wires.specs.CrossedSyncs.{ActsOnce, CrossesNot, CrossedSync, CrossesOnce, IsPreparedFor, MayCross, SyncsCrossed, TellsCrossed, cross_state};
ghost use Rattle.ak_lab_wires.specs.Turns.{InTurn, due};
ghost use Rattle.ak_lab_lines.specs.LabTexts.{sync_text};
ghost use Rattle.ak_outcomes.specs.OutcomeTexts.{outcome_text};

use crate::lab_sessions::{SessionKind, SessionTurn, run_over, still_clock};
use crate::replayed_requests::{Again, Replays, replay};
use crate::spares::spare_server;
use ak_base::{List, Memory, SessionKey, Text};
use ak_client::Outcome;
use ak_io::ListClock;
use ak_lab_devices::{Act, Device, Planned, crossings_in, is_clock_moment, place_of};
use ak_lab_lines::write_ending;
use ak_outcomes::outcome_text;
use ak_sync_in_memory::{Between, LoggedServer, LoopWire, Mishap};
use std::alloc::Global;
use std::mem;

/// Whoever makes other devices sync, and serves requests of the log again.
#[derive(Drop)]
pub struct Crossings {
    pub lab: CrossedLab,
    /// What is planned.
    pub acts: List<Planned>,
}

/// The devices that may sync, and what their lab knows of them.
#[derive(Drop)]
pub struct CrossedLab {
    pub alloc: Global,
    /// In milliseconds.
    pub clock: i64,
    /// How many syncs, uploads and downloads began.
    pub sessions: u64,
    pub devices: Vec<Device>,
    /// What their syncs printed.
    pub printed: List<Text>,
}

impl Between for Crossings {
    ghost use Rattle.ak_lab_wires.specs.CrossedSyncs.{CrossesAt, crosses_nothing};

    ghost acts = { CrossesAt };

    ghost idle = { crosses_nothing };

    fn before(
        &mut self,
        call: u64,
        session: SessionKey,
        server: &mut LoggedServer,
    ) -> Result<(), Memory> {
        come_due(&mut self.lab, self.acts.as_slice(), call, session, server)
    }
}

/// Does all that is planned before the call of this number, whose request has this session key.
fn come_due(
    lab: &mut CrossedLab,
    planned: &[Planned],
    call: u64,
    session: SessionKey,
    server: &mut LoggedServer,
) -> Result<(), Memory>
    ensures { InTurn (ActsOnce session.0) (due call planned.now) (cross_state lab.old) (cross_state lab.new)
        server.old server.new result }
{
    for it in planned {
        lab.come_if_due(it, call, session, server)?;
    }
    Ok(())
}

impl CrossedLab {
    /// Does it, if it is planned before this call.
    fn come_if_due(
        &mut self,
        it: &Planned,
        call: u64,
        session: SessionKey,
        server: &mut LoggedServer,
    ) -> Result<(), Memory>
        ensures { InTurn (ActsOnce session.0) (due call (it.now ∷ [])) (cross_state self.old) (cross_state self.new)
            server.old server.new result }
    {
        if it.call == call {
            self.come(it, session, server)
        } else {
            Ok(())
        }
    }

    /// Does what a line planned.
    fn come(
        &mut self,
        it: &Planned,
        session: SessionKey,
        server: &mut LoggedServer,
    ) -> Result<(), Memory>
        ensures { ActsOnce session.0 it.now (cross_state self.old) (cross_state self.new) server.old server.new result }
    {
        match &it.act {
            Act::Cross(name) => self.cross(name, it.line, session, server),
            Act::Replay { from, count } => {
                let again = Again {
                    from: *from,
                    count: *count,
                    line: it.line,
                };
                replay(self.alloc, again, self.clock, server)
            }
        }
    }

    /// Makes the device of a name sync, with a line of its own. If that can't be, it is as if memory had run out.
    fn cross(
        &mut self,
        name: &Text,
        line: u64,
        session: SessionKey,
        server: &mut LoggedServer,
    ) -> Result<(), Memory>
        ensures { CrossesNot (cross_state self.old) (cross_state self.new) server.old server.new result
            ⊎ CrossedSync name.now line session.0 (cross_state self.old) (cross_state self.new) server.old server.new result }
    {
        let Some((place, at)) = self.place_to_cross(name, session) else {
            return Err(Memory);
        };
        let prepared = prepare(self.alloc, at, self.devices[place].planned.as_slice())?;
        let outcome = self.run_prepared(place, prepared, line, server);
        self.tell(name, &outcome)
    }

    /// Where the device of a name stands, and the moment of its clock, if it may sync before a request of this session.
    fn place_to_cross(&self, name: &Text, session: SessionKey) -> Option<(usize, i64)>
        ensures { IfSome result (λ found. (d : Device) × MayCross name.now session.0 found.0 d (cross_state self.now)
            × (found.1 ≡ self.now.clock +ℤ d.shift)) }
    {
        if name.as_str().is_empty() {
            return None;
        }
        if !self.may_begin(session) {
            return None;
        }
        let Some(place) = place_of(self.devices.as_slice(), name) else {
            return None;
        };
        match moment_after(self.clock, self.devices[place].shift) {
            Some(at) => Some((place, at)),
            None => None,
        }
    }

    /// Whether another session may begin before a request of this one: its key is none that was given yet.
    fn may_begin(&self, session: SessionKey) -> bool
        ensures { IsTrue result → IsClockMoment self.now.clock × (session.0 ≤ self.now.sessions)
            × (self.now.sessions < 18_446_744_073_709_551_615) }
    {
        is_clock_moment(self.clock) && session.0 <= self.sessions && self.sessions < LAST_KEY
    }

    /// Runs the sync of the device at a place, for which all is made: the next session.
    fn run_prepared(
        &mut self,
        place: usize,
        prepared: Prepared,
        line: u64,
        server: &mut LoggedServer,
    ) -> Outcome
        requires may { (name : Sequence ℕ) × (session : ℕ) × (d : Device)
            × MayCross name session place d (cross_state self.old) × IsPreparedFor d self.old.clock prepared }
        ensures { (d : Device) → slice_get self.old.devices.items place ≡ Some d
            → CrossesOnce line place d (cross_state self.old) (cross_state self.new) server.old server.new result }
    {
        let key = self.sessions + 1;
        let turn = CrossTurn {
            at: self.clock,
            key,
            line,
        };
        self.sessions = key;
        sync_crossed(self.alloc, &mut self.devices[place], prepared, turn, server)
    }

    /// Prints how the sync of the device of a name ended.
    fn tell(&mut self, name: &Text, outcome: &Outcome) -> Result<(), Memory>
        ensures { TellsCrossed name.now outcome.now (cross_state self.old) (cross_state self.new) result }
    {
        let line = written(self.alloc, name, outcome)?;
        self.printed.push(line)
    }
}

/// The last key that a session may have: 2^64 - 1.
const LAST_KEY: u64 = 18_446_744_073_709_551_615;

/// The line of the sync of a device that ended so.
fn written(alloc: Global, name: &Text, outcome: &Outcome) -> Result<Text, Memory>
    ensures { IfOk result (λ line. (text : Sequence ℕ) × (outcome_text outcome.now ≡ Some text)
        × (line ≡ sync_text name.now text)) }
{
    let text = outcome_text(alloc, outcome)?;
    write_ending(alloc, "sync", name.as_str(), text.as_str())
}

/// The moment of a clock that stands so far after another, if a clock may tell it.
fn moment_after(clock: i64, by: i64) -> Option<i64>
    ensures { IfSome result (λ at. (at ≡ clock +ℤ by) × IsClockMoment at) }
{
    let at = clock.checked_add(by)?;
    if is_clock_moment(at) { Some(at) } else { None }
}

/// What a crossed sync takes: the clock of its device, what stays planned for this, and a server in place of the one that it has
/// meanwhile.
#[derive(Drop)]
pub(crate) struct Prepared {
    pub(crate) clock: ListClock,
    pub(crate) left: List<Planned>,
    pub(crate) spare: LoggedServer,
}

/// Makes what the sync of a device takes at this moment of its clock, by what is planned for it.
fn prepare(alloc: Global, at: i64, planned: &[Planned]) -> Result<Prepared, Memory>
    requires clock { IsClockMoment at }
    ensures clock { IfOk result (λ it. it.clock ≡ at ∷ []) }
    ensures left { IfOk result (λ it. it.left ≡ crossings_of planned.now) }
{
    let clock = still_clock(alloc, at)?;
    let left = crossings_in(alloc, planned)?;
    let spare = spare_server(alloc)?;
    Ok(Prepared { clock, left, spare })
}

/// When a crossed sync begins by the server's clock, in milliseconds, which session it is, and its line.
#[derive(Clone, Copy, Debug)]
struct CrossTurn {
    at: i64,
    key: u64,
    line: u64,
}

/// Syncs a device with a server, and writes that down with a line of its own.
fn sync_crossed(
    alloc: Global,
    device: &mut Device,
    prepared: Prepared,
    turn: CrossTurn,
    server: &mut LoggedServer,
) -> Outcome
    requires clock { IsClockMoment turn.at }
    requires left { prepared.left ≡ crossings_of device.old.planned }
    ensures { SyncsCrossed turn.line turn.key turn.at prepared.clock device.old device.new server.old server.new result }
{
    let Prepared { clock, left, spare } = prepared;
    let was = server.line();
    server.at_line(turn.line);
    let (mishaps, acts) = take_plan(alloc, device, left);
    let replays = Replays { at: turn.at, acts };
    let lent = mem::replace(server, spare);
    let wire = LoopWire::new(lent, turn.at, mishaps, replays);
    let session = SessionTurn {
        kind: SessionKind::Sync,
        key: turn.key,
        clock,
    };
    let (back, _, outcome) = run_over(device, wire, session);
    *server = back;
    server.at_line(was);
    outcome
}

/// Takes what is planned for the next sync of a device: what happens to its messages, and what comes before its calls. This stays
/// planned. The calls of its keeper that are to fail are left for the session to take.
pub fn take_plan(
    alloc: Global,
    device: &mut Device,
    left: List<Planned>,
) -> (List<Mishap>, List<Planned>)
    ensures mishaps { result.0 ≡ device.old.mishaps }
    ensures planned { result.1 ≡ device.old.planned }
    ensures left { device.new ≡ with_plan [] left device.old }
{
    let mishaps = mem::replace(&mut device.mishaps, List::new(alloc));
    let planned = mem::replace(&mut device.planned, left);
    (mishaps, planned)
}
