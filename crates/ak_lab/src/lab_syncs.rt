// A sync, an upload and a download of a device.
ghost use Rattle.std.specs.Prelude.{◌≡◌, ◌∷◌, [], ◌+ℤ◌, ℕ, List as Sequence, IfOk, OnErr};
ghost use Rattle.ak_io.specs.Arrivals.{IsClockMoment};
ghost use Rattle.ak_lab.specs.LabStates.{IsReady, state_of};
ghost use Rattle.ak_lab.specs.LabStops.{PrintsOutcome};
ghost use Rattle.ak_lab.specs.LabSyncs.{IsPreparedAt, IsPreparedThere, RunsAt, mishaps_for, planned_for, session_line, session_word, without_plan_for};
ghost use Rattle.ak_lab.specs.LineStops.{CameOut};
ghost use Rattle.ak_lab_devices.specs.Devices.{IsPlaceOf};
ghost use Rattle.ak_lab_wires.specs.LabSessions.{fails_after, fails_in};

use crate::lab_stops::no_device;
use crate::labs::Lab;
use ak_base::{List, Memory, Text};
use ak_client::Outcome;
use ak_io::ListClock;
use ak_lab_devices::{Device, Planned, place_of};
use ak_lab_lines::{direction_word, write_ending};
use ak_lab_wires::{
    CrossedLab, Crossings, SessionKind, SessionTurn, run_over, stand_in, still_clock, take_plan,
};
use ak_line_runs::LineStop;
use ak_outcomes::outcome_text;
use ak_sync_in_memory::{LoopWire, Mishap};
use std::alloc::Global;
use std::mem;

/// `sync <device>`, `upload <device>` and `download <device>`
pub(crate) fn run_session(
    lab: Lab,
    kind: SessionKind,
    name: &Text,
) -> (Lab, Result<List<Text>, LineStop>)
    requires ready { IsReady (state_of lab) }
    ensures ends { CameOut (session_line kind name.now) (state_of lab) (state_of result.0) result.1 }
    ensures ready { IfOk result.1 (λ printed. IsReady (state_of result.0)) }
{
    let Some(place) = place_of(lab.devices.as_slice(), name) else {
        let stop = no_device(lab.alloc, name);
        return (lab, Err(stop));
    };
    let alloc = lab.alloc;
    let (lab, ran) = run_at(lab, kind, place);
    match ran {
        Ok(ran) => {
            let came = print_outcome(alloc, kind, name, ran);
            (lab, came)
        }
        Err(Memory) => (lab, Err(LineStop::Memory)),
    }
}

/// How a session ended, and what the syncs that crossed it printed.
#[derive(Drop)]
pub(crate) struct Ran {
    pub(crate) outcome: Outcome,
    pub(crate) crossed: List<Text>,
}

/// Runs a session of this kind for the device at this place: the next one.
fn run_at(lab: Lab, kind: SessionKind, place: usize) -> (Lab, Result<Ran, Memory>)
    requires ready { IsReady (state_of lab) }
    requires there { (name : Sequence ℕ) × IsPlaceOf name lab.devices.items place }
    ensures ok { IfOk result.1 (λ ran. RunsAt kind place (state_of lab) (state_of result.0) ran.crossed ran.outcome) }
    ensures err { OnErr result.1 (state_of result.0 ≡ state_of lab) }
    ensures ready { IfOk result.1 (λ ran. IsReady (state_of result.0)) }
{
    let shift = lab.devices[place].shift;
    match prepare(lab.alloc, lab.clock + shift, shift) {
        Ok(prepared) => {
            let (lab, ran) = run_prepared(lab, kind, place, prepared);
            (lab, Ok(ran))
        }
        Err(Memory) => (lab, Err(Memory)),
    }
}

/// What a session takes: the clock of its device, and what stands in for this meanwhile.
#[derive(Drop)]
pub(crate) struct Prepared {
    pub(crate) clock: ListClock,
    pub(crate) stand_in: Device,
}

/// Makes what a session takes at this moment of the clock of its device, which is so far after the lab's, in milliseconds.
fn prepare(alloc: Global, at: i64, shift: i64) -> Result<Prepared, Memory>
    requires clock { IsClockMoment at }
    ensures { IfOk result (IsPreparedAt at shift) }
{
    let clock = still_clock(alloc, at)?;
    let stand_in = stand_in(alloc, shift)?;
    Ok(Prepared { clock, stand_in })
}

/// Runs the session of the device at this place, for which all is made.
fn run_prepared(lab: Lab, kind: SessionKind, place: usize, prepared: Prepared) -> (Lab, Ran)
    requires ready { IsReady (state_of lab) }
    requires there { (name : Sequence ℕ) × IsPlaceOf name lab.devices.items place }
    requires prepared { IsPreparedThere place (state_of lab) prepared }
    ensures runs { RunsAt kind place (state_of lab) (state_of result.0) result.1.crossed result.1.outcome }
    ensures ready { IsReady (state_of result.0) }
{
    let Lab {
        alloc,
        clock,
        mut server,
        sessions,
        mut fails,
        mut devices,
    } = lab;
    let Prepared {
        clock: device_clock,
        stand_in,
    } = prepared;
    let key = sessions.saturating_add(1);
    let mut device = mem::replace(&mut devices[place], stand_in);
    let (mishaps, acts) = plan_for(alloc, kind, &mut device);
    let failing = fails_for(alloc, kind, &mut fails);
    server.fail_at(failing);
    let between = Crossings {
        lab: CrossedLab {
            alloc,
            clock,
            sessions: key,
            devices,
            printed: List::new(alloc),
        },
        acts,
    };
    let wire = LoopWire::new(server, clock, mishaps, between);
    let turn = SessionTurn {
        kind,
        key,
        clock: device_clock,
    };
    let (mut server, between, outcome) = run_over(&mut device, wire, turn);
    // A call that the session did not reach fails in no later one, and in no view.
    server.fail_at(List::new(alloc));
    let Crossings { lab, .. } = between;
    let CrossedLab {
        sessions,
        mut devices,
        printed,
        ..
    } = lab;
    devices[place] = device;
    let lab = Lab {
        alloc,
        clock,
        server,
        sessions,
        fails,
        devices,
    };
    let ran = Ran {
        outcome,
        crossed: printed,
    };
    (lab, ran)
}

/// Takes what is planned for a session of this kind of a device: to a sync all of it, to the others nothing.
fn plan_for(alloc: Global, kind: SessionKind, device: &mut Device) -> (List<Mishap>, List<Planned>)
    ensures mishaps { result.0 ≡ mishaps_for kind device.old }
    ensures planned { result.1 ≡ planned_for kind device.old }
    ensures left { device.new ≡ without_plan_for kind device.old }
{
    match kind {
        SessionKind::Sync => take_plan(alloc, device, List::new(alloc)),
        SessionKind::Transfer(_) => (List::new(alloc), List::new(alloc)),
    }
}

/// Takes the calls of the server's keeper that are to fail in a session of this kind: in a sync all that are planned, in the others none.
fn fails_for(alloc: Global, kind: SessionKind, planned: &mut List<u64>) -> List<u64>
    ensures fails { result ≡ fails_in kind planned.old }
    ensures left { planned.new ≡ fails_after kind planned.old }
{
    match kind {
        SessionKind::Sync => mem::replace(planned, List::new(alloc)),
        SessionKind::Transfer(_) => List::new(alloc),
    }
}

/// The lines of a session that ended so: those of the syncs that crossed it, and its own.
fn print_outcome(
    alloc: Global,
    kind: SessionKind,
    name: &Text,
    ran: Ran,
) -> Result<List<Text>, LineStop>
    ensures { PrintsOutcome kind name.now ran.crossed ran.outcome result }
{
    let Ran { outcome, crossed } = ran;
    let text = outcome_text(alloc, &outcome)?;
    let line = write_ending(alloc, session_word(kind), name.as_str(), text.as_str())?;
    let mut printed = crossed;
    printed.push(line)?;
    Ok(printed)
}

/// The first word of the line of a session.
fn session_word(kind: SessionKind) -> &'static str
    ensures { result.now ≡ session_word kind }
{
    match kind {
        SessionKind::Sync => "sync",
        SessionKind::Transfer(direction) => direction_word(direction),
    }
}
