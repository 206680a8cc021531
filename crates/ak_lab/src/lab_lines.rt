// What the lines of a script do.
ghost use Rattle.std.specs.Prelude.{◌≡◌, pos, true, [], ◌∷◌, List as Sequence, Some, IfErr, IfOk};
ghost use Rattle.std.specs.Result.{IsErrOf};
ghost use Rattle.ak_any_lines.specs.AnyEnds.{AppliesToAny, EndsAnyLine};
ghost use Rattle.ak_base.specs.Heads.{IsWithin};
ghost use Rattle.ak_edit.specs.declared.desk_faults.DeskFault.TheVariants as desks;
ghost use Rattle.ak_filters.specs.Meanings.{Meaning};
ghost use Rattle.ak_io.specs.Arrivals.{IsClockMoment};
ghost use Rattle.ak_keep.specs.Collections.{Collection, IsId};
ghost use Rattle.ak_lab_devices.specs.Devices.{keeping_of, new_device};
ghost use Rattle.ak_lab.specs.LabDesks.{IsObeyed, desk_of, turn_of};
ghost use Rattle.ak_lab.specs.LabStates.{IsReady, state_of};
ghost use Rattle.ak_lab.specs.LineStops.{CameOut};
ghost use Rattle.ak_lab_devices.specs.RestingKeepers.{Holds};
ghost use Rattle.ak_lab_devices.specs.Shows.{shown_lines};
ghost use Rattle.ak_lab_lines.specs.LabTexts.{counts_text};
ghost use Rattle.ak_lab_lines.specs.Written.{AreReviews, IsLabLine};
ghost use Rattle.ak_lab_lines.specs.declared.lab_lines.LabLine.TheVariants as lines;
ghost use Rattle.ak_lab_lines.specs.declared.lab_lines.Side.TheVariants as sides;
ghost use Rattle.ak_lab_devices.specs.NewReviews.{EndsReviews};
ghost use Rattle.ak_desk_language.specs.AnyLines.{IsAnyInRange};
ghost use Rattle.ak_line_runs.specs.LinePrints.{printed_by};
ghost use Rattle.ak_line_runs.specs.declared.line_stops.LineStop.TheVariants as stops;
ghost use Rattle.ak_sync_in_memory.specs.Copies.{IsViewed, committed_in};
ghost use Rattle.ak_sync_in_memory.specs.Entries.{health_in};
ghost use Rattle.ak_session.specs.Answers.{counts_of};
ghost use Rattle.ak_desk_texts.specs.declared.line_refusals.LineRefusal.TheVariants as refusals;

use crate::lab_plans::Again;
use crate::lab_stops::{desk_stop, no_device};
use crate::lab_syncs::run_session;
use crate::labs::Lab;
use crate::server_copies::{copy_for_device, counted_of_server, shown_of_server};
use ak_base::{List, Memory, Text};
use ak_desk_language::{AnyLine, read_line};
use ak_desk_lines::{Turn, counted};
use ak_desk_texts::{DeskAnswer, LineRefusal};
use ak_edit::DeskFault;
use ak_lab_devices::{Device, ReviewPlan, are_in_time, is_shifted_in_time, place_of};
use ak_lab_lines::{LabLine, Shown, Side, write_counts, write_requests};
use ak_lab_wires::SessionKind;
use ak_line_runs::{LinePrint, LineStop, as_lines, line_stop, refusal_stop, stop_by};
use ak_sync_in_memory::{LoggedServer, Mishap};
use ak_undo::UndoList;
use std::alloc::Global;

/// How many devices a lab holds.
const DEVICE_LIMIT: usize = 16;

/// Does what a line says, and gives what it prints.
pub(crate) fn obey(lab: Lab, said: LabLine) -> (Lab, Result<LinePrint, LineStop>)
    requires ready { IsReady (state_of lab) }
    requires line { IsLabLine said }
    ensures ends { CameOut said (state_of lab) (state_of result.0) (printed_by result.1) }
    ensures ready { IfOk result.1 (λ printed. IsReady (state_of result.0)) }
{
    let mut lab = lab;
    match said {
        LabLine::Clock(at) => {
            let came = lab.set_clock(at);
            (lab, as_lines(came))
        }
        LabLine::Device(name) => {
            let came = lab.add_device(name);
            (lab, as_lines(came))
        }
        LabLine::Shift { device, by } => {
            let came = lab.shift(&device, by);
            (lab, as_lines(came))
        }
        LabLine::Review {
            device,
            card,
            ease,
            count,
        } => {
            let came = lab.review(&device, ReviewPlan { card, ease, count });
            (lab, as_lines(came))
        }
        LabLine::Do { device, line } => {
            let came = lab.do_line(&device, &line);
            (lab, came)
        }
        LabLine::Sync(name) => {
            let (lab, came) = run_session(lab, SessionKind::Sync, &name);
            (lab, as_lines(came))
        }
        LabLine::Transfer { direction, device } => {
            let (lab, came) = run_session(lab, SessionKind::Transfer(direction), &device);
            (lab, as_lines(came))
        }
        LabLine::Disturb { device, call, what } => {
            let came = lab.plan_mishap(&device, Mishap { call, what });
            (lab, as_lines(came))
        }
        LabLine::Cross {
            device,
            call,
            other,
        } => {
            let came = lab.plan_crossing(&device, call, other);
            (lab, as_lines(came))
        }
        LabLine::Replay {
            device,
            call,
            from,
            count,
        } => {
            let came = lab.plan_replay(&device, call, Again { from, count });
            (lab, as_lines(came))
        }
        LabLine::Resend { from, count } => {
            let came = lab.resend(Again { from, count });
            (lab, as_lines(came))
        }
        LabLine::Break(side) => {
            let came = lab.plan_break(&side);
            (lab, as_lines(came))
        }
        LabLine::Show { side, what } => {
            let came = lab.show(&side, what);
            (lab, as_lines(came))
        }
        LabLine::Count(side) => {
            let came = lab.count(&side);
            (lab, as_lines(came))
        }
        LabLine::Requests(name) => {
            let came = lab.requests(&name);
            (lab, as_lines(came))
        }
    }
}

impl Lab {
    /// `clock <ms>`
    fn set_clock(&mut self, at: i64) -> Result<List<Text>, LineStop>
        requires ready { IsReady (state_of self.old) }
        ensures ends { CameOut (lines.Clock at) (state_of self.old) (state_of self.new) result }
        ensures ready { IsReady (state_of self.new) }
    {
        if !are_in_time(at, self.devices.as_slice()) {
            return Err(stop_by(self.alloc, "bad line"));
        }
        self.clock = at;
        Ok(List::new(self.alloc))
    }

    /// `device <name>`
    fn add_device(&mut self, name: Text) -> Result<List<Text>, LineStop>
        requires ready { IsReady (state_of self.old) }
        ensures ends { CameOut (lines.Device name) (state_of self.old) (state_of self.new) result }
        ensures ready { IsReady (state_of self.new) }
    {
        match place_of(self.devices.as_slice(), &name) {
            Some(_) => return Err(stop_by(self.alloc, "device held")),
            None => {}
        }
        if self.devices.as_slice().len() >= DEVICE_LIMIT {
            return Err(stop_by(self.alloc, "too many devices"));
        }
        let device = new_device(self.alloc, name, &mut self.server)?;
        self.devices.push(device)?;
        Ok(List::new(self.alloc))
    }

    /// `shift <device> <ms>`
    fn shift(&mut self, name: &Text, by: i64) -> Result<List<Text>, LineStop>
        requires ready { IsReady (state_of self.old) }
        ensures ends { CameOut (lines.Shift name.now by) (state_of self.old) (state_of self.new) result }
        ensures ready { IsReady (state_of self.new) }
    {
        let Some(place) = place_of(self.devices.as_slice(), name) else {
            return Err(no_device(self.alloc, name));
        };
        if !is_shifted_in_time(self.clock, by) {
            return Err(stop_by(self.alloc, "bad line"));
        }
        self.devices[place].shift = by;
        Ok(List::new(self.alloc))
    }

    /// `review <device> <card> <ease> <count>`
    fn review(&mut self, name: &Text, plan: ReviewPlan) -> Result<List<Text>, LineStop>
        requires ready { IsReady (state_of self.old) }
        requires range { AreReviews plan.card plan.ease plan.count }
        ensures ends { CameOut (lines.Review name.now plan.card plan.ease plan.count)
            (state_of self.old) (state_of self.new) result }
        ensures ready { IsReady (state_of self.new) }
    {
        let Some(place) = place_of(self.devices.as_slice(), name) else {
            return Err(no_device(self.alloc, name));
        };
        let at = self.clock + self.devices[place].shift;
        match review_on(&mut self.devices[place], plan, at) {
            Ok(()) => Ok(List::new(self.alloc)),
            Err(fault) => Err(desk_stop(self.alloc, &fault)),
        }
    }

    /// `do <device> <line>`
    fn do_line(&mut self, name: &Text, text: &Text) -> Result<LinePrint, LineStop>
        requires ready { IsReady (state_of self.old) }
        ensures ends { CameOut (lines.Do name.now text.now) (state_of self.old) (state_of self.new)
            (printed_by result) }
        ensures ready { IsReady (state_of self.new) }
    {
        let Some(place) = place_of(self.devices.as_slice(), name) else {
            return Err(no_device(self.alloc, name));
        };
        let at = self.clock + self.devices[place].shift;
        let said = match read_line(self.alloc, text.as_str()) {
            Ok(said) => said,
            Err(fault) => return Err(line_stop(self.alloc, &fault)),
        };
        match obey_on(&mut self.devices[place], said, at) {
            Ok(answer) => Ok(LinePrint::Answer(answer)),
            Err(refusal) => Err(refusal_stop(self.alloc, &refusal)),
        }
    }

    /// `show <side> <table>`
    fn show(&mut self, side: &Side, what: Shown) -> Result<List<Text>, LineStop>
        requires ready { IsReady (state_of self.old) }
        ensures ends { CameOut (lines.Show side.now what) (state_of self.old) (state_of self.new) result }
        ensures ready { IsReady (state_of self.new) }
    {
        match side {
            Side::Server => self.show_server(what),
            Side::Device(name) => self.show_device(name, what),
        }
    }

    /// `show server <table>`
    fn show_server(&mut self, what: Shown) -> Result<List<Text>, LineStop>
        requires ready { IsReady (state_of self.old) }
        ensures ends { CameOut (lines.Show sides.Server what) (state_of self.old) (state_of self.new) result }
        ensures ready { IsReady (state_of self.new) }
    {
        match shown_of_server(self.alloc, &mut self.server, what) {
            Ok(texts) => Ok(texts),
            Err(Memory) => Err(LineStop::Memory),
        }
    }

    /// `show <device> <table>`
    fn show_device(&mut self, name: &Text, what: Shown) -> Result<List<Text>, LineStop>
        requires ready { IsReady (state_of self.old) }
        ensures ends { CameOut (lines.Show (sides.Device name.now) what)
            (state_of self.old) (state_of self.new) result }
        ensures ready { IsReady (state_of self.new) }
    {
        let Some(place) = place_of(self.devices.as_slice(), name) else {
            return Err(no_device(self.alloc, name));
        };
        match shown_on(self.alloc, &mut self.devices[place], what) {
            Ok(texts) => Ok(texts),
            Err(Memory) => Err(LineStop::Memory),
        }
    }

    /// `count <side>`
    fn count(&mut self, side: &Side) -> Result<List<Text>, LineStop>
        requires ready { IsReady (state_of self.old) }
        ensures ends { CameOut (lines.Count side.now) (state_of self.old) (state_of self.new) result }
        ensures ready { IsReady (state_of self.new) }
    {
        match side {
            Side::Server => self.count_server(),
            Side::Device(name) => self.count_device(name),
        }
    }

    /// `count server`
    fn count_server(&mut self) -> Result<List<Text>, LineStop>
        requires ready { IsReady (state_of self.old) }
        ensures ends { CameOut (lines.Count sides.Server) (state_of self.old) (state_of self.new) result }
        ensures ready { IsReady (state_of self.new) }
    {
        match counted_of_server(self.alloc, &mut self.server) {
            Ok(text) => one_line(self.alloc, text),
            Err(Memory) => Err(LineStop::Memory),
        }
    }

    /// `count <device>`
    fn count_device(&mut self, name: &Text) -> Result<List<Text>, LineStop>
        requires ready { IsReady (state_of self.old) }
        ensures ends { CameOut (lines.Count (sides.Device name.now)) (state_of self.old) (state_of self.new) result }
        ensures ready { IsReady (state_of self.new) }
    {
        let Some(place) = place_of(self.devices.as_slice(), name) else {
            return Err(no_device(self.alloc, name));
        };
        match counted_on(self.alloc, &mut self.devices[place]) {
            Ok(text) => one_line(self.alloc, text),
            Err(Memory) => Err(LineStop::Memory),
        }
    }

    /// `requests <device>`
    fn requests(&mut self, name: &Text) -> Result<List<Text>, LineStop>
        requires ready { IsReady (state_of self.old) }
        ensures ends { CameOut (lines.Requests name.now) (state_of self.old) (state_of self.new) result }
        ensures ready { IsReady (state_of self.new) }
    {
        let Some(place) = place_of(self.devices.as_slice(), name) else {
            return Err(no_device(self.alloc, name));
        };
        match write_requests(self.alloc, name.as_str(), self.devices[place].calls) {
            Ok(text) => one_line(self.alloc, text),
            Err(Memory) => Err(LineStop::Memory),
        }
    }
}

/// This line alone.
pub(crate) fn one_line(alloc: Global, text: Text) -> Result<List<Text>, LineStop>
    ensures ok { IfOk result (λ printed. printed ≡ text ∷ []) }
    ensures err { IfErr result (λ stop. stop ≡ stops.Memory) }
{
    let mut printed = List::new(alloc);
    printed.push(text)?;
    Ok(printed)
}

/// A device with a copy of the server's collection.
fn new_device(alloc: Global, name: Text, server: &mut LoggedServer) -> Result<Device, Memory>
    requires calm { (health_in server.old).calm ≡ true }
    ensures made { IfOk result (λ device. (c : Collection) × (committed_in server.old ≡ Some c)
        × (device ≡ new_device name c)) }
    ensures viewed { IsViewed server.old server.new }
    ensures calm { (health_in server.new).calm ≡ true }
{
    let collection = copy_for_device(alloc, server)?;
    let undo = UndoList::new(alloc)?;
    Ok(Device {
        name,
        collection,
        undo,
        shift: 0,
        done: 0,
        calls: 0,
        fails: List::new(alloc),
        mishaps: List::new(alloc),
        planned: List::new(alloc),
    })
}

/// Does a line of the desk on a device at a moment in milliseconds, and counts it if it is an answer that is accepted.
fn obey_on(device: &mut Device, said: AnyLine, at: i64) -> Result<DeskAnswer, LineRefusal>
    requires moment { IsClockMoment at }
    requires range { IsAnyInRange said }
    ensures ends { EndsAnyLine said (turn_of at device.old) (desk_of device.old) (desk_of device.new) result }
    ensures filters { (turned : Sequence Meaning) × AppliesToAny said (keeping_of device.old) [] turned result }
    ensures rest { IsObeyed device.old device.new result }
    ensures unfailed { IsErrOf result (refusals.Desk desks.Failed) → ⊥ }
{
    let turn = Turn {
        at,
        chance: 0,
        done: device.done,
    };
    let came = device.collection.obey(&mut device.undo, said, turn);
    if let Ok(answer) = &came {
        device.done = counted(answer, device.done);
    }
    came
}

/// Adds the reviews of a plan to a device at a moment in milliseconds.
fn review_on(device: &mut Device, plan: ReviewPlan, at: i64) -> Result<(), DeskFault>
    requires card { IsId plan.card }
    requires ease { IsWithin (pos 0) (pos 4) plan.ease }
    ensures ends { EndsReviews at plan (keeping_of device.old) (keeping_of device.new)
        device.old.undo device.new.undo result }
    ensures rest { device.new ≡ record device.old { collection = device.new.collection; undo = device.new.undo } }
    ensures unfailed { IsErrOf result desks.Failed → ⊥ }
{
    device.collection.review(&mut device.undo, plan, at)
}

/// The lines of what is shown of a device's collection.
fn shown_on(alloc: Global, device: &mut Device, what: Shown) -> Result<List<Text>, Memory>
    ensures shown { IfOk result (λ texts. (c : Collection) × Holds device.old.collection c
        × (texts ≡ shown_lines what c)) }
    ensures same { device.new ≡ device.old }
{
    device.collection.shown(alloc, what)
}

/// How many rows of each kind a device's collection holds, as a line.
fn counted_on(alloc: Global, device: &mut Device) -> Result<Text, Memory>
    ensures counted { IfOk result (λ text. (c : Collection) × Holds device.old.collection c
        × (text ≡ counts_text (counts_of c.rows))) }
    ensures same { device.new ≡ device.old }
{
    let counts = device.collection.counts()?;
    write_counts(alloc, &counts)
}
