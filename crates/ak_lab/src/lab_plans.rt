// What lines plan for the next sync of a device or of the server, and requests of the log that are sent again.
ghost use Rattle.std.specs.Prelude.{◌≡◌, ◌++◌, ◌∷◌, [], IfErr, IfOk, OnErr, OnOk};
ghost use Rattle.ak_io.specs.Arrivals.{IsClockMoment};
ghost use Rattle.ak_lab.specs.LabPlans.{AnswersEach, AnswersOne, first_call, with_act, with_break, with_mishap};
ghost use Rattle.ak_lab.specs.LabStates.{IsReady, state_of};
ghost use Rattle.ak_lab.specs.LineStops.{CameOut};
ghost use Rattle.ak_lab_lines.specs.LabTexts.{reply_text};
ghost use Rattle.ak_lab_lines.specs.Written.{IsLabNumber};
ghost use Rattle.ak_lab_lines.specs.declared.lab_lines.LabLine.TheVariants as lines;
ghost use Rattle.ak_lab_lines.specs.declared.lab_lines.Side.TheVariants as sides;
ghost use Rattle.ak_lab.specs.LabStops.{LacksStop};
ghost use Rattle.ak_lab_wires.specs.Servings.{HasRequests, ServesFront, named_from, requests_in};
ghost use Rattle.ak_sync_in_memory.specs.Betweens.{ActEnd};

use crate::lab_stops::{no_device, no_request};
use crate::labs::Lab;
use ak_base::{List, Memory, Text};
use ak_lab_devices::{Act, Device, Planned, place_of};
use ak_lab_lines::{Side, write_status};
use ak_lab_wires::requests_named;
use ak_line_runs::LineStop;
use ak_messages::{Reply, Request};
use ak_sync_in_memory::{LoggedServer, Mishap};
use std::alloc::Global;

/// Requests of the log: so many, from the one of a number on, counted from 0.
#[derive(Clone, Copy, Debug)]
pub(crate) struct Again {
    pub(crate) from: u64,
    pub(crate) count: u64,
}

impl Lab {
    /// `lose <device> <call> request`, `lose <device> <call> reply` and `repeat <device> <call>`
    pub(crate) fn plan_mishap(
        &mut self,
        name: &Text,
        mishap: Mishap,
    ) -> Result<List<Text>, LineStop>
        requires ready { IsReady (state_of self.old) }
        ensures ends { CameOut (lines.Disturb name.now mishap.call mishap.what)
            (state_of self.old) (state_of self.new) result }
        ensures ready { IsReady (state_of self.new) }
    {
        let Some(place) = place_of(self.devices.as_slice(), name) else {
            return Err(no_device(self.alloc, name));
        };
        match add_mishap(&mut self.devices[place], mishap) {
            Ok(()) => Ok(List::new(self.alloc)),
            Err(Memory) => Err(LineStop::Memory),
        }
    }

    /// `cross <device> <call> <other>`
    pub(crate) fn plan_crossing(
        &mut self,
        name: &Text,
        call: u64,
        other: Text,
    ) -> Result<List<Text>, LineStop>
        requires ready { IsReady (state_of self.old) }
        ensures ends { CameOut (lines.Cross name.now call other) (state_of self.old) (state_of self.new) result }
        ensures ready { IsReady (state_of self.new) }
    {
        let Some(place) = place_of(self.devices.as_slice(), name) else {
            return Err(no_device(self.alloc, name));
        };
        match place_of(self.devices.as_slice(), &other) {
            Some(_) => {}
            None => return Err(no_device(self.alloc, &other)),
        }
        let planned = Planned {
            call,
            line: self.server.line(),
            act: Act::Cross(other),
        };
        match add_act(&mut self.devices[place], planned) {
            Ok(()) => Ok(List::new(self.alloc)),
            Err(Memory) => Err(LineStop::Memory),
        }
    }

    /// `replay <device> <call> <from> <count>`
    pub(crate) fn plan_replay(
        &mut self,
        name: &Text,
        call: u64,
        again: Again,
    ) -> Result<List<Text>, LineStop>
        requires ready { IsReady (state_of self.old) }
        requires from { IsLabNumber again.from }
        requires count { IsLabNumber again.count }
        ensures ends { CameOut (lines.Replay name.now call again.from again.count)
            (state_of self.old) (state_of self.new) result }
        ensures ready { IsReady (state_of self.new) }
    {
        let Some(place) = place_of(self.devices.as_slice(), name) else {
            return Err(no_device(self.alloc, name));
        };
        requests_of(self.alloc, &self.server, again)?;
        let planned = Planned {
            call,
            line: self.server.line(),
            act: Act::Replay {
                from: again.from,
                count: again.count,
            },
        };
        match add_act(&mut self.devices[place], planned) {
            Ok(()) => Ok(List::new(self.alloc)),
            Err(Memory) => Err(LineStop::Memory),
        }
    }

    /// `break <side>`
    pub(crate) fn plan_break(&mut self, side: &Side) -> Result<List<Text>, LineStop>
        requires ready { IsReady (state_of self.old) }
        ensures ends { CameOut (lines.Break side.now) (state_of self.old) (state_of self.new) result }
        ensures ready { IsReady (state_of self.new) }
    {
        match side {
            Side::Server => self.break_server(),
            Side::Device(name) => self.break_device(name),
        }
    }

    /// `break server`
    fn break_server(&mut self) -> Result<List<Text>, LineStop>
        requires ready { IsReady (state_of self.old) }
        ensures ends { CameOut (lines.Break sides.Server) (state_of self.old) (state_of self.new) result }
        ensures ready { IsReady (state_of self.new) }
    {
        match first_call(self.alloc) {
            Ok(fails) => {
                self.fails = fails;
                Ok(List::new(self.alloc))
            }
            Err(Memory) => Err(LineStop::Memory),
        }
    }

    /// `break <device>`
    fn break_device(&mut self, name: &Text) -> Result<List<Text>, LineStop>
        requires ready { IsReady (state_of self.old) }
        ensures ends { CameOut (lines.Break (sides.Device name.now)) (state_of self.old) (state_of self.new) result }
        ensures ready { IsReady (state_of self.new) }
    {
        let Some(place) = place_of(self.devices.as_slice(), name) else {
            return Err(no_device(self.alloc, name));
        };
        match set_break(self.alloc, &mut self.devices[place]) {
            Ok(()) => Ok(List::new(self.alloc)),
            Err(Memory) => Err(LineStop::Memory),
        }
    }

    /// `resend <from> <count>`
    pub(crate) fn resend(&mut self, again: Again) -> Result<List<Text>, LineStop>
        requires ready { IsReady (state_of self.old) }
        requires from { IsLabNumber again.from }
        requires count { IsLabNumber again.count }
        ensures ends { CameOut (lines.Resend again.from again.count) (state_of self.old) (state_of self.new) result }
        ensures ready { IsReady (state_of self.new) }
    {
        let requests = requests_of(self.alloc, &self.server, again)?;
        match answer_each(
            self.alloc,
            &mut self.server,
            requests.as_slice(),
            self.clock,
        ) {
            Ok(printed) => Ok(printed),
            Err(Memory) => Err(LineStop::Memory),
        }
    }
}

/// Adds a mishap to those that are planned for a device.
fn add_mishap(device: &mut Device, mishap: Mishap) -> Result<(), Memory>
    ensures ok { OnOk result (device.new ≡ with_mishap mishap.call mishap.what device.old) }
    ensures err { OnErr result (device.new ≡ device.old) }
{
    device.mishaps.push(mishap)
}

/// Adds an act to those that are planned for a device.
fn add_act(device: &mut Device, planned: Planned) -> Result<(), Memory>
    ensures ok { OnOk result (device.new ≡ with_act planned.call planned.line planned.act device.old) }
    ensures err { OnErr result (device.new ≡ device.old) }
{
    device.planned.push(planned)
}

/// Plans for a device that the first call of its keeper fails.
fn set_break(alloc: Global, device: &mut Device) -> Result<(), Memory>
    ensures ok { OnOk result (device.new ≡ with_break device.old) }
    ensures err { OnErr result (device.new ≡ device.old) }
{
    device.fails = first_call(alloc)?;
    Ok(())
}

/// The first call of a keeper, alone.
fn first_call(alloc: Global) -> Result<List<u64>, Memory>
    ensures { IfOk result (λ calls. calls ≡ first_call) }
{
    let mut calls = List::new(alloc);
    calls.push(0)?;
    Ok(calls)
}

/// Copies of requests of the server's log. It is refused if the log lacks one of them.
fn requests_of(
    alloc: Global,
    server: &LoggedServer,
    again: Again,
) -> Result<List<Request>, LineStop>
    requires from { IsLabNumber again.from }
    requires count { IsLabNumber again.count }
    ensures ok { IfOk result (λ requests. (requests ≡ named_from again.from again.count (requests_in server.now.entries))
        × HasRequests again.from again.count server.now) }
    ensures err { IfErr result (LacksStop again.from again.count server.now) }
{
    let requests = requests_named(alloc, server.entries(), again.from, again.count)?;
    let found = requests.as_slice().len() as u64;
    if found < again.count {
        return Err(no_request(alloc, again.from.saturating_add(found)));
    }
    Ok(requests)
}

/// Serves these requests one after the other at this moment, in milliseconds, and tells each answer.
fn answer_each(
    alloc: Global,
    server: &mut LoggedServer,
    requests: &[Request],
    at: i64,
) -> Result<List<Text>, Memory>
    requires clock { IsClockMoment at }
    ensures { AnswersEach requests.now at server.old server.new result }
{
    let mut printed = List::new(alloc);
    for request in requests {
        answer_one(alloc, server, request, at, &mut printed)?;
    }
    Ok(printed)
}

/// Serves a request at this moment, and adds the answer to what is printed.
fn answer_one(
    alloc: Global,
    server: &mut LoggedServer,
    request: &Request,
    at: i64,
    printed: &mut List<Text>,
) -> Result<(), Memory>
    requires clock { IsClockMoment at }
    ensures ok { OnOk result (AnswersOne request.now at server.old server.new printed.old printed.new) }
    ensures err { OnErr result ((came : ActEnd) × ServesFront (request.now ∷ []) at server.old server.new came) }
{
    let reply = server.serve(request, at)?;
    tell(alloc, &reply, printed)
}

/// Adds the status and the word of a reply to what is printed.
fn tell(alloc: Global, reply: &Reply, printed: &mut List<Text>) -> Result<(), Memory>
    ensures { OnOk result (printed.new ≡ printed.old ++ reply_text reply.now ∷ []) }
{
    let text = write_status(alloc, reply)?;
    printed.push(text)
}
