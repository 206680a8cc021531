// Requests of the log, served again between the calls of a wire.
ghost use Rattle.std.specs.Prelude.{◌≡◌, ◌∷◌, []};
ghost use Rattle.ak_io.specs.Arrivals.{IsClockMoment};
ghost use Rattle.ak_lab_wires.specs.Replaying.{ReplaysBy, ReplaysOne};
ghost use Rattle.ak_lab_wires.specs.Servings.{ServesAgain, ServesFront, with_line};
ghost use Rattle.ak_lab_wires.specs.Turns.{InTurn, due};
ghost use Rattle.ak_sync_in_memory.specs.Entries.{LoggedState};

use crate::named_requests::{requests_named, serve_each};
use ak_base::{List, Memory, SessionKey};
use ak_lab_devices::{Act, Planned, is_clock_moment};
use ak_messages::Request;
use ak_sync_in_memory::{Between, LoggedServer};
use std::alloc::Global;

/// Whoever serves requests of the log again, at one moment, in milliseconds.
#[derive(Drop)]
pub struct Replays {
    pub at: i64,
    /// What is planned. What makes another device sync is left.
    pub acts: List<Planned>,
}

impl Between for Replays {
    ghost use Rattle.ak_lab_wires.specs.Replaying.{ReplaysAt, replays_nothing};

    ghost acts = { ReplaysAt };

    ghost idle = { replays_nothing };

    fn before(
        &mut self,
        call: u64,
        _session: SessionKey,
        server: &mut LoggedServer,
    ) -> Result<(), Memory> {
        replay_due(
            self.acts.allocator(),
            self.acts.as_slice(),
            call,
            self.at,
            server,
        )
    }
}

/// Does at this moment what is planned before the call of this number.
fn replay_due(
    alloc: Global,
    planned: &[Planned],
    call: u64,
    at: i64,
    server: &mut LoggedServer,
) -> Result<(), Memory>
    ensures { InTurn ReplaysOne (due call planned.now) at at server.old server.new result }
{
    for it in planned {
        replay_if_due(alloc, it, call, at, server)?;
    }
    Ok(())
}

/// Does it, if it is planned before this call.
fn replay_if_due(
    alloc: Global,
    it: &Planned,
    call: u64,
    at: i64,
    server: &mut LoggedServer,
) -> Result<(), Memory>
    ensures { InTurn ReplaysOne (due call (it.now ∷ [])) at at server.old server.new result }
{
    if it.call == call {
        replay_act(alloc, it, at, server)
    } else {
        Ok(())
    }
}

/// Does it at this moment. What makes another device sync is left.
fn replay_act(alloc: Global, it: &Planned, at: i64, server: &mut LoggedServer) -> Result<(), Memory>
    ensures { ReplaysBy it.now.act it.now.line at server.old server.new result }
{
    match &it.act {
        Act::Cross(_) => Ok(()),
        Act::Replay { from, count } => {
            let again = Again {
                from: *from,
                count: *count,
                line: it.line,
            };
            replay(alloc, again, at, server)
        }
    }
}

/// The requests that are served again, and the line with which they are written down.
#[derive(Clone, Copy, Debug)]
pub(crate) struct Again {
    pub(crate) from: u64,
    pub(crate) count: u64,
    pub(crate) line: u64,
}

/// Serves requests of the log again at a moment, in milliseconds. One that no clock may tell is as if memory had run out.
pub(crate) fn replay(
    alloc: Global,
    again: Again,
    at: i64,
    server: &mut LoggedServer,
) -> Result<(), Memory>
    ensures { ServesAgain again.from again.count again.line at server.old server.new result }
{
    if !is_clock_moment(at) {
        return Err(Memory);
    }
    // The copies come first: what is served grows the log.
    let requests = requests_named(alloc, server.entries(), again.from, again.count)?;
    serve_with_line(requests.as_slice(), again.line, at, server)
}

/// Serves these requests at this moment, and writes them down with this line.
fn serve_with_line(
    requests: &[Request],
    line: u64,
    at: i64,
    server: &mut LoggedServer,
) -> Result<(), Memory>
    requires clock { IsClockMoment at }
    ensures { (reached : LoggedState) × ServesFront requests.now at (with_line line server.old) reached result
        × (server.new ≡ with_line server.old.line reached) }
{
    let was = server.line();
    server.at_line(line);
    let came = serve_each(server, requests, at);
    server.at_line(was);
    came
}
