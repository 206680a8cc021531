ghost use Rattle.std.specs.Prelude.{◌≡◌, ◌||◌, false, IfOk, OnErr};
ghost use Rattle.ak_io.specs.Arrivals.{IsClockMoment};
ghost use Rattle.ak_sync_in_memory.specs.LoopWires.{Fares, ServesFewer, ServesInARow, times_of};
ghost use Rattle.ak_sync_in_memory.specs.Mishaps.{is_lost, servings};

use crate::logged_servers::LoggedServer;
use crate::mishaps::{Mishap, What, happens};
use ak_base::Memory;
use ak_client_wire::WireEnd;
use ak_messages::{Reply, Request};

/// What becomes of the messages of a call.
#[derive(Clone, Copy, Debug)]
pub(crate) struct Fate {
    pub(crate) loses_request: bool,
    pub(crate) loses_reply: bool,
    pub(crate) repeats: bool,
}

/// What becomes of the messages of the call of this number.
pub(crate) fn fate_at(call: u64, mishaps: &[Mishap]) -> Fate
    ensures lost { (result.loses_request || result.loses_reply) ≡ is_lost call mishaps.now }
    ensures times { times_of result.loses_request result.repeats ≡ servings call mishaps.now }
{
    Fate {
        loses_request: happens(What::LoseRequest, call, mishaps),
        loses_reply: happens(What::LoseReply, call, mishaps),
        repeats: happens(What::Repeat, call, mishaps),
    }
}

/// Serves a request at this moment as often as its fate says, and answers the last reply unless it is lost.
pub(crate) fn serve_by(
    server: &mut LoggedServer,
    request: &Request,
    now: i64,
    fate: Fate,
) -> Result<Reply, WireEnd>
    requires clock { IsClockMoment now }
    ensures { Fares (fate.loses_request || fate.loses_reply) (times_of fate.loses_request fate.repeats)
        server.old server.new request.now now result }
{
    if fate.loses_request {
        return Err(WireEnd::Failed);
    }
    match serve_in_a_row(server, request, now, fate.repeats) {
        Ok(_) if fate.loses_reply => Err(WireEnd::Failed),
        Ok(reply) => Ok(reply),
        Err(Memory) => Err(WireEnd::Memory),
    }
}

/// Serves a request once, or twice in a row, and answers the last reply.
fn serve_in_a_row(
    server: &mut LoggedServer,
    request: &Request,
    now: i64,
    repeats: bool,
) -> Result<Reply, Memory>
    requires clock { IsClockMoment now }
    ensures ok { IfOk result (ServesInARow (times_of false repeats) server.old server.new request.now now) }
    ensures err { OnErr result (ServesFewer (times_of false repeats) server.old server.new request.now now) }
{
    let first = server.serve(request, now)?;
    if !repeats {
        return Ok(first);
    }
    drop(first);
    server.serve(request, now)
}
