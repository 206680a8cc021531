// The requests of a log that a line names, and how they are served again.
ghost use Rattle.std.specs.Prelude.{◌≡◌, ◌++◌, ◌∷◌, List as Sequence, IfOk};
ghost use Rattle.ak_io.specs.Arrivals.{IsClockMoment};
ghost use Rattle.ak_lab_wires.specs.Servings.{ServesFront, named_from, requests_in, with_served};
ghost use Rattle.ak_messages.specs.declared.requests.Request.{Request};

use ak_base::{List, Memory};
use ak_messages::Request;
use ak_sync_in_memory::{Entry, Logged, LoggedServer};
use std::alloc::Global;

/// How many requests are passed over, and how many after them are named.
#[derive(Clone, Copy, Debug)]
struct Wanted {
    passed: u64,
    named: u64,
}

/// Copies of so many requests of a log, from the one of a number on, counted from 0. They are fewer if the log has fewer.
pub fn requests_named(
    alloc: Global,
    entries: &[Entry],
    from: u64,
    count: u64,
) -> Result<List<Request>, Memory>
    ensures { IfOk result (λ made. made ≡ named_from from count (requests_in entries.now)) }
{
    let mut made = List::new(alloc);
    let mut wanted = Wanted {
        passed: from,
        named: count,
    };
    for entry in entries {
        wanted = add_named(entry, wanted, &mut made)?;
    }
    Ok(made)
}

/// Adds a copy of the request of an entry, if it is named. It gives what is wanted of the entries after it.
fn add_named(entry: &Entry, wanted: Wanted, made: &mut List<Request>) -> Result<Wanted, Memory>
    ensures { IfOk result (λ left. (others : Sequence Request)
        → made.new ++ named_from left.passed left.named others
        ≡ made.old ++ named_from wanted.passed wanted.named (with_served entry.now.what others)) }
{
    match &entry.what {
        Logged::Served { request, .. } => add_request(request, wanted, made),
        Logged::Viewed => Ok(wanted),
    }
}

/// Adds a copy of the request, if it is named.
fn add_request(
    request: &Request,
    wanted: Wanted,
    made: &mut List<Request>,
) -> Result<Wanted, Memory>
    ensures { IfOk result (λ left. (others : Sequence Request)
        → made.new ++ named_from left.passed left.named others
        ≡ made.old ++ named_from wanted.passed wanted.named (request.now ∷ others)) }
{
    if wanted.passed > 0 {
        return Ok(Wanted {
            passed: wanted.passed - 1,
            named: wanted.named,
        });
    }
    if wanted.named == 0 {
        return Ok(wanted);
    }
    let request = request.copy()?;
    made.push(request)?;
    Ok(Wanted {
        passed: 0,
        named: wanted.named - 1,
    })
}

/// Serves these requests one after the other at this moment, in milliseconds, until memory runs out for the next.
pub fn serve_each(server: &mut LoggedServer, requests: &[Request], at: i64) -> Result<(), Memory>
    requires clock { IsClockMoment at }
    ensures { ServesFront requests.now at server.old server.new result }
{
    for request in requests {
        server.serve(request, at)?;
    }
    Ok(())
}
