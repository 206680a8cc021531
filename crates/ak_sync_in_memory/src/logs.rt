ghost use Rattle.std.specs.Prelude.{◌≡◌, []};
ghost use Rattle.ak_sync_in_memory.specs.Entries.{trouble_of};

use ak_base::List;
use ak_messages::{Reply, Request};
use std::alloc::Global;

/// What came to a server, the first of it first.
#[derive(Debug, Drop)]
pub struct Log {
    pub entries: List<Entry>,
}

/// One thing that came to a server.
#[derive(Debug, Drop)]
pub struct Entry {
    /// The number of the script's line that it came from, as it was set.
    pub line: u64,
    pub what: Logged,
}

/// What came.
#[derive(Debug, Drop)]
pub enum Logged {
    /// A request was served.
    Served {
        request: Request,
        /// The server's clock, in milliseconds.
        now: i64,
        trouble: Trouble,
    },
    /// The account was viewed, or a view of it failed.
    Viewed,
}

/// What came in between while a request was served.
#[derive(Clone, Copy, Debug, PartialEq, Eq)]
pub enum Trouble {
    Nothing,
    /// The account's keeper failed: the reply is 503.
    Keeper,
    /// The server ran out of memory: the reply is 500.
    Memory,
}

impl Log {
    /// A log of nothing. It takes no memory.
    pub fn new(alloc: Global) -> Log
        ensures { result.entries ≡ [] }
    {
        Log {
            entries: List::new(alloc),
        }
    }
}

/// What the reply to a request says came in between.
pub(crate) fn trouble_of(reply: &Reply) -> Trouble
    ensures { result ≡ trouble_of reply.now.status }
{
    match reply.status {
        503 => Trouble::Keeper,
        500 => Trouble::Memory,
        _ => Trouble::Nothing,
    }
}
