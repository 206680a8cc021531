ghost use Rattle.std.specs.Prelude.{◌≡◌, true, IfOk, IfErr, OnOk, OnErr};
ghost use Rattle.ak_lab.specs.LabStates.{IsReady, at_line, opened_lab, state_of};
ghost use Rattle.ak_lab.specs.LabRuns.{IsLabOpening};
ghost use Rattle.ak_openings.specs.declared.whole_collections.Opening.{Opening};

use ak_base::{List, Memory, Text};
use ak_lab_devices::Device;
use ak_lab_wires::lab_key;
use ak_openings::{OPENING_MOMENT, opening};
use ak_sync_in_memory::{Log, LoggedServer};
use std::alloc::Global;

/// A server and its devices.
#[derive(Drop)]
pub(crate) struct Lab {
    pub(crate) alloc: Global,
    /// In milliseconds.
    pub(crate) clock: i64,
    pub(crate) server: LoggedServer,
    /// How many syncs, uploads and downloads began. At the last `u64` it stays.
    pub(crate) sessions: u64,
    /// The calls of the server's keeper that fail in the next sync, counted from 0 over that whole line.
    pub(crate) fails: List<u64>,
    pub(crate) devices: Vec<Device>,
}

impl Lab {
    /// A server with the opening collection, and no device. The clock stands at the moment at which the server was opened.
    pub(crate) fn open(alloc: Global) -> Result<Lab, Memory>
        ensures opened { IfOk result (λ lab. (made : Opening) × IsLabOpening made × (state_of lab ≡ opened_lab made)) }
        ensures ready { IfOk result (λ lab. IsReady (state_of lab)) }
    {
        let made = opening(alloc, OPENING_MOMENT, false)?;
        let name = Text::of(alloc, "lab")?;
        let server = LoggedServer::new(alloc, name, lab_key(), made)?;
        Ok(Lab {
            alloc,
            clock: OPENING_MOMENT,
            server,
            sessions: 0,
            fails: List::new(alloc),
            devices: Vec::new(alloc),
        })
    }

    /// Goes to the line of this number: what comes to the server is written down with it.
    pub(crate) fn at_line(&mut self, number: u64)
        ensures at { state_of self.new ≡ at_line number (state_of self.old) }
        ensures ready { IsReady (state_of self.old) → IsReady (state_of self.new) }
    {
        self.server.at_line(number);
    }

    /// All that came to the server.
    pub(crate) fn into_log(self) -> Log
        ensures { result.entries ≡ self.server.entries }
    {
        self.server.into_log()
    }
}
