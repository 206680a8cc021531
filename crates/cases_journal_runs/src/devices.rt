ghost use Rattle.std.specs.Prelude.{IfOk};
ghost use Rattle.ak_io.specs.Arrivals.{IsClockMoment};

use crate::collections::collection_text;
use crate::disks::CrashDisk;
use crate::journals::CaseJournal;
use crate::runs::run_text;
use ak_base::List;
use ak_sync_in_memory::{LoopWire, Mishap, NothingBetween, What};
use cases_accounts::{empty_account, moment_at};
use cases_lines::Unread;
use serde_json::Value;
use std::alloc::Global;

/// How many requests are lost if there is no server: more than all runs of a line send.
const LOST: u64 = 64;

/// A device with its collection in a journal, and a wire in memory to a server.
#[derive(Drop)]
pub struct Device<D: CrashDisk> {
    pub journal: CaseJournal<D>,
    wire: LoopWire<NothingBetween>,
}

impl<D: CrashDisk> Device<D> {
    /// A device with a journal on this disk, by arguments `[OPENING-MOMENT, ..]`. The journal is not open.
    pub fn with(alloc: Global, disk: D, arguments: &Value) -> Result<Device<D>, Unread> {
        let wire = wire_at(alloc, arguments)?;
        Ok(Device {
            journal: CaseJournal::on(disk),
            wire,
        })
    }

    /// What a run over the journal is told as.
    pub fn run_text(&mut self, alloc: Global, run: &Value, more: u64) -> Result<String, Unread> {
        match &mut self.journal.keeper {
            Some(keeper) => run_text(alloc, keeper, &mut self.wire, run, more),
            None => not_open(alloc),
        }
    }

    /// The collection that the journal holds.
    pub fn collection_text(&mut self, alloc: Global) -> Result<String, Unread> {
        match &mut self.journal.keeper {
            Some(keeper) => collection_text(alloc, keeper),
            None => not_open(alloc),
        }
    }
}

fn not_open(alloc: Global) -> Result<String, Unread> {
    Ok(String::from_str(alloc, "not open")?)
}

/// A wire to a server whose account was opened at the moment at the front of the arguments, and whose clock stays there. If
/// `null` stands there, each request is lost.
fn wire_at(alloc: Global, arguments: &Value) -> Result<LoopWire<NothingBetween>, Unread> {
    let moment = opening_moment(arguments)?;
    let mishaps = mishaps_at(alloc, arguments)?;
    let server = empty_account(alloc, moment)?;
    Ok(LoopWire::new(server, moment, mishaps, NothingBetween))
}

fn opening_moment(arguments: &Value) -> Result<i64, Unread>
    ensures { IfOk result IsClockMoment }
{
    if has_no_server(arguments) {
        return Ok(1_700_000_000_000);
    }
    moment_at(arguments, 0)
}

fn mishaps_at(alloc: Global, arguments: &Value) -> Result<List<Mishap>, Unread> {
    let mut mishaps = List::new(alloc);
    let lost = if has_no_server(arguments) { LOST } else { 0 };
    for call in 0..lost {
        mishaps.push(Mishap {
            call,
            what: What::LoseRequest,
        })?;
    }
    Ok(mishaps)
}

fn has_no_server(arguments: &Value) -> bool {
    matches!(arguments.get(0), Some(Value::Null))
}
