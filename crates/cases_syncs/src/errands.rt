use ak_base::{HostKey, List, SessionKey};
use ak_client::{Ids, Outcome, sync_over};
use ak_client_wire::Wire;
use ak_io::ListClock;
use ak_keep::{Keeper, Lookup};
use ak_memory::MemoryKeeper;
use ak_transfers::{download_over, upload_over};
use ak_undo::UndoList;
use cases_accounts::moment_at;
use cases_lines::{Unread, natural_at};
use serde_json::Value;
use std::alloc::Global;

/// What a device has its client do.
#[derive(Clone, Copy)]
pub enum Task {
    Sync,
    Upload,
    Download,
}

/// A task of a device, with its keys and the device's clock.
#[derive(Drop)]
pub struct Errand {
    task: Task,
    ids: Ids,
    clock: ListClock,
}

impl Errand {
    /// Does the task over a wire, and answers how it ended.
    pub fn over<W: Wire>(
        &mut self,
        alloc: Global,
        keeper: &mut MemoryKeeper,
        wire: &mut W,
    ) -> Result<Outcome, Unread> {
        if keeper.marked() || !keeper.held() {
            return Err(Unread::Bad);
        }
        let mut undo = UndoList::new(alloc)?;
        Ok(match self.task {
            Task::Sync => sync_over(keeper, &mut undo, wire, &mut self.clock, self.ids),
            Task::Upload => upload_over(keeper, &mut undo, wire, &mut self.clock, self.ids),
            Task::Download => download_over(keeper, &mut undo, wire, &mut self.clock, self.ids),
        })
    }
}

/// The errand with this host key. Its session key stands at `place` of the arguments.
pub fn errand_at(
    alloc: Global,
    task: Task,
    key: &str,
    arguments: &Value,
    place: usize,
) -> Result<Errand, Unread> {
    let host = HostKey::of(key).ok_or(Unread::Bad)?;
    let session = SessionKey(natural_at(arguments, place)?);
    Ok(Errand {
        task,
        ids: Ids { host, session },
        clock: clock_at(alloc, arguments)?,
    })
}

/// The device's clock: the moment when it greets, and the one after a bad check.
fn clock_at(alloc: Global, arguments: &Value) -> Result<ListClock, Unread> {
    let first = moment_at(arguments, 2)?;
    let second = moment_at(arguments, 3)?;
    let moments = vec![in alloc; first, second]?;
    Ok(ListClock::new(List::of(moments)))
}
