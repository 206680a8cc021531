// What stands in for a server and for a device while these are elsewhere.
ghost use Rattle.std.specs.Prelude.{◌≡◌, [], IfOk};
ghost use Rattle.ak_lab_devices.specs.declared.devices.Device.{Device};

use crate::lab_sessions::lab_key;
use ak_base::{List, Memory, Text};
use ak_lab_devices::{Device, HeldCollection};
use ak_openings::{OPENING_MOMENT, opening};
use ak_sync_in_memory::LoggedServer;
use ak_undo::UndoList;
use std::alloc::Global;

/// A server to which nothing comes.
pub(crate) fn spare_server(alloc: Global) -> Result<LoggedServer, Memory> {
    let made = opening(alloc, OPENING_MOMENT, false)?;
    let name = Text::of(alloc, "spare")?;
    LoggedServer::new(alloc, name, lab_key(), made)
}

/// A device without a name, which no line can name.
pub fn stand_in(alloc: Global, shift: i64) -> Result<Device, Memory>
    ensures { IfOk result (λ device. (device.name ≡ []) × (device.shift ≡ shift)) }
{
    let made = opening(alloc, OPENING_MOMENT, false)?;
    let name = Text::of(alloc, "")?;
    let collection = HeldCollection::of(alloc, made)?;
    let undo = UndoList::new(alloc)?;
    Ok(Device {
        name,
        collection,
        undo,
        shift,
        done: 0,
        calls: 0,
        fails: List::new(alloc),
        mishaps: List::new(alloc),
        planned: List::new(alloc),
    })
}
