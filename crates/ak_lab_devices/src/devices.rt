ghost use Rattle.std.specs.Prelude.{◌≡◌, None, MatchOption};
ghost use Rattle.ak_lab_devices.specs.Devices.{IsPlaceOf, device_of};

use crate::held_collections::HeldCollection;
use crate::plans::Planned;
use ak_base::{List, Text};
use ak_sync_in_memory::Mishap;
use ak_undo::UndoList;

/// A device of a lab.
#[derive(Drop)]
pub struct Device {
    pub name: Text,
    pub collection: HeldCollection,
    /// The steps that can be undone.
    pub undo: UndoList,
    /// Its clock is the lab's plus this, in milliseconds.
    pub shift: i64,
    /// How many answers were accepted. At the last `u64` it stays.
    pub done: u64,
    /// How many calls its last sync made. At the last `u64` it stays.
    pub calls: u64,
    /// The calls of its keeper that fail in its next sync, counted from 0.
    pub fails: List<u64>,
    /// What happens to the messages of its next sync.
    pub mishaps: List<Mishap>,
    /// What lines planned before the calls of its next sync, in the order of the lines.
    pub planned: List<Planned>,
}

/// Where the device of a name stands in the list.
pub fn place_of(devices: &[Device], name: &Text) -> Option<usize>
    ensures { MatchOption result (device_of name.now devices.now ≡ None) (IsPlaceOf name.now devices.now) }
{
    for (place, device) in devices.iter().enumerate() {
        if device.name == *name {
            return Some(place);
        }
    }
    None
}
