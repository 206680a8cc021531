use ak_base::{List, Memory};
use ak_disks::{Disk, MemoryDisk};
use cases_lines::Unread;
use std::alloc::Global;

/// For how many written bytes a disk has room that stops.
const ROOM: u64 = 65_536;

/// For how many calls it has room.
pub const CALLS: u64 = 256;

/// For how many bytes and calls a disk has room that is opened again and again.
const LONG_ROOM: u64 = 1_000_000;

const LONG_CALLS: u64 = 10_000;

/// A disk that may be made to stop, and that shows what a crash may leave of it.
pub trait CrashDisk: Disk + Drop {
    /// An empty disk of which no call fails.
    fn sound(alloc: Global) -> Result<Self, Memory>;

    /// An empty disk that stops at this call: it fails, and each later one. A refused write leaves the first half of its bytes.
    fn stopping(alloc: Global, call: u64) -> Result<Self, Memory>;

    /// A disk that holds an image that a crash now may leave, chosen by this number. None of its calls fails.
    fn after_crash(&self, pick: u64) -> Result<Self, Memory>;

    /// The file as it is read.
    fn bytes(&self) -> &[u8];

    /// Writes a byte over the one at this place, or behind the last.
    fn put_byte(&mut self, place: u64, byte: u8) -> Result<(), Unread>;
}

impl CrashDisk for MemoryDisk {
    fn sound(alloc: Global) -> Result<MemoryDisk, Memory> {
        MemoryDisk::new(LONG_ROOM, LONG_CALLS, List::new(alloc))
    }

    fn stopping(alloc: Global, call: u64) -> Result<MemoryDisk, Memory> {
        let mut fails = List::new(alloc);
        for later in call..CALLS {
            fails.push(later)?;
        }
        let mut disk = MemoryDisk::new(ROOM, CALLS, fails)?;
        disk.tear();
        Ok(disk)
    }

    fn after_crash(&self, pick: u64) -> Result<MemoryDisk, Memory> {
        self.image(pick)
    }

    fn bytes(&self) -> &[u8] {
        self.file()
    }

    fn put_byte(&mut self, place: u64, byte: u8) -> Result<(), Unread> {
        if place > self.file().len() as u64 {
            return Err(Unread::Bad);
        }
        self.write_at(place, &[byte])?;
        Ok(())
    }
}
