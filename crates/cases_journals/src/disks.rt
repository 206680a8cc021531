use crate::stories::tell;
use crate::words::payloads_of;
use ak_base::{List, Memory};
use ak_disks::MemoryDisk;
use cases_lines::Unread;
use std::alloc::Global;

/// For how many written bytes a disk has room.
const ROOM: u64 = 65_536;

/// For how many calls it has room.
const CALLS: u64 = 256;

/// A disk of which these calls fail. If it tears, a refused write leaves the first half of its bytes.
pub fn failing_disk(fails: List<u64>, tears: bool) -> Result<MemoryDisk, Memory> {
    let mut disk = MemoryDisk::new(ROOM, CALLS, fails)?;
    if tears {
        disk.tear();
    }
    Ok(disk)
}

/// A disk of which no call fails.
pub fn sound_disk(alloc: Global) -> Result<MemoryDisk, Memory> {
    failing_disk(List::new(alloc), false)
}

/// All calls from this one on.
pub fn calls_from(alloc: Global, call: u64) -> Result<List<u64>, Memory> {
    let mut calls = List::new(alloc);
    for later in call..CALLS {
        calls.push(later)?;
    }
    Ok(calls)
}

/// A disk to which the payloads of this text were committed.
pub fn filled(alloc: Global, text: &str) -> Result<MemoryDisk, Unread> {
    let texts = payloads_of(alloc, text)?;
    let story = tell(alloc, sound_disk(alloc)?, texts.as_slice())?;
    Ok(story.into_disk())
}

/// Whether a refused write leaves half of its bytes, by a word.
pub fn tears_by(word: &str) -> Result<bool, Unread> {
    match word {
        "nothing" => Ok(false),
        "half" => Ok(true),
        _ => Err(Unread::Bad),
    }
}
