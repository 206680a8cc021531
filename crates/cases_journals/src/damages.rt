use crate::disks::filled;
use crate::stories::{Story, is_front_of, look};
use crate::words::{byte_of, fault_text, number_of, opened_text, payloads_of};
use ak_base::cut;
use ak_disks::{Disk, MemoryDisk};
use ak_journals::JournalFault;
use cases_lines::Unread;
use std::alloc::Global;

/// `cut SIZE PAYLOADS`: what the file opens as after it was cut to this size.
pub fn after_cut(alloc: Global, rest: &str) -> Result<String, Unread> {
    let (size, text) = cut(rest, " ").ok_or(Unread::Bad)?;
    let story = story_after_cut(alloc, number_of(size)?, text)?;
    opened_text(alloc, &story)
}

/// `cuts PAYLOADS`: how many payloads the file opens with after it was cut to each size from 0 on, or where it is damaged.
pub fn after_each_cut(alloc: Global, text: &str) -> Result<String, Unread> {
    let whole = filled(alloc, text)?;
    let mut made = String::new(alloc);
    for size in 0..whole.file().len() as u64 {
        made.push_str(count_after_cut(alloc, size, text)?.as_str())?;
        made.push_str(", ")?;
    }
    made.push_str("whole")?;
    Ok(made)
}

fn count_after_cut(alloc: Global, size: u64, text: &str) -> Result<String, Unread> {
    let story = story_after_cut(alloc, size, text)?;
    match story.fault {
        Some(fault) => fault_text(alloc, fault),
        None => {
            let count = story.kept.len();
            Ok(format!(in alloc; "{count}")?)
        }
    }
}

fn story_after_cut(alloc: Global, size: u64, text: &str) -> Result<Story<MemoryDisk>, Unread> {
    let mut disk = filled(alloc, text)?;
    if size > disk.file().len() as u64 {
        return Err(Unread::Bad);
    }
    disk.cut(size)?;
    look(alloc, disk)
}

/// `spoil PLACE BYTE PAYLOADS`: what the file opens as after this byte was written there, and how long it is then.
pub fn after_spoiling(alloc: Global, rest: &str) -> Result<String, Unread> {
    let (place, rest) = cut(rest, " ").ok_or(Unread::Bad)?;
    let (byte, text) = cut(rest, " ").ok_or(Unread::Bad)?;
    let place = number_of(place)?;
    let byte = byte_of(byte)?;
    let story = story_after_write(alloc, place, byte, text)?;
    let opened = opened_text(alloc, &story)?;
    let size = story.disk.file().len();
    Ok(format!(in alloc; "{opened}; {size} bytes")?)
}

fn story_after_write(
    alloc: Global,
    place: u64,
    byte: u8,
    text: &str,
) -> Result<Story<MemoryDisk>, Unread> {
    let mut disk = filled(alloc, text)?;
    if place > disk.file().len() as u64 {
        return Err(Unread::Bad);
    }
    disk.write_at(place, &[byte])?;
    look(alloc, disk)
}

/// How many of the bytes that may stand at a place leave a front of the payloads, other payloads, and a damaged file.
#[derive(Clone, Copy, Debug)]
struct Changes {
    fronts: u64,
    others: u64,
    damaged: u64,
}

/// `changes PAYLOADS`: how many of the 256 bytes at each place leave what.
pub fn after_each_change(alloc: Global, text: &str) -> Result<String, Unread> {
    let whole = filled(alloc, text)?;
    let texts = payloads_of(alloc, text)?;
    let mut made = String::new(alloc);
    for place in 0..whole.file().len() as u64 {
        let changes = changes_at(alloc, place, text, texts.as_slice())?;
        let Changes {
            fronts,
            others,
            damaged,
        } = changes;
        made.push_str(format!(in alloc; "{fronts}/{others}/{damaged} ")?.as_str())?;
    }
    made.push_str("end")?;
    Ok(made)
}

fn changes_at(alloc: Global, place: u64, text: &str, texts: &[&str]) -> Result<Changes, Unread> {
    let mut changes = Changes {
        fronts: 0,
        others: 0,
        damaged: 0,
    };
    for byte in 0..=255u8 {
        let story = story_after_write(alloc, place, byte, text)?;
        count_change(&mut changes, &story, texts)?;
    }
    Ok(changes)
}

fn count_change(
    changes: &mut Changes,
    story: &Story<MemoryDisk>,
    texts: &[&str],
) -> Result<(), Unread> {
    match story.fault {
        Some(JournalFault::Damaged(_)) => changes.damaged = changes.damaged.saturating_add(1),
        Some(_) => return Err(Unread::Bad),
        None => {
            if is_front_of(story.kept.as_slice(), texts) {
                changes.fronts = changes.fronts.saturating_add(1);
            } else {
                changes.others = changes.others.saturating_add(1);
            }
        }
    }
    Ok(())
}
