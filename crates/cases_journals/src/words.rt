use crate::stories::Story;
use ak_disks::Disk;
use ak_journals::JournalFault;
use cases_lines::Unread;
use std::alloc::Global;
use std::str;

/// What a disk was opened as: the payloads, or why it was not opened.
pub fn opened_text<D: Disk>(alloc: Global, story: &Story<D>) -> Result<String, Unread> {
    match story.fault {
        Some(fault) => fault_text(alloc, fault),
        None => payloads_text(alloc, story.kept.as_slice()),
    }
}

/// Why a disk was not opened.
pub fn fault_text(alloc: Global, fault: JournalFault) -> Result<String, Unread> {
    match fault {
        JournalFault::Damaged(place) => Ok(format!(in alloc; "damaged at {place}")?),
        JournalFault::Failed => Ok(String::from_str(alloc, "failed")?),
        JournalFault::Memory => Err(Unread::Ended),
    }
}

/// How many payloads there are, and each of them.
fn payloads_text(alloc: Global, payloads: &[Vec<u8>]) -> Result<String, Unread> {
    let count = payloads.len();
    let mut made = format!(in alloc; "{count} payloads:")?;
    for payload in payloads {
        made.push_str(" ")?;
        made.push_str(payload_text(payload.as_slice()))?;
    }
    Ok(made)
}

/// A payload as a text.
pub fn payload_text(payload: &[u8]) -> &str {
    match str::from_utf8(payload) {
        Ok(text) => text,
        Err(_) => "no text",
    }
}

/// The payloads of a text, a bar between them; none if it is empty.
pub fn payloads_of(alloc: Global, text: &str) -> Result<Vec<&str>, Unread> {
    let mut texts = Vec::new(alloc);
    if text.is_empty() {
        return Ok(texts);
    }
    for part in text.split("|") {
        texts.push(part)?;
    }
    Ok(texts)
}

/// The number that a text is.
pub fn number_of(text: &str) -> Result<u64, Unread> {
    match text.parse::<u64>() {
        Ok(number) => Ok(number),
        Err(_) => Err(Unread::Bad),
    }
}

/// The byte that a text is.
pub fn byte_of(text: &str) -> Result<u8, Unread> {
    match text.parse::<u8>() {
        Ok(byte) => Ok(byte),
        Err(_) => Err(Unread::Bad),
    }
}
