use crate::disks::{failing_disk, tears_by};
use crate::stories::{Story, tell};
use crate::words::{number_of, opened_text, payload_text, payloads_of};
use ak_base::{List, cut};
use ak_disks::MemoryDisk;
use ak_io::End;
use cases_lines::{Unread, bytes_text};
use std::alloc::Global;

/// `fails CALLS LEFT PAYLOADS`: what is kept and what is under way if these calls fail, how many failed, and the file.
pub fn after_fails(alloc: Global, rest: &str) -> Result<String, Unread> {
    let (calls, rest) = cut(rest, " ").ok_or(Unread::Bad)?;
    let (left, text) = cut(rest, " ").ok_or(Unread::Bad)?;
    let disk = failing_disk(calls_of(alloc, calls)?, tears_by(left)?)?;
    let texts = payloads_of(alloc, text)?;
    let story = tell(alloc, disk, texts.as_slice())?;
    told(alloc, &story)
}

/// The numbers of a text, a comma between them.
fn calls_of(alloc: Global, text: &str) -> Result<List<u64>, Unread> {
    let mut calls = List::new(alloc);
    for part in text.split(",") {
        calls.push(number_of(part)?)?;
    }
    Ok(calls)
}

fn told(alloc: Global, story: &Story<MemoryDisk>) -> Result<String, Unread> {
    let opened = opened_text(alloc, story)?;
    let under_way = match &story.under_way {
        Some(payload) => payload_text(payload.as_slice()),
        None => "none",
    };
    let faults = story.disk.faults();
    let file = bytes_text(alloc, story.disk.file())?;
    Ok(format!(in alloc; "{opened}; under way: {under_way}; {faults} faults; {file}")?)
}
