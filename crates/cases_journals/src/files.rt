use crate::stories::{look, tell};
use crate::words::{opened_text, payloads_of};
use ak_base::cut;
use ak_disks::Disk;
use ak_file_disks::FileDisk;
use cases_lines::Unread;
use std::alloc::Global;
use std::fs;
use std::rt::HostRuntime;

/// The answer to a command over a file of the system.
pub fn answer_of_file(
    alloc: Global,
    rt: &HostRuntime,
    word: &str,
    rest: &str,
) -> Result<String, Unread> {
    match word {
        "file" => committed(alloc, rt, rest),
        "kept" => kept(alloc, rt, rest),
        "beside" => opened_beside(alloc, rt, rest),
        "size" => size_text(alloc, rt, rest),
        _ => Err(Unread::Bad),
    }
}

/// `file NAME PAYLOADS`: what the file opens as after it was emptied and these were committed.
fn committed(alloc: Global, rt: &HostRuntime, rest: &str) -> Result<String, Unread> {
    let (name, text) = cut(rest, " ").ok_or(Unread::Bad)?;
    let texts = payloads_of(alloc, text)?;
    let mut disk = FileDisk::open(rt, name);
    if disk.cut(0).is_err() {
        return Ok(String::from_str(alloc, "failed")?);
    }
    let story = tell(alloc, disk, texts.as_slice())?;
    drop(story);
    kept(alloc, rt, name)
}

/// `kept NAME`: what the file opens as.
fn kept(alloc: Global, rt: &HostRuntime, name: &str) -> Result<String, Unread> {
    let story = look(alloc, FileDisk::open(rt, name))?;
    opened_text(alloc, &story)
}

/// `beside NAME`: what the file opens as a second time, while it stays open.
fn opened_beside(alloc: Global, rt: &HostRuntime, name: &str) -> Result<String, Unread> {
    let first = look(alloc, FileDisk::open(rt, name))?;
    let second = kept(alloc, rt, name);
    drop(first);
    second
}

/// `size NAME`: how many bytes the file has.
fn size_text(alloc: Global, rt: &HostRuntime, name: &str) -> Result<String, Unread> {
    match fs::metadata(rt, name) {
        Ok(metadata) => {
            let size = metadata.len();
            Ok(format!(in alloc; "{size} bytes")?)
        }
        Err(_) => Ok(String::from_str(alloc, "no file")?),
    }
}
