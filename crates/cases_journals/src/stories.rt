ghost use Rattle.ak_journals.specs.Journals.{IsInOrder};

use ak_disks::Disk;
use ak_io::Failed;
use ak_journals::{DiskFault, Journal, JournalFault, Opened, open};
use cases_lines::Unread;
use std::alloc::Global;

/// What came of committing payloads over a disk.
#[derive(Drop)]
pub struct Story<D: Disk> {
    pub disk: D,
    /// Why the disk was not opened.
    pub fault: Option<JournalFault>,
    pub kept: Vec<Vec<u8>>,
    /// The payload of the last commit, if it was refused.
    pub under_way: Option<Vec<u8>>,
}

impl<D: Disk> Story<D> {
    /// The disk, given back.
    pub fn into_disk(self) -> D {
        let Story {
            disk,
            fault: _,
            kept,
            under_way,
        } = self;
        drop(kept);
        drop(under_way);
        disk
    }
}

/// What came of a payload.
#[derive(Clone, Copy, Debug)]
enum Step {
    Kept,
    Refused,
    NotMarked,
}

/// Opens the disk and marks the journal.
pub fn look<D: Disk + Drop>(alloc: Global, disk: D) -> Result<Story<D>, Unread> {
    let nothing: [&str; 0] = [];
    tell(alloc, disk, &nothing)
}

/// Opens the disk and marks the journal, and then commits these payloads, each after a mark.
pub fn tell<D: Disk + Drop>(alloc: Global, disk: D, texts: &[&str]) -> Result<Story<D>, Unread> {
    match open(alloc, disk) {
        Ok(opened) => {
            let Opened { journal, payloads } = opened;
            commit_each(alloc, journal, payloads, texts)
        }
        Err((fault, disk)) => Ok(Story {
            disk,
            fault: Some(fault),
            kept: Vec::new(alloc),
            under_way: None,
        }),
    }
}

/// Commits these payloads behind those that were kept before.
fn commit_each<D: Disk + Drop>(
    alloc: Global,
    journal: Journal<D>,
    before: Vec<Vec<u8>>,
    texts: &[&str],
) -> Result<Story<D>, Unread>
    requires { IsInOrder D.content D.may_leave journal }
{
    let mut journal = journal;
    // A mark that is refused is made again before the first commit.
    let _ = journal.mark();
    let mut kept = before;
    let mut under_way = None;
    for text in texts {
        let text = *text;
        match commit_next(alloc, &mut journal, text)? {
            Step::Kept => {
                kept.push(Vec::from_slice(alloc, text.as_bytes())?)?;
                under_way = None;
            }
            Step::Refused => under_way = Some(Vec::from_slice(alloc, text.as_bytes())?),
            Step::NotMarked => {}
        }
    }
    Ok(Story {
        disk: journal.into_disk(),
        fault: None,
        kept,
        under_way,
    })
}

/// Commits a payload. A mark of a journal that is ready does nothing.
fn commit_next<D: Disk>(alloc: Global, journal: &mut Journal<D>, text: &str) -> Result<Step, Unread>
    requires { IsInOrder D.content D.may_leave journal.old }
    ensures { IsInOrder D.content D.may_leave journal.new }
{
    let payload = Vec::from_slice(alloc, text.as_bytes())?;
    match journal.mark() {
        Ok(()) => {}
        Err(Failed) => return Ok(Step::NotMarked),
    }
    match journal.commit(payload) {
        Ok(()) => Ok(Step::Kept),
        Err(DiskFault::Failed) => Ok(Step::Refused),
        Err(DiskFault::Memory) => Err(Unread::Ended),
    }
}

/// Whether these payloads are the first of the texts.
pub fn is_front_of(payloads: &[Vec<u8>], texts: &[&str]) -> bool {
    if payloads.len() > texts.len() {
        return false;
    }
    for (payload, text) in payloads.iter().zip(texts) {
        if payload.as_slice() != text.as_bytes() {
            return false;
        }
    }
    true
}
