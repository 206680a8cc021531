use crate::disks::{calls_from, failing_disk, tears_by};
use crate::stories::{Story, look, tell};
use crate::words::{number_of, payloads_of};
use ak_base::{List, Memory, cut};
use ak_disks::MemoryDisk;
use cases_lines::Unread;
use std::alloc::Global;

/// How many of the calls of a disk are made to fail, one after the other.
const STOPS: u64 = 32;

/// Which calls fail, and what is left of a refused write.
#[derive(Clone, Copy, Debug)]
struct Mode {
    /// Each call from the one that fails on.
    for_good: bool,
    /// The first half of its bytes.
    tears: bool,
}

/// How many images opened as what was kept, as that and the payload under way, and as anything else.
#[derive(Clone, Copy, Debug)]
struct Tally {
    kept: u64,
    under_way: u64,
    others: u64,
}

/// `images COUNT CALLS LEFT PAYLOADS`: how many images open as what.
pub fn tallied(alloc: Global, rest: &str) -> Result<String, Unread> {
    let (count, rest) = cut(rest, " ").ok_or(Unread::Bad)?;
    let (calls, rest) = cut(rest, " ").ok_or(Unread::Bad)?;
    let (left, text) = cut(rest, " ").ok_or(Unread::Bad)?;
    let mode = mode_of(calls, left)?;
    let texts = payloads_of(alloc, text)?;
    let tally = tally_of(alloc, mode, number_of(count)?, texts.as_slice())?;
    let Tally {
        kept,
        under_way,
        others,
    } = tally;
    Ok(format!(in alloc;
        "{kept} as kept, {under_way} with the payload under way, {others} others"
    )?)
}

fn mode_of(calls: &str, left: &str) -> Result<Mode, Unread> {
    let for_good = match calls {
        "one" => false,
        "all" => true,
        _ => return Err(Unread::Bad),
    };
    let tears = tears_by(left)?;
    Ok(Mode { for_good, tears })
}

/// Commits the payloads while each of the first calls fails in turn, and opens so many images after each.
fn tally_of(alloc: Global, mode: Mode, images: u64, texts: &[&str]) -> Result<Tally, Unread> {
    let mut tally = Tally {
        kept: 0,
        under_way: 0,
        others: 0,
    };
    for call in 0..STOPS {
        let disk = stopped_disk(alloc, mode, call)?;
        let story = tell(alloc, disk, texts)?;
        for pick in 0..images {
            tally_image(alloc, &story, pick, &mut tally)?;
        }
    }
    Ok(tally)
}

/// A disk of which this call fails, or each from it on.
fn stopped_disk(alloc: Global, mode: Mode, call: u64) -> Result<MemoryDisk, Memory> {
    if mode.for_good {
        return failing_disk(calls_from(alloc, call)?, mode.tears);
    }
    let mut fails = List::new(alloc);
    fails.push(call)?;
    failing_disk(fails, mode.tears)
}

/// Opens the image that a number picks, commits to it, and opens it again.
fn tally_image(
    alloc: Global,
    story: &Story<MemoryDisk>,
    pick: u64,
    tally: &mut Tally,
) -> Result<(), Unread> {
    let image = story.disk.image(pick)?;
    let Story {
        disk,
        fault,
        kept,
        under_way,
    } = look(alloc, image)?;
    drop(under_way);
    let goes_on = takes_one_more(alloc, disk, kept.as_slice())?;
    count(tally, fault.is_none() && goes_on, story, kept.as_slice());
    Ok(())
}

/// Whether a disk that opened as these payloads takes one more.
fn takes_one_more(alloc: Global, disk: MemoryDisk, kept: &[Vec<u8>]) -> Result<bool, Unread> {
    let more = tell(alloc, disk, &["then"])?;
    let last = look(alloc, more.into_disk())?;
    Ok(are_with(last.kept.as_slice(), kept, b"then"))
}

/// Counts what an image opened as, if it did and goes on.
fn count(tally: &mut Tally, is_good: bool, story: &Story<MemoryDisk>, opened: &[Vec<u8>]) {
    if is_good && are_equal(opened, story.kept.as_slice()) {
        tally.kept = tally.kept.saturating_add(1);
    } else if is_good && are_with_that_under_way(opened, story) {
        tally.under_way = tally.under_way.saturating_add(1);
    } else {
        tally.others = tally.others.saturating_add(1);
    }
}

fn are_with_that_under_way(opened: &[Vec<u8>], story: &Story<MemoryDisk>) -> bool {
    match &story.under_way {
        Some(payload) => are_with(opened, story.kept.as_slice(), payload.as_slice()),
        None => false,
    }
}

/// Whether these are the first ones, and then this payload.
fn are_with(payloads: &[Vec<u8>], first: &[Vec<u8>], payload: &[u8]) -> bool {
    match payloads.split_last() {
        Some((last, front)) => last.as_slice() == payload && are_equal(front, first),
        None => false,
    }
}

fn are_equal(some: &[Vec<u8>], others: &[Vec<u8>]) -> bool {
    if some.len() != others.len() {
        return false;
    }
    for (one, other) in some.iter().zip(others) {
        if one.as_slice() != other.as_slice() {
            return false;
        }
    }
    true
}
