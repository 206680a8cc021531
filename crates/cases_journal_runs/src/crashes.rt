use crate::devices::Device;
use crate::disks::{CALLS, CrashDisk};
use crate::scripts::Script;
use cases_lines::{Unread, natural_at};
use serde_json::Value;
use std::alloc::Global;

/// At how many calls the disk stopped before the runs were done; how many images held the collection as it was committed, with
/// the run that was stopped, and anything else; and over how many the runs went on.
#[derive(Clone, Copy, Debug)]
struct Counts {
    stops: u64,
    committed: u64,
    under_way: u64,
    others: u64,
    gone_on: u64,
}

impl Counts {
    fn none() -> Counts {
        Counts {
            stops: 0,
            committed: 0,
            under_way: 0,
            others: 0,
            gone_on: 0,
        }
    }

    /// Counts the collection of an image if so many runs were done, and says with which run the script goes on over it.
    fn next_run(&mut self, script: &Script<'_>, done: usize, held: &str) -> Option<usize> {
        let next = done.saturating_add(1);
        if script.is_state(done, held) {
            self.committed = self.committed.saturating_add(1);
            Some(done)
        } else if script.is_state(next, held) {
            self.under_way = self.under_way.saturating_add(1);
            Some(next)
        } else {
            self.others = self.others.saturating_add(1);
            None
        }
    }
}

/// `stops [OPENING-MOMENT, [RUN, ..], IMAGES]`: how many images hold what.
pub fn counts_of_stops<D: CrashDisk>(alloc: Global, arguments: &Value) -> Result<String, Unread> {
    let images = natural_at(arguments, 2)?;
    let script = Script::of::<D>(alloc, arguments)?;
    let counts = counted::<D>(alloc, &script, images)?;
    counts_text(alloc, counts)
}

fn counts_text(alloc: Global, counts: Counts) -> Result<String, Unread> {
    let Counts {
        stops,
        committed,
        under_way,
        others,
        gone_on,
    } = counts;
    Ok(format!(in alloc;
        "{stops} stops: {committed} as committed, {under_way} with the run, {others} others; {gone_on} went on"
    )?)
}

/// Lets the disk stop at each of its calls in turn, until the runs are done before it does.
fn counted<D: CrashDisk>(
    alloc: Global,
    script: &Script<'_>,
    images: u64,
) -> Result<Counts, Unread> {
    let mut counts = Counts::none();
    for stop in 0..CALLS {
        if is_done_before::<D>(alloc, script, stop)? {
            return Ok(counts);
        }
        counts.stops = counts.stops.saturating_add(1);
        for pick in 0..images {
            count_image::<D>(alloc, script, stop, pick, &mut counts)?;
        }
    }
    Ok(counts)
}

/// Whether the runs are done before the disk stops at this call.
fn is_done_before<D: CrashDisk>(
    alloc: Global,
    script: &Script<'_>,
    stop: u64,
) -> Result<bool, Unread> {
    let mut device: Device<D> = stopping_device(alloc, script, stop)?;
    let done = script.done_over(alloc, &mut device)?;
    Ok(done == script.runs.len())
}

/// Counts what the image holds that a number picks of the disk that stopped at a call. The server takes part in what follows, so
/// each image has one of its own.
fn count_image<D: CrashDisk>(
    alloc: Global,
    script: &Script<'_>,
    stop: u64,
    pick: u64,
    counts: &mut Counts,
) -> Result<(), Unread> {
    let mut device: Device<D> = stopping_device(alloc, script, stop)?;
    device.count_crash(alloc, script, pick, counts)
}

/// A device whose disk stops at this call.
fn stopping_device<D: CrashDisk>(
    alloc: Global,
    script: &Script<'_>,
    stop: u64,
) -> Result<Device<D>, Unread> {
    Device::with(alloc, D::stopping(alloc, stop)?, script.arguments)
}

impl<D: CrashDisk> Device<D> {
    /// Makes the runs until the disk stops, counts what the image of a crash holds that is opened then, and lets the others go on.
    fn count_crash(
        &mut self,
        alloc: Global,
        script: &Script<'_>,
        pick: u64,
        counts: &mut Counts,
    ) -> Result<(), Unread> {
        let done = script.done_over(alloc, self)?;
        let held = self.text_after_crash(alloc, pick)?;
        match counts.next_run(script, done, held.as_str()) {
            Some(from) => self.count_going_on(alloc, script, from, counts),
            None => Ok(()),
        }
    }

    /// The collection that is held when the image is opened that a number picks.
    fn text_after_crash(&mut self, alloc: Global, pick: u64) -> Result<String, Unread> {
        self.journal.crash(pick)?;
        self.journal.open(alloc)?;
        self.collection_text(alloc)
    }

    fn count_going_on(
        &mut self,
        alloc: Global,
        script: &Script<'_>,
        from: usize,
        counts: &mut Counts,
    ) -> Result<(), Unread> {
        if script.goes_on(alloc, from, self)? {
            counts.gone_on = counts.gone_on.saturating_add(1);
        }
        Ok(())
    }
}
