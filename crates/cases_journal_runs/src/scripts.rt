use crate::devices::Device;
use crate::disks::CrashDisk;
use cases_lines::{Unread, list_at};
use serde_json::Value;
use std::alloc::Global;

/// What is added to the words of chance of runs that go on after a crash: a session of a sync never has the key of an earlier one.
const AGAIN: u64 = 1000;

/// Runs, and what comes of them over a journal that stays open on a disk that never stops.
#[derive(Drop)]
pub struct Script<'v> {
    /// `[OPENING-MOMENT, [RUN, ..], ..]`.
    pub arguments: &'v Value,
    pub runs: &'v [Value],
    /// What each run is told as.
    texts: Vec<String>,
    /// The collection before each run, and after the last.
    states: Vec<String>,
}

impl<'v> Script<'v> {
    /// The script of the arguments, run once.
    pub fn of<D: CrashDisk>(alloc: Global, arguments: &'v Value) -> Result<Script<'v>, Unread> {
        let runs = list_at(arguments, 1)?;
        let mut script = Script {
            arguments,
            runs,
            texts: Vec::new(alloc),
            states: Vec::new(alloc),
        };
        script.record::<D>(alloc)?;
        Ok(script)
    }

    fn record<D: CrashDisk>(&mut self, alloc: Global) -> Result<(), Unread> {
        let mut device: Device<D> = Device::with(alloc, D::sound(alloc)?, self.arguments)?;
        self.record_over(alloc, &mut device)
    }

    fn record_over<D: CrashDisk>(
        &mut self,
        alloc: Global,
        device: &mut Device<D>,
    ) -> Result<(), Unread> {
        device.journal.open(alloc)?;
        self.states.push(device.collection_text(alloc)?)?;
        let runs = self.runs;
        for run in runs {
            self.texts.push(device.run_text(alloc, run, 0)?)?;
            self.states.push(device.collection_text(alloc)?)?;
        }
        Ok(())
    }

    /// Whether the run at this place is told so.
    pub fn is_text(&self, place: usize, text: &str) -> bool {
        is_at(self.texts.as_slice(), place, text)
    }

    /// Whether the text is that of the collection after so many runs.
    pub fn is_state(&self, done: usize, text: &str) -> bool {
        is_at(self.states.as_slice(), done, text)
    }

    /// How many runs come to the same end over the device, which is opened. The first that does not is the last that is made.
    pub fn done_over<D: CrashDisk>(
        &self,
        alloc: Global,
        device: &mut Device<D>,
    ) -> Result<usize, Unread> {
        device.journal.open(alloc)?;
        for (place, run) in self.runs.iter().enumerate() {
            let text = device.run_text(alloc, run, 0)?;
            if !self.is_text(place, text.as_str()) {
                return Ok(place);
            }
        }
        Ok(self.runs.len())
    }

    /// Whether the runs from this one on, and the last one in each case, go on over the device, so that the last is told as it was.
    pub fn goes_on<D: CrashDisk>(
        &self,
        alloc: Global,
        from: usize,
        device: &mut Device<D>,
    ) -> Result<bool, Unread> {
        let mut is_as_told = false;
        for (place, run) in self.runs.iter().enumerate() {
            if place >= from || self.is_last(place) {
                let text = device.run_text(alloc, run, AGAIN)?;
                is_as_told = self.is_text(place, text.as_str());
            }
        }
        Ok(is_as_told)
    }

    fn is_last(&self, place: usize) -> bool {
        place == self.runs.len().saturating_sub(1)
    }
}

/// Whether this text stands at the place.
fn is_at(texts: &[String], place: usize, text: &str) -> bool {
    match texts.get(place) {
        Some(told) => told.as_str() == text,
        None => false,
    }
}
