use crate::devices::Device;
use crate::disks::CrashDisk;
use crate::scripts::Script;
use cases_lines::Unread;
use serde_json::Value;
use std::alloc::Global;

/// `reopened [OPENING-MOMENT, [RUN, ..]]`: what each run is told as if the journal is opened for it and closed after it.
pub fn reopened_texts<D: CrashDisk>(alloc: Global, arguments: &Value) -> Result<String, Unread> {
    let script = Script::of::<D>(alloc, arguments)?;
    texts_beside::<D>(alloc, &script)
}

fn texts_beside<D: CrashDisk>(alloc: Global, script: &Script<'_>) -> Result<String, Unread> {
    let mut device: Device<D> = Device::with(alloc, D::sound(alloc)?, script.arguments)?;
    device.texts_beside(alloc, script)
}

impl<D: CrashDisk> Device<D> {
    fn texts_beside(&mut self, alloc: Global, script: &Script<'_>) -> Result<String, Unread> {
        let mut texts = String::new(alloc);
        for (place, run) in script.runs.iter().enumerate() {
            let text = self.text_beside(alloc, script, place, run)?;
            texts.push_str(text.as_str())?;
            texts.push_str(" / ")?;
        }
        texts.push_str("end")?;
        Ok(texts)
    }

    /// What the run at a place is told as. A remark follows if the script tells it otherwise, and one if the journal, opened
    /// again, holds another collection than the script's.
    fn text_beside(
        &mut self,
        alloc: Global,
        script: &Script<'_>,
        place: usize,
        run: &Value,
    ) -> Result<String, Unread> {
        let mut text = self.reopened_text(alloc, run)?;
        if !script.is_text(place, text.as_str()) {
            text.push_str(" but not in a journal that stays open")?;
        }
        let held = self.held_text(alloc)?;
        if !script.is_state(place.saturating_add(1), held.as_str()) {
            text.push_str(" but other rows")?;
        }
        Ok(text)
    }

    /// What a run is told as over the journal, which is opened for it.
    fn reopened_text(&mut self, alloc: Global, run: &Value) -> Result<String, Unread> {
        self.journal.open(alloc)?;
        let text = self.run_text(alloc, run, 0)?;
        self.journal.close();
        Ok(text)
    }

    /// The collection that the journal holds when it is opened.
    fn held_text(&mut self, alloc: Global) -> Result<String, Unread> {
        self.journal.open(alloc)?;
        let text = self.collection_text(alloc)?;
        self.journal.close();
        Ok(text)
    }
}
