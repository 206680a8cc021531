use cases_lines::{Unread, list_at};
use serde_json::Value;
use std::alloc::Global;

/// What runs the program again and again over what it holds.
pub trait RunsCases {
    /// What the next run is told as.
    fn next_text(&mut self, alloc: Global, run: &Value) -> Result<String, Unread>;
}

/// What the runs that are listed at a place of the arguments are told as, one after another, each with ` / ` after it.
pub fn run_texts<R: RunsCases>(
    alloc: Global,
    runs: &mut R,
    arguments: &Value,
    place: usize,
) -> Result<String, Unread> {
    let mut texts = String::new(alloc);
    for run in list_at(arguments, place)? {
        texts.push_str(runs.next_text(alloc, run)?.as_str())?;
        texts.push_str(" / ")?;
    }
    Ok(texts)
}
