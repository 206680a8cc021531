use crate::crashes::counts_of_stops;
use crate::disks::CrashDisk;
use crate::keepers::answers_of_keeper;
use crate::reopened::reopened_texts;
use cases_keepers::value_of;
use cases_lines::{Answers, Unread};
use serde_json::Value;
use std::alloc::Global;
use std::marker::PhantomData;

/// What answers the commands, over new disks of one kind.
#[derive(Drop)]
pub struct Commands<D> {
    disks: PhantomData<D>,
}

impl<D: CrashDisk> Commands<D> {
    pub fn new() -> Commands<D> {
        Commands { disks: PhantomData }
    }
}

impl<D: CrashDisk> Answers for Commands<D> {
    fn answer(&mut self, alloc: Global, word: &str, rest: &str) -> Result<String, Unread> {
        match word {
            "keeper" => answers_of_keeper::<D>(alloc, rest),
            "stops" | "reopened" => answer_of_runs::<D>(alloc, word, rest),
            _ => Err(Unread::Bad),
        }
    }
}

fn answer_of_runs<D: CrashDisk>(alloc: Global, word: &str, rest: &str) -> Result<String, Unread> {
    let arguments = value_of(alloc, rest)?;
    answer_by::<D>(alloc, word, &arguments)
}

fn answer_by<D: CrashDisk>(alloc: Global, word: &str, arguments: &Value) -> Result<String, Unread> {
    match word {
        "stops" => counts_of_stops::<D>(alloc, arguments),
        _ => reopened_texts::<D>(alloc, arguments),
    }
}
