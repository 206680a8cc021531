use crate::file_commands::answer_of_file;
use crate::in_memory::{run_alone, run_in_turn};
use crate::kept_files::Files;
use crate::reopened::{run_beside, run_served};
use crate::synced::run_synced;
use ak_tables::OpenTables;
use cases_lines::{Answers, Unread};
use serde_json::Value;
use std::alloc::Global;

impl<T: OpenTables> Answers for Files<'_, T> {
    fn answer(&mut self, alloc: Global, word: &str, rest: &str) -> Result<String, Unread> {
        match word {
            "run" | "runs" | "over" | "reopened" | "served" | "synced" => {
                answer_of_runs(alloc, self, word, rest)
            },
            _ => answer_of_file(alloc, self, word, rest),
        }
    }
}

fn answer_of_runs<T: OpenTables>(
    alloc: Global,
    files: &mut Files<'_, T>,
    word: &str,
    rest: &str,
) -> Result<String, Unread> {
    match Value::from_str(alloc, rest) {
        Ok(arguments) => answer_by(alloc, files, word, &arguments),
        Err(_) => Err(Unread::Bad),
    }
}

fn answer_by<T: OpenTables>(
    alloc: Global,
    files: &mut Files<'_, T>,
    word: &str,
    arguments: &Value,
) -> Result<String, Unread> {
    match word {
        "run" => run_alone(alloc, arguments),
        "runs" => run_in_turn(alloc, arguments),
        "over" => files.text_in_file(alloc, arguments),
        "served" => run_served(alloc, files, arguments),
        "synced" => run_synced(alloc, arguments),
        _ => run_beside(alloc, files, arguments),
    }
}
