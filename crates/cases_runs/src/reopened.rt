use crate::kept_files::Files;
use crate::run_lists::{RunsCases, run_texts};
use crate::servers::row_counts;
use crate::synced::text_over;
use crate::twins::hold_the_same;
use ak_sync_in_memory::LoggedServer;
use ak_tables::OpenTables;
use cases_accounts::{empty_account, moment_at};
use cases_lines::Unread;
use serde_json::Value;
use std::alloc::Global;

/// `reopened [[RUN, ..]]`: what each run over a new file is told as. The file is closed then.
pub fn run_beside<T: OpenTables>(
    alloc: Global,
    files: &mut Files<'_, T>,
    arguments: &Value,
) -> Result<String, Unread> {
    files.forget();
    let mut texts = run_texts(alloc, files, arguments, 0)?;
    texts.push_str("end")?;
    Ok(texts)
}

/// `served [OPENING-MOMENT, [RUN, ..]]`: the same, with a server each for the file and the twin, and how many rows of each table
/// the file's server holds then.
pub fn run_served<T: OpenTables>(
    alloc: Global,
    files: &mut Files<'_, T>,
    arguments: &Value,
) -> Result<String, Unread> {
    let moment = moment_at(arguments, 0)?;
    files.forget();
    files.server = Some(empty_account(alloc, moment)?);
    files.twin_server = Some(empty_account(alloc, moment)?);
    let mut texts = run_texts(alloc, files, arguments, 1)?;
    texts.push_str("server")?;
    let counts = counts_of(alloc, &mut files.server)?;
    texts.push_str(counts.as_str())?;
    if counts != counts_of(alloc, &mut files.twin_server)? {
        texts.push_str(" but other rows")?;
    }
    Ok(texts)
}

fn counts_of(alloc: Global, server: &mut Option<LoggedServer>) -> Result<String, Unread> {
    match server {
        Some(server) => row_counts(alloc, server),
        None => Err(Unread::Bad),
    }
}

impl<T: OpenTables> Files<'_, T> {
    /// `over RUN`: what a run over the file, which is opened for it and closed again, is told as.
    pub fn text_in_file(&mut self, alloc: Global, run: &Value) -> Result<String, Unread> {
        let text = match self.open() {
            Ok(()) => match &mut self.keeper {
                Some(keeper) => text_over(alloc, keeper, &mut self.server, run),
                None => not_opened(alloc),
            },
            Err(_) => not_opened(alloc),
        };
        self.close();
        text
    }

    /// Whether the file, opened again, holds what the twin holds.
    fn is_like_its_twin(&mut self) -> bool {
        let is_like = match self.open() {
            Ok(()) => match &mut self.keeper {
                Some(keeper) => hold_the_same(keeper, &mut self.twin),
                None => false,
            },
            Err(_) => false,
        };
        self.close();
        is_like
    }
}

fn not_opened(alloc: Global) -> Result<String, Unread> {
    Ok(String::from_str(alloc, "not opened")?)
}

impl<T: OpenTables> RunsCases for Files<'_, T> {
    /// What a run over the file is told as. It is followed by what the twin is told as if that is another text, and by a remark
    /// if the file, opened again, holds another collection than the twin.
    fn next_text(&mut self, alloc: Global, run: &Value) -> Result<String, Unread> {
        let mut text = self.text_in_file(alloc, run)?;
        let of_twin = text_over(alloc, &mut self.twin, &mut self.twin_server, run)?;
        if text.as_str() != of_twin.as_str() {
            text.push_str(" but in memory ")?;
            text.push_str(of_twin.as_str())?;
        }
        if !self.is_like_its_twin() {
            text.push_str(" but other rows")?;
        }
        Ok(text)
    }
}
