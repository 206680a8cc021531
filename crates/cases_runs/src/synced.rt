use crate::run_lists::{RunsCases, run_texts};
use crate::runs::{numbers_at, run_text};
use crate::servers::{row_counts, server_moment};
use ak_base::{List, cut};
use ak_keep::{Keeper, Lookup};
use ak_memory::MemoryKeeper;
use ak_sync_in_memory::{LoggedServer, LoopWire, NothingBetween};
use ak_sync_runs::NoServer;
use cases_accounts::{empty_account, moment_at};
use cases_keepers::answer_of;
use cases_lines::Unread;
use serde_json::Value;
use std::alloc::Global;

/// `synced [OPENING-MOMENT, FAILING-CALLS, [RUN, ..]]`: what each run over one keeper, and a wire in memory to one server, is
/// told as, the faults of the keeper, and how many rows of each table the server holds then.
pub fn run_synced(alloc: Global, arguments: &Value) -> Result<String, Unread> {
    let moment = moment_at(arguments, 0)?;
    let server = empty_account(alloc, moment)?;
    run_with(alloc, server, arguments)
}

fn run_with(alloc: Global, server: LoggedServer, arguments: &Value) -> Result<String, Unread> {
    let mut sides = Sides {
        keeper: MemoryKeeper::new(alloc),
        server: Some(server),
    };
    sides.texts(alloc, arguments)
}

/// The device's keeper, and the server while no wire has it.
#[derive(Drop)]
struct Sides {
    keeper: MemoryKeeper,
    server: Option<LoggedServer>,
}

impl Sides {
    fn texts(&mut self, alloc: Global, arguments: &Value) -> Result<String, Unread> {
        self.keeper.fail_at(numbers_at(alloc, arguments, 1)?);
        let mut texts = run_texts(alloc, self, arguments, 2)?;
        let faults = self.keeper.faults();
        texts.push_str(format!(in alloc; "keeper {faults} server")?.as_str())?;
        texts.push_str(self.counts(alloc)?.as_str())?;
        Ok(texts)
    }

    /// What a command of the device's keeper prints.
    fn keeper_text(&mut self, alloc: Global, command: &str) -> Result<String, Unread> {
        match cut(command, " ") {
            Some((word, rest)) => answer_of(alloc, &mut self.keeper, word, rest),
            None => answer_of(alloc, &mut self.keeper, command, ""),
        }
    }

    fn counts(&mut self, alloc: Global) -> Result<String, Unread> {
        match &mut self.server {
            Some(server) => row_counts(alloc, server),
            None => Err(Unread::Bad),
        }
    }
}

impl RunsCases for Sides {
    /// What a run is told as. A text is a command of the device's keeper.
    fn next_text(&mut self, alloc: Global, run: &Value) -> Result<String, Unread> {
        match run.as_str() {
            Some(command) => self.keeper_text(alloc, command),
            None => text_over(alloc, &mut self.keeper, &mut self.server, run),
        }
    }
}

/// What a run over a wire in memory to the server is told as; if there is no server, no request gets an answer. The server's
/// clock stands at the moment after the run's words of chance, or at 1700000000000.
pub fn text_over<K: Keeper>(
    alloc: Global,
    keeper: &mut K,
    server: &mut Option<LoggedServer>,
    run: &Value,
) -> Result<String, Unread> {
    let moment = server_moment(run)?;
    match server.take() {
        Some(held) => {
            let mut wire = LoopWire::new(held, moment, List::new(alloc), NothingBetween);
            let text = run_text(alloc, keeper, &mut wire, run);
            let (held, _nothing) = wire.into_parts();
            *server = Some(held);
            text
        },
        None => run_text(alloc, keeper, &mut NoServer::new(), run),
    }
}
