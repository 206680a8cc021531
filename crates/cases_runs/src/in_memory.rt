use crate::run_lists::{RunsCases, run_texts};
use crate::runs::{numbers_at, run_text};
use ak_keep::Lookup;
use ak_memory::MemoryKeeper;
use ak_sync_runs::NoServer;
use cases_lines::Unread;
use serde_json::Value;
use std::alloc::Global;

/// `run RUN`: what a run over an empty keeper is told as.
pub fn run_alone(alloc: Global, run: &Value) -> Result<String, Unread> {
    let mut keeper = MemoryKeeper::new(alloc);
    run_text(alloc, &mut keeper, &mut NoServer::new(), run)
}

/// `runs [FAILING-CALLS, [RUN, ..]]`: what each run over one keeper is told as, and the faults of the keeper.
pub fn run_in_turn(alloc: Global, arguments: &Value) -> Result<String, Unread> {
    let mut runs = OneKeeper {
        keeper: MemoryKeeper::new(alloc),
    };
    runs.texts(alloc, arguments)
}

/// The keeper of all runs of a line.
#[derive(Drop)]
struct OneKeeper {
    keeper: MemoryKeeper,
}

impl OneKeeper {
    fn texts(&mut self, alloc: Global, arguments: &Value) -> Result<String, Unread> {
        self.keeper.fail_at(numbers_at(alloc, arguments, 0)?);
        let texts = run_texts(alloc, self, arguments, 1)?;
        let faults = self.keeper.faults();
        Ok(format!(in alloc; "{texts}keeper {faults}")?)
    }
}

impl RunsCases for OneKeeper {
    fn next_text(&mut self, alloc: Global, run: &Value) -> Result<String, Unread> {
        run_text(alloc, &mut self.keeper, &mut NoServer::new(), run)
    }
}
