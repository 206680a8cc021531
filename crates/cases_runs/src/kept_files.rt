use ak_keep::KeepFault;
use ak_memory::MemoryKeeper;
use ak_sync_in_memory::LoggedServer;
use ak_tables::{OpenTables, TableKeeper};
use std::fs;
use std::rt::HostRuntime;

/// The one file of all cases, where the program runs.
pub const FILE: &str = "case.db";

/// The file, the keeper over it while it is open, and its twin, a keeper in memory over which the runs of a line `reopened`
/// go too. In a line `served` each has a server of its own.
#[derive(Drop)]
pub struct Files<'a, T: OpenTables> {
    pub rt: &'a HostRuntime,
    pub keeper: Option<TableKeeper<T>>,
    pub twin: MemoryKeeper,
    pub server: Option<LoggedServer>,
    pub twin_server: Option<LoggedServer>,
}

impl<'a, T: OpenTables> Files<'a, T> {
    /// No keeper over the file yet, and an empty twin.
    pub fn new(rt: &'a HostRuntime) -> Files<'a, T> {
        Files {
            rt,
            keeper: None,
            twin: MemoryKeeper::new(rt.alloc()),
            server: None,
            twin_server: None,
        }
    }

    /// Closes the keeper over the file.
    pub fn close(&mut self) {
        self.keeper = None;
    }

    /// Closes the keeper, and takes away the file and its log. The twin is empty, and there is no server.
    pub fn forget(&mut self) {
        self.close();
        let _ = fs::remove_file(self.rt, FILE);
        let _ = fs::remove_file(self.rt, "case.db-wal");
        self.twin = MemoryKeeper::new(self.rt.alloc());
        self.server = None;
        self.twin_server = None;
    }

    /// Closes the keeper, and opens another one over the same file.
    pub fn open(&mut self) -> Result<(), KeepFault> {
        self.close();
        self.keeper = Some(TableKeeper::over_file(self.rt, FILE)?);
        Ok(())
    }

    /// Opens a keeper over the file at this path beside the one that is open, and closes it again.
    pub fn open_beside(&self, path: &str) -> Result<(), KeepFault> {
        let _keeper: TableKeeper<T> = TableKeeper::over_file(self.rt, path)?;
        Ok(())
    }
}
