ghost use Rattle.std.specs.Prelude.{◌≡◌, None};
ghost use Rattle.ak_io.specs.Ends.{uncertain};

use ak_account_keepers::MakeKeeper;
use ak_io::End;
use ak_keep::{KeepFault, Lookup};
use ak_tables::{OpenTables, TableKeeper};
use std::marker::PhantomData;

/// A maker of keepers over files of tables. A file that is not there is made.
#[derive(Drop)]
pub(crate) struct TableMaker<'r, T> {
    rt: &'r HostRuntime,
    faults: u64,
    tables: PhantomData<T>,
}

impl<'r, T: OpenTables> TableMaker<'r, T> {
    /// No keeper was made yet.
    pub(crate) fn new(rt: &'r HostRuntime) -> TableMaker<'r, T> {
        TableMaker {
            rt,
            faults: 0,
            tables: PhantomData,
        }
    }
}

impl<'r, T: OpenTables> End for TableMaker<'r, T> {
    ghost health = { λ maker. uncertain maker.faults };

    fn faults(&self) -> u64 {
        self.faults
    }
}

impl<'r, T: OpenTables> MakeKeeper for TableMaker<'r, T> {
    type Keeper = TableKeeper<T>;

    ghost to_come = { λ maker. None };

    fn make(&mut self, file: &str) -> Result<TableKeeper<T>, KeepFault> {
        match TableKeeper::over_file(self.rt, file) {
            Ok(keeper) => Ok(keeper),
            Err(fault) => {
                if fault == KeepFault::Failed {
                    self.faults = self.faults.saturating_add(1);
                }
                Err(fault)
            }
        }
    }

    fn give_back(&mut self, keeper: TableKeeper<T>) {
        if keeper.faults() > 0 {
            self.faults = self.faults.saturating_add(1);
        }
    }
}
