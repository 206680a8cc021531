ghost use Rattle.std.specs.Prelude.{◌≡◌, ◌≤◌, true, false, IfOk, ⊤};
ghost use Rattle.ak_faults.specs.Causes.{one_more};
ghost use Rattle.ak_sqlite.specs.declared.faults.FileFault.TheVariants.{Failed, Memory as WantOfMemory};

use crate::faults::FileFault;
use crate::layouts::make_tables;
use crate::reads::read_all;
use crate::writes::{ended, write_all};
use ak_base::Head;
use ak_keep::KeepFault;
use ak_memory::MarkedRows;
use ak_tables::{OpenTables, StoredCollection, Tables, Touched};
use sqlite::{Alter, Connection, File, FileStore};
use std::alloc::Global;
use std::marker::Model;
use std::rt::HostRuntime;

/// The tables of schema 11 in a SQLite file, over one connection. Seen as the count of its faults, and whether a transaction
/// is open. When it is dropped, it is closed, and all of the collection is in the one file.
pub struct SqliteTables {
    alloc: Global,
    conn: Connection<FileStore<File>>,
    faults: u64,
}

impl Model for SqliteTables {
    ghost use Rattle.std.specs.Prelude.{◌≡◌, ℕ, Bool, false};
    ghost use Rattle.std.specs.Coded.{coded×, coded_ℕ, coded_bool};

    ghost Value = { ℕ × Bool };

    ghost coded = { coded× coded_ℕ coded_bool };

    ghost view = { λ tables. (tables.faults, tables.conn.in_transaction) };

    ghost invariant = { λ tables. tables.conn.in_transaction ≡ false };
}

impl SqliteTables {
    /// Whether no transaction is open. None is between two calls.
    pub fn is_idle(&self) -> bool
        ensures idle { result ≡ true }
        ensures closed { self.now.1 ≡ false }
    {
        self.conn.is_autocommit()
    }
}

impl Drop for SqliteTables {
    fn drop(self) {
        let SqliteTables {
            alloc: _,
            conn,
            faults: _,
        } = self;
        let _ = conn.close();
    }
}

impl Tables for SqliteTables {
    // What a file holds is known to nobody.
    ghost stores = { λ _ _. ⊤ };

    ghost is_ready = { λ _. true };

    ghost health = { λ tables. record { faults = tables.0; calm = false } };

    ghost moment = { λ _. 0 };

    ghost may_have_left = { λ _ _ _. ⊤ };

    ghost stands_for = { λ _ _ _. ⊤ };

    fn faults(&self) -> u64 {
        self.faults
    }

    // A refused transaction was given up whole.
    fn ready(&mut self) -> Result<(), KeepFault> {
        Ok(())
    }

    fn write(
        &mut self,
        rows: &MarkedRows,
        head: &Option<Head>,
        touched: &Touched,
    ) -> Result<(), KeepFault> {
        match write_through(&mut self.conn, rows, head, touched) {
            Ok(()) => return Ok(()),
            Err(fault) => {
                self.faults = faults_after(self.faults, fault);
                return Err(KeepFault::from(fault));
            }
        }
    }
}

impl OpenTables for SqliteTables {
    fn open(rt: &HostRuntime, path: &str) -> Result<SqliteTables, KeepFault> {
        let mut conn = opened(rt, path)?;
        make_tables(&mut conn)?;
        Ok(SqliteTables {
            alloc: rt.alloc(),
            conn,
            faults: 0,
        })
    }

    fn read(&mut self) -> Result<StoredCollection, KeepFault> {
        match read_all(self.alloc, &mut self.conn) {
            Ok(read) => return Ok(read),
            Err(fault) => {
                self.faults = faults_after(self.faults, fault);
                return Err(KeepFault::from(fault));
            }
        }
    }
}

/// Writes in one transaction, which is given up if anything in it is refused.
fn write_through<S: Alter>(
    conn: &mut Connection<S>,
    rows: &MarkedRows,
    head: &Option<Head>,
    touched: &Touched,
) -> Result<(), FileFault>
    requires { conn.old.in_transaction ≡ false }
    ensures { conn.new.in_transaction ≡ false }
{
    let mut transaction = conn.transaction();
    match write_all(&mut transaction, rows, head, touched) {
        Ok(()) => {
            let committed = transaction.commit();
            ended(committed)
        }
        Err(fault) => {
            transaction.rollback();
            Err(fault)
        }
    }
}

/// The count of faults after a refusal. Running out of memory is no fault.
fn faults_after(faults: u64, fault: FileFault) -> u64
    ensures failed { fault ≡ Failed → result ≡ one_more faults }
    ensures memory { fault ≡ WantOfMemory → result ≡ faults }
    ensures later { faults ≤ result }
{
    match fault {
        FileFault::Failed => faults.saturating_add(1),
        FileFault::Memory => faults,
    }
}

/// A connection to the file at this path, which is made if it is not there.
fn opened(rt: &HostRuntime, path: &str) -> Result<Connection<FileStore<File>>, FileFault>
    ensures { IfOk result (λ conn. conn.in_transaction ≡ false) }
{
    match Connection::open(rt, path) {
        Ok(conn) => Ok(conn),
        Err(error) => Err(FileFault::from(error)),
    }
}
