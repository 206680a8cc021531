ghost use Rattle.std.specs.Prelude.{IfOk};
ghost use Rattle.ak_io.specs.Arrivals.{IsClockMoment};

use ak_base::Table;
use ak_keep::KeepFault;
use ak_sync_in_memory::LoggedServer;
use cases_accounts::moment_at;
use cases_lines::Unread;
use serde_json::Value;
use std::alloc::Global;

/// The moment of the server's clock in a run, in milliseconds.
pub fn server_moment(run: &Value) -> Result<i64, Unread>
    ensures { IfOk result IsClockMoment }
{
    if run.get(7).is_none() {
        return Ok(1_700_000_000_000);
    }
    moment_at(run, 7)
}

/// How many of the first 1,000 rows of each table the server holds, in the order of the tables.
pub fn row_counts(alloc: Global, server: &mut LoggedServer) -> Result<String, Unread> {
    let mut counts = String::new(alloc);
    for table in &Table::all() {
        let count = row_count(server, *table)?;
        counts.push_str(format!(in alloc; " {count}")?.as_str())?;
    }
    Ok(counts)
}

fn row_count(server: &mut LoggedServer, table: Table) -> Result<usize, Unread> {
    match server.view(table, -1, 1000) {
        Ok(rows) => Ok(rows.as_slice().len()),
        Err(KeepFault::Failed) => Err(Unread::Bad),
        Err(KeepFault::Memory) => Err(Unread::Ended),
    }
}
