// Which tables a file has.
ghost use Rattle.std.specs.Prelude.{◌≡◌, false};

use crate::columns::text_at;
use crate::faults::FileFault;
use crate::statements::{MAKE_TABLES, READ_LAYOUT};
use crate::writes::{ended, run};
use sqlite::{Alter, Connection, Row as SqlRow, Transaction};

/// Makes the tables if the file has none. It fails if the file has some of them, or anything else but indexes.
pub(crate) fn make_tables<S: Alter>(conn: &mut Connection<S>) -> Result<(), FileFault>
    requires { conn.old.in_transaction ≡ false }
    ensures { conn.new.in_transaction ≡ false }
{
    let found = tables_in(conn)?;
    if found == MAKE_TABLES.len() {
        return Ok(());
    }
    if found > 0 {
        return Err(FileFault::Failed);
    }
    let mut transaction = conn.transaction();
    match run_each(&mut transaction, &MAKE_TABLES) {
        Ok(()) => {
            let committed = transaction.commit();
            ended(committed)
        }
        Err(fault) => {
            transaction.rollback();
            Err(fault)
        }
    }
}

/// How many of the tables are in the file. It fails if there is anything else but indexes.
fn tables_in<S: Alter>(conn: &mut Connection<S>) -> Result<usize, FileFault>
    requires { conn.old.in_transaction ≡ false }
    ensures { conn.new.in_transaction ≡ false }
{
    let rows = all_rows(conn, READ_LAYOUT)?;
    let mut found = 0;
    for row in rows.as_slice() {
        if is_table(row)? {
            found += 1;
        }
    }
    Ok(found)
}

/// Whether a row of the layout is one of the tables. It is not, if it is an index or a table of SQLite's own. It fails for
/// anything else, and for an index that would refuse rows.
fn is_table(row: &SqlRow) -> Result<bool, FileFault> {
    let kind = text_at(row, 0)?;
    let name = text_at(row, 1)?;
    if name.as_str().starts_with("sqlite_") {
        return Ok(false);
    }
    let text = text_at(row, 2)?;
    if kind.as_str() == "index" && !text.as_str().starts_with("CREATE UNIQUE") {
        return Ok(false);
    }
    if kind.as_str() == "table" && makes_table(text.as_str()) {
        return Ok(true);
    }
    Err(FileFault::Failed)
}

/// Whether this is the text by which one of the tables is made.
fn makes_table(text: &str) -> bool {
    for table in &MAKE_TABLES {
        if *table == text {
            return true;
        }
    }
    false
}

/// All rows that a statement shows.
pub(crate) fn all_rows<S: Alter>(
    conn: &mut Connection<S>,
    sql: &str,
) -> Result<Vec<SqlRow>, FileFault>
    ensures { conn.old.in_transaction ≡ false → conn.new.in_transaction ≡ false }
{
    match conn.query_all(sql, &[]) {
        Ok(rows) => Ok(rows),
        Err(error) => Err(FileFault::from(error)),
    }
}

/// Runs the statements, up to the first that is refused.
pub(crate) fn run_each<S: Alter>(
    transaction: &mut Transaction<'_, S>,
    texts: &[&str],
) -> Result<(), FileFault>
    ensures same_reference { transaction.new.conn.ghost_name ≡ transaction.old.conn.ghost_name }
{
    for text in texts {
        run(transaction, text, &[])?;
    }
    Ok(())
}
