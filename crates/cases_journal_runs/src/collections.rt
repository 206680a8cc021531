use ak_base::{Row, Table};
use ak_keep::{KeepFault, Keeper, Readable};
use cases_keepers::answer_of_keeper;
use cases_lines::{Unread, row_text};
use std::alloc::Global;

/// The head, and the first 1,000 rows of each table, as a text.
pub fn collection_text<K: Keeper>(alloc: Global, keeper: &mut K) -> Result<String, Unread> {
    let mut made = answer_of_keeper(alloc, keeper, "head", "")?;
    for table in &Table::all() {
        made.push_str(rows_text(alloc, keeper, *table)?.as_str())?;
    }
    Ok(made)
}

fn rows_text<R: Readable>(alloc: Global, keeper: &mut R, table: Table) -> Result<String, Unread> {
    match keeper.page(table, 0, 1000) {
        Ok(page) => listed_rows(alloc, page.as_slice()),
        Err(KeepFault::Failed) => Err(Unread::Bad),
        Err(KeepFault::Memory) => Err(Unread::Ended),
    }
}

/// The rows, each with a space before it.
fn listed_rows(alloc: Global, rows: &[Row]) -> Result<String, Unread> {
    let mut made = String::from_str(alloc, " /")?;
    for row in rows {
        made.push_str(" ")?;
        made.push_str(row_text(alloc, row)?.as_str())?;
    }
    Ok(made)
}
