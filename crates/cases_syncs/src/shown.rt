use ak_base::{List, Row, Table};
use ak_keep::{KeepFault, Lookup, Readable};
use ak_memory::MemoryKeeper;
use cases_keepers::{answer_of, failed};
use cases_lines::{Unread, row_text};
use serde_json::Value;
use sha1::Sha1;
use std::alloc::Global;

/// The head, and then the first 1,000 rows of each table.
pub fn all(alloc: Global, keeper: &mut MemoryKeeper) -> Result<String, Unread> {
    let mut made = answer_of(alloc, keeper, "head", "")?;
    for table in Table::all() {
        let page = keeper.page(table, 0, 1000);
        made.push_str(page_text(alloc, page)?.as_str())?;
    }
    Ok(made)
}

fn page_text(alloc: Global, page: Result<List<Row>, KeepFault>) -> Result<String, Unread> {
    match page {
        Ok(rows) => rows_text(alloc, rows.as_slice()),
        Err(fault) => failed(alloc, fault),
    }
}

fn rows_text(alloc: Global, rows: &[Row]) -> Result<String, Unread> {
    let mut made = String::from_str(alloc, " [")?;
    for (place, row) in rows.iter().enumerate() {
        if place > 0 {
            made.push_str(",")?;
        }
        made.push_str(row_text(alloc, row)?.as_str())?;
    }
    made.push_str("]")?;
    Ok(made)
}

/// `all` as a sum: the first 8 hexadecimal digits of its SHA-1, as a number.
pub fn sum(alloc: Global, keeper: &mut MemoryKeeper) -> Result<String, Unread> {
    let text = all(alloc, keeper)?;
    let digest = Sha1::digest(text.as_bytes());
    let number = u32::from_be_bytes([digest[0], digest[1], digest[2], digest[3]]);
    Ok(format!(in alloc; "{number}")?)
}
