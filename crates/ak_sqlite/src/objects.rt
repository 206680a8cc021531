// Note types, decks and options: the objects in columns of `col`, from the decimal text of each id to its row.
ghost use Rattle.std.specs.Prelude.{◌≡◌};

use crate::cells::text_cell;
use crate::faults::FileFault;
use crate::statements::{UPDATE_DECKS, UPDATE_MODELS, UPDATE_OPTIONS};
use crate::writes::run;
use ak_base::{List, Memory, Row, Table, Text};
use ak_json::{read_row, read_text, write_row, write_text};
use ak_keep::PAGE;
use ak_memory::MarkedRows;
use serde_json::{Map, Value};
use sqlite::{Alter, Transaction};
use std::alloc::Global;

/// A column of `col` whose object has the rows of a table.
#[derive(Clone, Copy, Debug)]
pub(crate) struct ObjectColumn {
    pub(crate) table: Table,
    /// Where it is in a row of `col`, from 0.
    pub(crate) at: usize,
    /// The statement that writes it.
    pub(crate) update: &'static str,
}

pub(crate) const MODELS: ObjectColumn = ObjectColumn {
    table: Table::NoteType,
    at: 9,
    update: UPDATE_MODELS,
};

pub(crate) const DECKS: ObjectColumn = ObjectColumn {
    table: Table::Deck,
    at: 10,
    update: UPDATE_DECKS,
};

pub(crate) const OPTIONS: ObjectColumn = ObjectColumn {
    table: Table::Options,
    at: 11,
    update: UPDATE_OPTIONS,
};

/// The members of the object that a text is.
pub(crate) fn read_object(alloc: Global, text: &Text) -> Result<Map<String, Value>, FileFault> {
    match read_text(alloc, text.as_str().as_bytes())? {
        Value::Object(members) => Ok(members),
        _ => Err(FileFault::Failed),
    }
}

/// Adds the rows of a table that the object in this text has.
pub(crate) fn add_rows(table: Table, text: &Text, rows: &mut List<Row>) -> Result<(), FileFault> {
    let alloc = rows.allocator();
    let members = read_object(alloc, text)?;
    for (key, value) in members.iter() {
        let row = keyed_row(alloc, table, key.as_str(), value)?;
        rows.push(row)?;
    }
    Ok(())
}

/// The row of a table that a value stands for. It fails if the key is not the decimal text of its id.
fn keyed_row(alloc: Global, table: Table, key: &str, value: &Value) -> Result<Row, FileFault> {
    let row = read_row(alloc, table, value)?;
    let id = id_text(alloc, row.name().id)?;
    if id.as_str() == key {
        return Ok(row);
    }
    Err(FileFault::Failed)
}

/// The decimal text of an id.
fn id_text(alloc: Global, id: i64) -> Result<String, Memory> {
    let text = format!(in alloc; "{}", id)?;
    Ok(text)
}

/// Writes the object of all rows of its table into the column. It fails if `col` has no row.
pub(crate) fn write_object<S: Alter>(
    transaction: &mut Transaction<'_, S>,
    alloc: Global,
    column: &ObjectColumn,
    rows: &MarkedRows,
) -> Result<(), FileFault>
    ensures same_reference { transaction.new.conn.ghost_name ≡ transaction.old.conn.ghost_name }
{
    let text = object_text(alloc, column.table, rows)?;
    let written = run(transaction, column.update, &[text_cell(&text)])?;
    if written == 1 {
        return Ok(());
    }
    Err(FileFault::Failed)
}

/// The text of the object of all rows of a table.
fn object_text(alloc: Global, table: Table, rows: &MarkedRows) -> Result<Text, FileFault> {
    let mut members = Map::new(alloc);
    let mut past = 0;

    // A page more than are full, so that the last one is not.
    for _ in 0..rows.count(table) / PAGE as u64 + 1 {
        let page = rows.page(table, past, PAGE)?;
        past = put_rows(alloc, page.as_slice(), past, &mut members)?;
    }
    let text = write_text(alloc, &Value::Object(members))?;
    Ok(text)
}

/// Puts the values of the rows, each under its id. It gives the id of the last one, or else `past`.
fn put_rows(
    alloc: Global,
    rows: &[Row],
    past: i64,
    members: &mut Map<String, Value>,
) -> Result<i64, FileFault> {
    let mut last = past;
    for row in rows {
        last = row.name().id;
        put_row(alloc, last, row, members)?;
    }
    Ok(last)
}

/// Puts the value of a row under its id.
fn put_row(
    alloc: Global,
    id: i64,
    row: &Row,
    members: &mut Map<String, Value>,
) -> Result<(), FileFault> {
    let key = id_text(alloc, id)?;
    let value = write_row(alloc, row)?;
    serde_json::put(members, alloc, key.as_str(), value)?;
    Ok(())
}
