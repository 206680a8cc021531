// The whole collection, read from the tables.
ghost use Rattle.std.specs.Prelude.{◌≡◌, false};

use crate::columns::{card_of, grave_of, note_of, review_of, text_at};
use crate::faults::FileFault;
use crate::heads::head_of;
use crate::layouts::all_rows;
use crate::objects::{DECKS, MODELS, OPTIONS, ObjectColumn, add_rows};
use crate::statements::{READ_CARDS, READ_COL, READ_GRAVES, READ_NOTES, READ_REVIEWS};
use ak_base::{Head, List, Row, Table};
use ak_tables::StoredCollection;
use sqlite::{Alter, Connection, Row as SqlRow, Rows};
use std::alloc::Global;

/// All rows and the head.
pub(crate) fn read_all<S: Alter>(
    alloc: Global,
    conn: &mut Connection<S>,
) -> Result<StoredCollection, FileFault>
    requires { conn.old.in_transaction ≡ false }
    ensures { conn.new.in_transaction ≡ false }
{
    let mut rows = List::new(alloc);
    add_table(conn, READ_NOTES, Table::Note, &mut rows)?;
    add_table(conn, READ_CARDS, Table::Card, &mut rows)?;
    add_table(conn, READ_REVIEWS, Table::Review, &mut rows)?;
    add_table(conn, READ_GRAVES, Table::NoteGrave, &mut rows)?;
    let col = all_rows(conn, READ_COL)?;
    let head = read_col(col.as_slice(), &mut rows)?;
    Ok(StoredCollection { rows, head })
}

/// Adds the rows of notes, cards or reviews, or else of graves, that the statement shows. They are taken one at a time, so that
/// few of them are held twice.
fn add_table<S: Alter>(
    conn: &mut Connection<S>,
    sql: &str,
    table: Table,
    rows: &mut List<Row>,
) -> Result<(), FileFault>
    requires { conn.old.in_transaction ≡ false }
    ensures { conn.new.in_transaction ≡ false }
{
    let mut shown = conn.query(sql, &[])?;
    'shown: for _ in 0..u64::MAX {
        if !add_next(&mut shown, table, rows)? {
            return Ok(());
        }
    }
    // No file has so many.
    Err(FileFault::Failed)
}

/// Adds the next row that is shown. It gives false after the last.
fn add_next<S: Alter>(
    shown: &mut Rows<'_, S>,
    table: Table,
    rows: &mut List<Row>,
) -> Result<bool, FileFault>
    ensures same_reference { shown.new.conn.ghost_name ≡ shown.old.conn.ghost_name }
    ensures mode { shown.old.conn.now.in_transaction ≡ false → shown.new.conn.now.in_transaction ≡ false }
{
    shown.advance()?;
    match shown.get() {
        Some(row) => {
            let row = row_of(table, row)?;
            rows.push(row)?;
            Ok(true)
        }
        None => Ok(false),
    }
}

/// The row of these columns.
fn row_of(table: Table, row: &SqlRow) -> Result<Row, FileFault> {
    match table {
        Table::Note => Ok(Row::Note(note_of(row)?)),
        Table::Card => Ok(Row::Card(card_of(row)?)),
        Table::Review => Ok(Row::Review(review_of(row)?)),
        Table::NoteGrave | Table::CardGrave | Table::DeckGrave => Ok(Row::Grave(grave_of(row)?)),
        // They are in columns of `col`.
        Table::NoteType | Table::Deck | Table::Options => Err(FileFault::Failed),
    }
}

/// The head in the row of `col`, whose note types, decks and options are added to the rows. Without a row there is none of
/// them, and more than one row is refused.
fn read_col(col: &[SqlRow], rows: &mut List<Row>) -> Result<Option<Head>, FileFault> {
    match col {
        [] => Ok(None),
        [row] => {
            let head = head_of(rows.allocator(), row)?;
            add_column(&MODELS, row, rows)?;
            add_column(&DECKS, row, rows)?;
            add_column(&OPTIONS, row, rows)?;
            Ok(Some(head))
        }
        _ => Err(FileFault::Failed),
    }
}

/// Adds the rows that the object of a column of `col` has.
fn add_column(column: &ObjectColumn, row: &SqlRow, rows: &mut List<Row>) -> Result<(), FileFault> {
    let text = text_at(row, column.at)?;
    add_rows(column.table, &text, rows)
}
