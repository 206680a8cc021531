// What is written inside one transaction.
ghost use Rattle.std.specs.Prelude.{◌≡◌};

use crate::cells::{card_cells, grave_cells, note_cells, review_cells};
use crate::faults::FileFault;
use crate::heads::write_head;
use crate::layouts::run_each;
use crate::objects::{DECKS, MODELS, OPTIONS, ObjectColumn, write_object};
use crate::statements::{
    CLEAR, DELETE_CARD, DELETE_GRAVE, DELETE_NOTE, DELETE_REVIEW, INSERT_CARD, INSERT_GRAVE,
    INSERT_NOTE, INSERT_REVIEW,
};
use ak_base::{Head, Name, Row, Table};
use ak_memory::MarkedRows;
use ak_tables::Touched;
use sqlite::types::ValueRef;
use sqlite::{Alter, Error, Transaction};

/// Writes what was touched, as it is held now.
pub(crate) fn write_all<S: Alter>(
    transaction: &mut Transaction<'_, S>,
    rows: &MarkedRows,
    head: &Option<Head>,
    touched: &Touched,
) -> Result<(), FileFault>
    ensures same_reference { transaction.new.conn.ghost_name ≡ transaction.old.conn.ghost_name }
{
    if touched.whole {
        run_each(transaction, &CLEAR)?;
    }
    write_names(transaction, rows, touched.names.as_slice())?;
    match head {
        Some(head) => write_col(transaction, rows, head, touched),
        None => check_no_objects(rows),
    }
}

/// Writes what is held under each of the names.
fn write_names<S: Alter>(
    transaction: &mut Transaction<'_, S>,
    rows: &MarkedRows,
    names: &[Name],
) -> Result<(), FileFault>
    ensures same_reference { transaction.new.conn.ghost_name ≡ transaction.old.conn.ghost_name }
{
    for name in names {
        write_name(transaction, rows, *name)?;
    }
    Ok(())
}

/// Takes out the row of this name, and puts in the one that is held, if there is one.
fn write_name<S: Alter>(
    transaction: &mut Transaction<'_, S>,
    rows: &MarkedRows,
    name: Name,
) -> Result<(), FileFault>
    ensures same_reference { transaction.new.conn.ghost_name ≡ transaction.old.conn.ghost_name }
{
    delete_row(transaction, name)?;
    match rows.get(name)? {
        Some(row) => insert_row(transaction, &row),
        None => Ok(()),
    }
}

/// Takes the row of this name out of its table. Note types, decks and options are in columns of `col`.
fn delete_row<S: Alter>(transaction: &mut Transaction<'_, S>, name: Name) -> Result<(), FileFault>
    ensures same_reference { transaction.new.conn.ghost_name ≡ transaction.old.conn.ghost_name }
{
    let id = ValueRef::Int(name.id);
    match name.table {
        Table::Note => run_once(transaction, DELETE_NOTE, &[id]),
        Table::Card => run_once(transaction, DELETE_CARD, &[id]),
        Table::Review => run_once(transaction, DELETE_REVIEW, &[id]),
        Table::NoteType | Table::Deck | Table::Options => Ok(()),
        Table::NoteGrave | Table::CardGrave | Table::DeckGrave => match name.table.stored_code() {
            Some(code) => run_once(transaction, DELETE_GRAVE, &[id, ValueRef::Int(code)]),
            // Each table of graves has a code.
            None => Ok(()),
        },
    }
}

/// Puts the row into its table. Note types, decks and options are in columns of `col`.
fn insert_row<S: Alter>(transaction: &mut Transaction<'_, S>, row: &Row) -> Result<(), FileFault>
    ensures same_reference { transaction.new.conn.ghost_name ≡ transaction.old.conn.ghost_name }
{
    match row {
        Row::Note(note) => run_once(transaction, INSERT_NOTE, &note_cells(note)),
        Row::Card(card) => run_once(transaction, INSERT_CARD, &card_cells(card)),
        Row::Review(review) => run_once(transaction, INSERT_REVIEW, &review_cells(review)),
        Row::Grave(grave) => run_once(transaction, INSERT_GRAVE, &grave_cells(grave)),
        Row::NoteType(_) | Row::Deck(_) | Row::Options(_) => Ok(()),
    }
}

/// Writes the row of `col`: the head, note types, decks and options, each if it was touched.
fn write_col<S: Alter>(
    transaction: &mut Transaction<'_, S>,
    rows: &MarkedRows,
    head: &Head,
    touched: &Touched,
) -> Result<(), FileFault>
    ensures same_reference { transaction.new.conn.ghost_name ≡ transaction.old.conn.ghost_name }
{
    if touched.head {
        write_head(transaction, head)?;
    }
    write_touched(transaction, rows, &MODELS, touched)?;
    write_touched(transaction, rows, &DECKS, touched)?;
    write_touched(transaction, rows, &OPTIONS, touched)
}

/// Writes the object of this column, if one of its rows was touched.
fn write_touched<S: Alter>(
    transaction: &mut Transaction<'_, S>,
    rows: &MarkedRows,
    column: &ObjectColumn,
    touched: &Touched,
) -> Result<(), FileFault>
    ensures same_reference { transaction.new.conn.ghost_name ≡ transaction.old.conn.ghost_name }
{
    if touched.whole || is_touched(touched.names.as_slice(), column.table) {
        return write_object(transaction, touched.names.allocator(), column, rows);
    }
    Ok(())
}

/// Whether one of the names is of this table.
fn is_touched(names: &[Name], table: Table) -> bool {
    for name in names {
        if name.table == table {
            return true;
        }
    }
    false
}

/// Fails if note types, decks or options are held: without a head there is no row of `col` to write them into.
fn check_no_objects(rows: &MarkedRows) -> Result<(), FileFault> {
    if rows.count(Table::NoteType) > 0 || rows.count(Table::Deck) > 0 {
        return Err(FileFault::Failed);
    }
    if rows.count(Table::Options) > 0 {
        return Err(FileFault::Failed);
    }
    Ok(())
}

/// Runs a statement whose number of changed rows is of no use.
fn run_once<S: Alter>(
    transaction: &mut Transaction<'_, S>,
    sql: &str,
    cells: &[ValueRef<'_>],
) -> Result<(), FileFault>
    ensures same_reference { transaction.new.conn.ghost_name ≡ transaction.old.conn.ghost_name }
{
    run(transaction, sql, cells)?;
    Ok(())
}

/// Runs a statement, and answers how many rows it changed.
pub(crate) fn run<S: Alter>(
    transaction: &mut Transaction<'_, S>,
    sql: &str,
    cells: &[ValueRef<'_>],
) -> Result<usize, FileFault>
    ensures same_reference { transaction.new.conn.ghost_name ≡ transaction.old.conn.ghost_name }
{
    match transaction.execute(sql, cells) {
        Ok(changed) => Ok(changed),
        Err(error) => Err(FileFault::from(error)),
    }
}

/// How a transaction ended.
pub(crate) fn ended(committed: Result<(), Error>) -> Result<(), FileFault> {
    match committed {
        Ok(()) => Ok(()),
        Err(error) => Err(FileFault::from(error)),
    }
}
