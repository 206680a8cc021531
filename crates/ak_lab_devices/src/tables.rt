ghost use Rattle.std.specs.Prelude.{◌≡◌, ◌++◌, map, IfOk, OnOk};
ghost use Rattle.ak_keep.specs.Readings.{ReadsBy};
ghost use Rattle.ak_lab_devices.specs.Shows.{grave_lines, row_text, table_lines};

use ak_base::{List, Memory, Row, Table, Text};
use ak_json::{whole_numbers_are_written, write_row, write_text};
use ak_keep::{KeepFault, Readable, Walk};
use std::alloc::Global;

/// The rows of a table, each as its JSON text with the usn 0, by ascending id.
pub fn row_texts<R: Readable>(
    alloc: Global,
    from: &mut R,
    table: Table,
) -> Result<List<Text>, KeepFault>
    ensures reads { ReadsBy R.Lookup from.old from.new result (λ h texts. texts ≡ table_lines table h.rows) }
{
    let mut texts = List::new(alloc);
    add_table(&mut texts, alloc, from, table)?;
    Ok(texts)
}

/// The graves in the same way: those of notes, then of cards, then of decks.
pub fn grave_texts<R: Readable>(alloc: Global, from: &mut R) -> Result<List<Text>, KeepFault>
    ensures reads { ReadsBy R.Lookup from.old from.new result (λ h texts. texts ≡ grave_lines h.rows) }
{
    let mut texts = List::new(alloc);
    add_table(&mut texts, alloc, from, Table::NoteGrave)?;
    add_table(&mut texts, alloc, from, Table::CardGrave)?;
    add_table(&mut texts, alloc, from, Table::DeckGrave)?;
    Ok(texts)
}

/// Adds the texts of a table's rows at the end.
fn add_table<R: Readable>(
    texts: &mut List<Text>,
    alloc: Global,
    from: &mut R,
    table: Table,
) -> Result<(), KeepFault>
    ensures reads { ReadsBy R.Lookup from.old from.new result (λ h done.
        texts.new ≡ texts.old ++ table_lines table h.rows) }
{
    let mut walk = Walk::over(table);
    'pages: while !walk.is_done() {
        let page = walk.next(from)?;
        add_rows(texts, alloc, page.as_slice())?;
    }
    Ok(())
}

/// Adds the texts of the rows at the end.
fn add_rows(texts: &mut List<Text>, alloc: Global, rows: &[Row]) -> Result<(), Memory>
    ensures { OnOk result (texts.new ≡ texts.old ++ map row_text rows.now) }
{
    for row in rows {
        texts.push(row_text(alloc, row)?)?;
    }
    Ok(())
}

/// A row as it is shown: its JSON text, with the usn 0.
fn row_text(alloc: Global, row: &Row) -> Result<Text, Memory>
    ensures { IfOk result (λ text. text ≡ row_text row.now) }
{
    let mut shown = row.copy()?;
    shown.set_usn(0);
    let value = write_row(alloc, &shown)?;
    whole_numbers_are_written();
    write_text(alloc, &value)
}
