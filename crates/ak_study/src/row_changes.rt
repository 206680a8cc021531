// The rows of a table that an edit changes, page by page.
ghost use Rattle.std.specs.Prelude.{◌≡◌, ◌∷◌, [], pos, IfOk, OnOk};
ghost use Rattle.ak_base.specs.declared.rows.Row.{Row as StoredRow};
ghost use Rattle.std.specs.Prelude.{Option as Maybe};
ghost use Rattle.ak_keep.specs.Collections.{rows_past};
ghost use Rattle.ak_keep.specs.Readings.{ReadsBy};
ghost use Rattle.ak_study.specs.RowChanges.{put_rows_changed, put_some};

use ak_base::{Memory, Row, Table};
use ak_edit::Change;
use ak_keep::{KeepFault, Readable, Walk};

/// A way to change rows, each of which it reads as it is held. What it makes may have another name.
pub trait RowChange {
    /// What it makes of a row, None if the row stays.
    ghost change: { Self → StoredRow → Maybe StoredRow };

    /// The row after the change, None if it stays.
    fn apply(&self, row: &Row) -> Result<Option<Row>, Memory>
        ensures { IfOk result (λ made. made ≡ change self.now row.now) };
}

/// Changes the rows of a table that are held, in one pass over them by ascending id. It only fills the change, where what it makes takes
/// the place of what the change had under that name.
pub fn change_rows<R: Readable, C: RowChange>(
    from: &mut R,
    change: &mut Change,
    table: Table,
    by: &C,
) -> Result<(), KeepFault>
    ensures reads { ReadsBy R.Lookup from.old from.new result (λ h _.
        change.new ≡ put_rows_changed (C.change by.now) (rows_past table (pos 0) h.rows) change.old) }
{
    let mut walk = Walk::over(table);
    'pages: while !walk.is_done() {
        let page = walk.next(from)?;
        change_page(change, page.as_slice(), by)?;
    }
    Ok(())
}

/// Changes these rows.
fn change_page<C: RowChange>(change: &mut Change, rows: &[Row], by: &C) -> Result<(), Memory>
    ensures { OnOk result (change.new ≡ put_rows_changed (C.change by.now) rows.now change.old) }
{
    let mut rest = rows;
    while let Some((row, others)) = rest.split_first() {
        change_row(change, row, by)?;
        rest = others;
    }
    Ok(())
}

/// Changes the row.
fn change_row<C: RowChange>(change: &mut Change, row: &Row, by: &C) -> Result<(), Memory>
    ensures { OnOk result (change.new ≡ put_some (C.change by.now row.now) change.old) }
{
    match by.apply(row)? {
        Some(made) => change.put(made),
        None => Ok(()),
    }
}
