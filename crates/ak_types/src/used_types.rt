ghost use Rattle.std.specs.Prelude.{◌≡◌};
ghost use Rattle.std.specs.List.{list_any};
ghost use Rattle.ak_keep.specs.Readings.{ReadsBy};
ghost use Rattle.ak_types.specs.GivenTypes.{has_notes, is_note_of};

use ak_base::{Row, Table};
use ak_keep::{KeepFault, Keeper, Walk};

/// Whether a note of the type of this id is held. It reads the notes up to the first one.
pub(crate) fn has_notes<K: Keeper>(keeper: &mut K, note_type: i64) -> Result<bool, KeepFault>
    ensures reads { ReadsBy K.Lookup keeper.old keeper.new result (λ h used. used ≡ has_notes note_type h.rows) }
{
    let mut walk = Walk::over(Table::Note);
    'pages: while !walk.is_done() {
        let page = walk.next(keeper)?;
        if has_note(page.as_slice(), note_type) {
            return Ok(true);
        }
    }
    Ok(false)
}

/// Whether one of the rows is a note of the type.
fn has_note(rows: &[Row], note_type: i64) -> bool
    ensures { result ≡ list_any (is_note_of note_type) rows.now }
{
    for row in rows {
        if is_note_of(row, note_type) {
            return true;
        }
    }
    false
}

/// Whether the row is a note of the type.
fn is_note_of(row: &Row, note_type: i64) -> bool
    ensures { result ≡ is_note_of note_type row.now }
{
    match row {
        Row::Note(note) => note.mid == note_type,
        _ => false,
    }
}
