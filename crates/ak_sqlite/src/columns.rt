// Rows of the collection, read from the columns of their tables.
ghost use Rattle.std.specs.Prelude.{◌≡◌, IfOk};
ghost use Rattle.sqlite_value.specs.Order.{column};
ghost use Rattle.sqlite_value.specs.declared.value.Value.TheVariants.{Int, Text as SqlText};
ghost use Rattle.ak_sqlite.specs.Columns.{HoldsNote, HoldsCard, HoldsReview, HoldsGrave};

use crate::faults::FileFault;
use ak_base::{Card, Grave, Note, Review, Text};
use sqlite::Row as SqlRow;

/// The note of a row of `notes`, its columns in any range.
pub(crate) fn note_of(row: &SqlRow) -> Result<Note, FileFault>
    ensures { IfOk result (λ note. HoldsNote row.now note) }
{
    Ok(Note {
        id: integer_at(row, 0)?,
        guid: text_at(row, 1)?,
        mid: integer_at(row, 2)?,
        stamp: integer_at(row, 3)?,
        usn: integer_at(row, 4)?,
        tags: text_at(row, 5)?,
        flds: text_at(row, 6)?,
        sfld: text_at(row, 7)?,
        csum: integer_at(row, 8)?,
        flags: integer_at(row, 9)?,
        extra: text_at(row, 10)?,
    })
}

/// The card of a row of `cards`, its columns in any range.
pub(crate) fn card_of(row: &SqlRow) -> Result<Card, FileFault>
    ensures { IfOk result (λ card. HoldsCard row.now card) }
{
    Ok(Card {
        id: integer_at(row, 0)?,
        nid: integer_at(row, 1)?,
        did: integer_at(row, 2)?,
        ord: integer_at(row, 3)?,
        stamp: integer_at(row, 4)?,
        usn: integer_at(row, 5)?,
        kind: integer_at(row, 6)?,
        queue: integer_at(row, 7)?,
        due: integer_at(row, 8)?,
        ivl: integer_at(row, 9)?,
        factor: integer_at(row, 10)?,
        reps: integer_at(row, 11)?,
        lapses: integer_at(row, 12)?,
        left: integer_at(row, 13)?,
        odue: integer_at(row, 14)?,
        odid: integer_at(row, 15)?,
        flags: integer_at(row, 16)?,
        extra: text_at(row, 17)?,
    })
}

/// The review of a row of `revlog`, its columns in any range.
pub(crate) fn review_of(row: &SqlRow) -> Result<Review, FileFault>
    ensures { IfOk result (λ review. HoldsReview row.now review) }
{
    Ok(Review {
        id: integer_at(row, 0)?,
        cid: integer_at(row, 1)?,
        usn: integer_at(row, 2)?,
        ease: integer_at(row, 3)?,
        ivl: integer_at(row, 4)?,
        last_ivl: integer_at(row, 5)?,
        factor: integer_at(row, 6)?,
        time: integer_at(row, 7)?,
        kind: integer_at(row, 8)?,
    })
}

/// The grave of a row of `graves`, its columns in any range.
pub(crate) fn grave_of(row: &SqlRow) -> Result<Grave, FileFault>
    ensures { IfOk result (λ grave. HoldsGrave row.now grave) }
{
    Ok(Grave {
        usn: integer_at(row, 0)?,
        oid: integer_at(row, 1)?,
        kind: integer_at(row, 2)?,
    })
}

/// The whole number in a column, from 0.
pub(crate) fn integer_at(row: &SqlRow, at: usize) -> Result<i64, FileFault>
    ensures { IfOk result (λ number. column row.now at ≡ Int number) }
{
    let number = row.get::<i64>(at)?;
    Ok(number)
}

/// The text in a column, from 0.
pub(crate) fn text_at(row: &SqlRow, at: usize) -> Result<Text, FileFault>
    ensures { IfOk result (λ text. column row.now at ≡ SqlText text) }
{
    let text = row.get::<String>(at)?;
    Ok(Text::from(text))
}
