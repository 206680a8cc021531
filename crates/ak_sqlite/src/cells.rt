// The values that are put into the columns of a row.
ghost use Rattle.std.specs.Prelude.{◌≡◌, map};
ghost use Rattle.sqlite_value.specs.Value.{owned};
ghost use Rattle.sqlite_value.specs.declared.value.Value.TheVariants.{Text as SqlText};
ghost use Rattle.ak_sqlite.specs.Columns.{HoldsNote, HoldsCard, HoldsReview, HoldsGrave};

use ak_base::{Card, Grave, Note, Review, Text};
use sqlite::types::ValueRef;

/// The columns of a note.
pub(crate) fn note_cells(note: &Note) -> [ValueRef<'_>; 11]
    ensures { HoldsNote (map owned result) note.now }
{
    [
        ValueRef::Int(note.id),
        text_cell(&note.guid),
        ValueRef::Int(note.mid),
        ValueRef::Int(note.stamp),
        ValueRef::Int(note.usn),
        text_cell(&note.tags),
        text_cell(&note.flds),
        text_cell(&note.sfld),
        ValueRef::Int(note.csum),
        ValueRef::Int(note.flags),
        text_cell(&note.extra),
    ]
}

/// The columns of a card.
pub(crate) fn card_cells(card: &Card) -> [ValueRef<'_>; 18]
    ensures { HoldsCard (map owned result) card.now }
{
    [
        ValueRef::Int(card.id),
        ValueRef::Int(card.nid),
        ValueRef::Int(card.did),
        ValueRef::Int(card.ord),
        ValueRef::Int(card.stamp),
        ValueRef::Int(card.usn),
        ValueRef::Int(card.kind),
        ValueRef::Int(card.queue),
        ValueRef::Int(card.due),
        ValueRef::Int(card.ivl),
        ValueRef::Int(card.factor),
        ValueRef::Int(card.reps),
        ValueRef::Int(card.lapses),
        ValueRef::Int(card.left),
        ValueRef::Int(card.odue),
        ValueRef::Int(card.odid),
        ValueRef::Int(card.flags),
        text_cell(&card.extra),
    ]
}

/// The columns of a review.
pub(crate) fn review_cells(review: &Review) -> [ValueRef<'_>; 9]
    ensures { HoldsReview (map owned result) review.now }
{
    [
        ValueRef::Int(review.id),
        ValueRef::Int(review.cid),
        ValueRef::Int(review.usn),
        ValueRef::Int(review.ease),
        ValueRef::Int(review.ivl),
        ValueRef::Int(review.last_ivl),
        ValueRef::Int(review.factor),
        ValueRef::Int(review.time),
        ValueRef::Int(review.kind),
    ]
}

/// The columns of a grave.
pub(crate) fn grave_cells(grave: &Grave) -> [ValueRef<'_>; 3]
    ensures { HoldsGrave (map owned result) grave.now }
{
    [
        ValueRef::Int(grave.usn),
        ValueRef::Int(grave.oid),
        ValueRef::Int(grave.kind),
    ]
}

/// A text in a column.
pub(crate) fn text_cell(text: &Text) -> ValueRef<'_>
    ensures { owned result ≡ SqlText text.now }
{
    ValueRef::Text(text.as_str().as_bytes())
}
