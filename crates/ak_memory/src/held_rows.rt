// Rows in boxes. A `Row` has the size of the largest kind, over three times that of a review.
ghost use Rattle.std.specs.Prelude.{◌≡◌, None, IfOk};
ghost use Rattle.std.specs.Option.{option_copied};
ghost use Rattle.ak_base.specs.Rows.{stamp_of, usn_of};
ghost use Rattle.ak_base.specs.declared.rows.Row.TheVariants as rows;
ghost use Rattle.ak_keep.specs.Lookups.{as_card};
ghost use Rattle.ak_memory.specs.FoundBy.{found_by};
ghost use Rattle.ak_memory.specs.NoteKeys.{note_of_card};
ghost use Rattle.ak_memory.specs.HeldRows.{held_row};

use ak_base::{Card, Deck, Grave, Memory, Note, NoteType, Options, Review, Row};
use std::alloc::Global;

/// A row in a box of the size of its own kind.
#[derive(Debug, Drop)]
pub(crate) enum HeldRow {
    Note(Box<Note>),
    Card(Box<Card>),
    Review(Box<Review>),
    NoteType(Box<NoteType>),
    Deck(Box<Deck>),
    Options(Box<Options>),
    Grave(Box<Grave>),
}

impl HeldRow {
    /// Puts the row into a box.
    pub(crate) fn of(alloc: Global, row: Row) -> Result<HeldRow, Memory>
        ensures { IfOk result (λ held. held_row held ≡ row) }
    {
        match row {
            Row::Note(note) => Ok(HeldRow::Note(Box::new(alloc, note)?)),
            Row::Card(card) => Ok(HeldRow::Card(Box::new(alloc, card)?)),
            Row::Review(review) => Ok(HeldRow::Review(Box::new(alloc, review)?)),
            Row::NoteType(note_type) => Ok(HeldRow::NoteType(Box::new(alloc, note_type)?)),
            Row::Deck(deck) => Ok(HeldRow::Deck(Box::new(alloc, deck)?)),
            Row::Options(options) => Ok(HeldRow::Options(Box::new(alloc, options)?)),
            Row::Grave(grave) => Ok(HeldRow::Grave(Box::new(alloc, grave)?)),
        }
    }

    /// A copy of the row.
    pub(crate) fn copy(&self) -> Result<Row, Memory>
        ensures { IfOk result (λ row. row ≡ held_row self.now) }
    {
        // Each kind is copied by a function of its own: a function clears room for all that it makes, whichever arm is taken.
        match self {
            HeldRow::Note(note) => copy_note(note),
            HeldRow::Card(card) => copy_card(card),
            HeldRow::Review(review) => Ok(Row::Review(**review)),
            HeldRow::NoteType(note_type) => copy_note_type(note_type),
            HeldRow::Deck(deck) => copy_deck(deck),
            HeldRow::Options(options) => copy_options(options),
            HeldRow::Grave(grave) => Ok(Row::Grave(**grave)),
        }
    }

    /// The stamp of the row: a review's and a grave's are 0.
    pub(crate) fn stamp(&self) -> i64
        ensures { result ≡ stamp_of (held_row self.now) }
    {
        match self {
            HeldRow::Note(note) => note.stamp,
            HeldRow::Card(card) => card.stamp,
            HeldRow::NoteType(note_type) => note_type.stamp,
            HeldRow::Deck(deck) => deck.stamp,
            HeldRow::Options(options) => options.stamp,
            HeldRow::Review(_) | HeldRow::Grave(_) => 0,
        }
    }

    /// The usn of the row.
    pub(crate) fn usn(&self) -> i64
        ensures { result ≡ usn_of (held_row self.now) }
    {
        match self {
            HeldRow::Note(note) => note.usn,
            HeldRow::Card(card) => card.usn,
            HeldRow::Review(review) => review.usn,
            HeldRow::NoteType(note_type) => note_type.usn,
            HeldRow::Deck(deck) => deck.usn,
            HeldRow::Options(options) => options.usn,
            HeldRow::Grave(grave) => grave.usn,
        }
    }

    /// The note that the row is a card of.
    pub(crate) fn note(&self) -> Option<i64>
        ensures { result ≡ note_of_card (held_row self.now) }
    {
        match self {
            HeldRow::Card(card) => Some(card.nid),
            HeldRow::Note(_) | HeldRow::Review(_) | HeldRow::Grave(_) => None,
            HeldRow::NoteType(_) | HeldRow::Deck(_) | HeldRow::Options(_) => None,
        }
    }

    /// The row, if it is a card.
    pub(crate) fn card(&self) -> Option<&Card>
        ensures { option_copied result ≡ as_card (held_row self.now) }
    {
        match self {
            HeldRow::Card(card) => Some(card),
            HeldRow::Note(_) | HeldRow::Review(_) | HeldRow::Grave(_) => None,
            HeldRow::NoteType(_) | HeldRow::Deck(_) | HeldRow::Options(_) => None,
        }
    }

    /// What the row is found by, if it is a card.
    pub(crate) fn found_by(&self) -> Option<FoundBy>
        ensures { result ≡ found_by (held_row self.now) }
    {
        match self {
            HeldRow::Card(card) => Some(FoundBy {
                note: card.nid,
                queue: card.queue,
                due: card.due,
            }),
            HeldRow::Note(_) | HeldRow::Review(_) | HeldRow::Grave(_) => None,
            HeldRow::NoteType(_) | HeldRow::Deck(_) | HeldRow::Options(_) => None,
        }
    }
}

/// What a card is found by.
#[derive(Clone, Copy, Debug)]
pub(crate) struct FoundBy {
    pub note: i64,
    pub queue: i64,
    pub due: i64,
}

/// A row that is a copy of the note.
fn copy_note(note: &Note) -> Result<Row, Memory>
    ensures { IfOk result (λ row. row ≡ rows.Note note.now) }
{
    let copy = note.copy()?;
    Ok(Row::Note(copy))
}

/// A row that is a copy of the card.
fn copy_card(card: &Card) -> Result<Row, Memory>
    ensures { IfOk result (λ row. row ≡ rows.Card card.now) }
{
    let copy = card.copy()?;
    Ok(Row::Card(copy))
}

/// A row that is a copy of the type.
fn copy_note_type(note_type: &NoteType) -> Result<Row, Memory>
    ensures { IfOk result (λ row. row ≡ rows.NoteType note_type.now) }
{
    let copy = note_type.copy()?;
    Ok(Row::NoteType(copy))
}

/// A row that is a copy of the deck.
fn copy_deck(deck: &Deck) -> Result<Row, Memory>
    ensures { IfOk result (λ row. row ≡ rows.Deck deck.now) }
{
    let copy = deck.copy()?;
    Ok(Row::Deck(copy))
}

/// A row that is a copy of the group of options.
fn copy_options(options: &Options) -> Result<Row, Memory>
    ensures { IfOk result (λ row. row ≡ rows.Options options.now) }
{
    let copy = options.copy()?;
    Ok(Row::Options(copy))
}

/// A row that is to be held, with room for the row that it replaces, so that to hold it takes no memory.
#[derive(Debug, Drop)]
pub(crate) struct Replacement {
    pub row: HeldRow,
    /// The row that it replaces and that is kept for the mark, if there is one.
    pub before: Option<HeldRow>,
}

impl Replacement {
    /// The row, which replaces none yet.
    pub(crate) fn of(alloc: Global, row: Row) -> Result<Box<Replacement>, Memory>
        ensures { IfOk result (λ made. held_row made.value.row ≡ row) }
    {
        let row = HeldRow::of(alloc, row)?;
        Ok(Box::new(alloc, Replacement { row, before: None })?)
    }
}
