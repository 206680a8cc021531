ghost use Rattle.std.specs.Prelude.{◌≡◌, IfOk};
ghost use Rattle.ak_base.specs.Rows.{name_of, stamp_of, usn_of, with_usn, with_stamp, buried_of, check_of};

use crate::{Card, Deck, Grave, Memory, Name, Note, NoteType, Options, Review, RowFault, Table};

/// A row of a collection.
#[derive(Debug, PartialEq, Drop)]
pub enum Row {
    Note(Note),
    Card(Card),
    Review(Review),
    NoteType(NoteType),
    Deck(Deck),
    Options(Options),
    Grave(Grave),
}

impl Row {
    /// Its table and its id. A grave has the id of the row that was deleted.
    pub fn name(&self) -> Name
        ensures { result ≡ name_of self.now }
    {
        match self {
            Row::Note(note) => named(Table::Note, note.id),
            Row::Card(card) => named(Table::Card, card.id),
            Row::Review(review) => named(Table::Review, review.id),
            Row::NoteType(note_type) => named(Table::NoteType, note_type.id),
            Row::Deck(deck) => named(Table::Deck, deck.id),
            Row::Options(options) => named(Table::Options, options.id),
            Row::Grave(grave) => named(grave.table(), grave.oid),
        }
    }

    /// When the row was changed last, in seconds. 0 for reviews and graves, which never change.
    pub fn stamp(&self) -> i64
        ensures { result ≡ stamp_of self.now }
    {
        match self {
            Row::Note(note) => note.stamp,
            Row::Card(card) => card.stamp,
            Row::NoteType(note_type) => note_type.stamp,
            Row::Deck(deck) => deck.stamp,
            Row::Options(options) => options.stamp,
            Row::Review(_) | Row::Grave(_) => 0,
        }
    }

    /// The update sequence number (usn), -1 for a row that was not sent yet.
    pub fn usn(&self) -> i64
        ensures { result ≡ usn_of self.now }
    {
        match self {
            Row::Note(note) => note.usn,
            Row::Card(card) => card.usn,
            Row::Review(review) => review.usn,
            Row::NoteType(note_type) => note_type.usn,
            Row::Deck(deck) => deck.usn,
            Row::Options(options) => options.usn,
            Row::Grave(grave) => grave.usn,
        }
    }

    /// Puts another usn into the row. It takes no memory.
    pub fn set_usn(&mut self, usn: i64)
        ensures { self.new ≡ with_usn self.old usn }
    {
        match self {
            Row::Note(note) => note.usn = usn,
            Row::Card(card) => card.usn = usn,
            Row::Review(review) => review.usn = usn,
            Row::NoteType(note_type) => note_type.usn = usn,
            Row::Deck(deck) => deck.usn = usn,
            Row::Options(options) => options.usn = usn,
            Row::Grave(grave) => grave.usn = usn,
        }
    }

    /// Puts another time of change, in seconds, into the row. Reviews and graves have none and stay. It takes no memory.
    pub fn set_stamp(&mut self, stamp: i64)
        ensures { self.new ≡ with_stamp self.old stamp }
    {
        match self {
            Row::Note(note) => note.stamp = stamp,
            Row::Card(card) => card.stamp = stamp,
            Row::NoteType(note_type) => note_type.stamp = stamp,
            Row::Deck(deck) => deck.stamp = stamp,
            Row::Options(options) => options.stamp = stamp,
            Row::Review(_) | Row::Grave(_) => {}
        }
    }

    /// The name of the row that was deleted, if this is a grave.
    pub fn buried(&self) -> Option<Name>
        ensures { result ≡ buried_of self.now }
    {
        match self {
            Row::Grave(grave) => Some(grave.buried()),
            Row::Note(_) | Row::Card(_) | Row::Review(_) => None,
            Row::NoteType(_) | Row::Deck(_) | Row::Options(_) => None,
        }
    }

    /// The first column that is out of its range.
    pub fn check(&self) -> Result<(), RowFault>
        ensures { result ≡ check_of self.now }
    {
        match self {
            Row::Note(note) => note.check(),
            Row::Card(card) => card.check(),
            Row::Review(review) => review.check(),
            Row::NoteType(note_type) => note_type.check(),
            Row::Deck(deck) => deck.check(),
            Row::Options(options) => options.check(),
            Row::Grave(grave) => grave.check(),
        }
    }

    /// An equal row of its own.
    pub fn copy(&self) -> Result<Row, Memory>
        ensures { IfOk result (λ row. row ≡ self.now) }
    {
        match self {
            Row::Note(note) => Ok(Row::Note(note.copy()?)),
            Row::Card(card) => Ok(Row::Card(card.copy()?)),
            Row::Review(review) => Ok(Row::Review(*review)),
            Row::NoteType(note_type) => Ok(Row::NoteType(note_type.copy()?)),
            Row::Deck(deck) => Ok(Row::Deck(deck.copy()?)),
            Row::Options(options) => Ok(Row::Options(options.copy()?)),
            Row::Grave(grave) => Ok(Row::Grave(*grave)),
        }
    }
}

/// The name of a row of a table.
fn named(table: Table, id: i64) -> Name
    ensures { result ≡ record { table = table; id = id } }
{
    Name { table, id }
}
