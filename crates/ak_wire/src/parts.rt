ghost use Rattle.std.specs.Prelude.{◌≡◌, OnOk, IfOk, IfErr, map};
ghost use Rattle.serde_json.specs.Data.{Data};
ghost use Rattle.serde_json.specs.View.{view, items_view};
ghost use Rattle.ak_json.specs.Rows.{row_json};
ghost use Rattle.ak_base.specs.declared.names.Table.TheVariants as tables;
ghost use Rattle.ak_base.specs.declared.rows.Row.TheVariants as rows;
ghost use Rattle.ak_wire.specs.Faults.{OrMemory, AddsPart, ReadsEach, RefusesEach};
ghost use Rattle.ak_wire.specs.Parts.{ReadsNote, ReadsCard, ReadsReview, ReadsNoteType, ReadsDeck, ReadsOptions, RefusesRowOf};
ghost use Rattle.ak_wire.specs.Written.{array_of};
ghost use Rattle.ak_wire.specs.declared.wire_faults.WireFault.{WireFault};

use crate::WireFault;
use ak_base::{Card, Deck, List, Memory, Note, NoteType, Options, Review, Row, Table};
use ak_json::{read_row, write_row};
use serde_json::Value;
use std::alloc::Global;

/// A row of one kind, as it stands in a list of a message.
pub(crate) trait Part: Sized + Drop {
    ghost reads: { Data → Self → Type 0 };

    ghost refuses: { Data → WireFault → Type 0 };

    ghost json: { Self → Data };

    /// The row that a value stands for.
    fn read(alloc: Global, value: &Value) -> Result<Self, WireFault>
        ensures ok { IfOk result (reads (view value.now)) }
        ensures err { IfErr result (OrMemory (refuses (view value.now))) };

    /// The value of a row.
    fn write(&self, alloc: Global) -> Result<Value, Memory>
        ensures { IfOk result (λ value. view value ≡ json self.now) };
}

/// The rows of a list of them. The first that is not one is told.
pub(crate) fn read_each<P: Part>(alloc: Global, values: &[Value]) -> Result<List<P>, WireFault>
    ensures ok { IfOk result (ReadsEach P.reads (items_view values.now)) }
    ensures err { IfErr result (OrMemory (RefusesEach P.reads P.refuses (items_view values.now))) }
{
    let mut parts = List::new(alloc);
    for value in values {
        add_part(alloc, value, &mut parts)?;
    }
    Ok(parts)
}

/// Adds the row that a value stands for.
fn add_part<P: Part>(alloc: Global, value: &Value, parts: &mut List<P>) -> Result<(), WireFault>
    ensures ok { OnOk result (AddsPart P.reads (view value.now) parts.old parts.new) }
    ensures err { IfErr result (OrMemory (P.refuses (view value.now))) }
{
    let part = P::read(alloc, value)?;
    parts.push(part)?;
    Ok(())
}

/// The array of these rows.
pub(crate) fn write_each<P: Part>(alloc: Global, parts: &[P]) -> Result<Value, Memory>
    ensures { IfOk result (λ value. view value ≡ array_of (map P.json parts.now)) }
{
    let mut values = Vec::new(alloc);
    for part in parts {
        let value = part.write(alloc)?;
        values.push(value)?;
    }
    Ok(Value::Array(values))
}

impl Part for Note {
    ghost reads = { ReadsNote };

    ghost refuses = { RefusesRowOf tables.Note };

    ghost json = { λ note. row_json (rows.Note note) };

    fn read(alloc: Global, value: &Value) -> Result<Note, WireFault> {
        match read_row(alloc, Table::Note, value)? {
            Row::Note(note) => Ok(note),
            _ => unreachable!(),
        }
    }

    fn write(&self, alloc: Global) -> Result<Value, Memory> {
        // The writer of rows takes a row of any kind, so it is given a copy.
        write_row(alloc, &Row::Note(self.copy()?))
    }
}

impl Part for Card {
    ghost reads = { ReadsCard };

    ghost refuses = { RefusesRowOf tables.Card };

    ghost json = { λ card. row_json (rows.Card card) };

    fn read(alloc: Global, value: &Value) -> Result<Card, WireFault> {
        match read_row(alloc, Table::Card, value)? {
            Row::Card(card) => Ok(card),
            _ => unreachable!(),
        }
    }

    fn write(&self, alloc: Global) -> Result<Value, Memory> {
        // The writer of rows takes a row of any kind, so it is given a copy.
        write_row(alloc, &Row::Card(self.copy()?))
    }
}

impl Part for Review {
    ghost reads = { ReadsReview };

    ghost refuses = { RefusesRowOf tables.Review };

    ghost json = { λ review. row_json (rows.Review review) };

    fn read(alloc: Global, value: &Value) -> Result<Review, WireFault> {
        match read_row(alloc, Table::Review, value)? {
            Row::Review(review) => Ok(review),
            _ => unreachable!(),
        }
    }

    fn write(&self, alloc: Global) -> Result<Value, Memory> {
        // The writer of rows takes a row of any kind, so it is given a copy.
        write_row(alloc, &Row::Review(*self))
    }
}

impl Part for NoteType {
    ghost reads = { ReadsNoteType };

    ghost refuses = { RefusesRowOf tables.NoteType };

    ghost json = { λ note_type. row_json (rows.NoteType note_type) };

    fn read(alloc: Global, value: &Value) -> Result<NoteType, WireFault> {
        match read_row(alloc, Table::NoteType, value)? {
            Row::NoteType(note_type) => Ok(note_type),
            _ => unreachable!(),
        }
    }

    fn write(&self, alloc: Global) -> Result<Value, Memory> {
        // The writer of rows takes a row of any kind, so it is given a copy.
        write_row(alloc, &Row::NoteType(self.copy()?))
    }
}

impl Part for Deck {
    ghost reads = { ReadsDeck };

    ghost refuses = { RefusesRowOf tables.Deck };

    ghost json = { λ deck. row_json (rows.Deck deck) };

    fn read(alloc: Global, value: &Value) -> Result<Deck, WireFault> {
        match read_row(alloc, Table::Deck, value)? {
            Row::Deck(deck) => Ok(deck),
            _ => unreachable!(),
        }
    }

    fn write(&self, alloc: Global) -> Result<Value, Memory> {
        // The writer of rows takes a row of any kind, so it is given a copy.
        write_row(alloc, &Row::Deck(self.copy()?))
    }
}

impl Part for Options {
    ghost reads = { ReadsOptions };

    ghost refuses = { RefusesRowOf tables.Options };

    ghost json = { λ options. row_json (rows.Options options) };

    fn read(alloc: Global, value: &Value) -> Result<Options, WireFault> {
        match read_row(alloc, Table::Options, value)? {
            Row::Options(options) => Ok(options),
            _ => unreachable!(),
        }
    }

    fn write(&self, alloc: Global) -> Result<Value, Memory> {
        // The writer of rows takes a row of any kind, so it is given a copy.
        write_row(alloc, &Row::Options(self.copy()?))
    }
}
