ghost use Rattle.std.specs.Prelude.{◌≡◌, None, Ok, IfOk, IfErr};
ghost use Rattle.serde_json.specs.View.{view};
ghost use Rattle.ak_json.specs.Faults.{Tells};
ghost use Rattle.ak_json.specs.Rows.{row_form_fault, deep_in, form_refusal, IsRow, stored_check, stored_check_of, table_check, kept_row, code_check, ReadsRow, RefusesRow, row_json};

use crate::JsonFault;
use crate::arrays::{card_of, grave_of, note_of, review_of};
use crate::decks::{deck_of, write_deck};
use crate::form_faults::{FormFault, array_form_fault, refuse};
use crate::forms::{CARD, DECK, GRAVE, NOTE, NOTE_TYPE, REVIEW};
use crate::groups::{options_of, write_options};
use crate::note_types::{note_type_of, write_note_type};
use crate::objects::object_form_fault;
use crate::versions::Version;
use crate::written::{write_card, write_grave, write_note, write_review};
use ak_base::{Grave, Memory, Row, RowFault, Table};
use serde_json::Value;
use std::alloc::Global;

/// The row of that table that a value stands for. The first column or key that is missing or of
/// another kind is told, in the order of the columns, then the first unknown key that nests over 63
/// deep or holds a number that is not whole, in the order of bytes, then the first column out of its
/// range. A step out of its range is told in minutes if an option group is written in version 1; the
/// row has its steps in seconds.
pub fn read_row(alloc: Global, table: Table, value: &Value) -> Result<Row, JsonFault>
    ensures ok { IfOk result (ReadsRow table (view value.now)) }
    ensures refused { IfErr result (RefusesRow table (view value.now)) }
{
    let row = form_row(alloc, table, value)?;
    match check_stored(table, value, &row) {
        Ok(()) => Ok(kept_row(alloc, value, row)?),
        Err(fault) => Err(JsonFault::Row(fault)),
    }
}

/// The row of a value of the form of its table, its columns in any range.
fn form_row(alloc: Global, table: Table, value: &Value) -> Result<Row, JsonFault>
    ensures ok { IfOk result (IsRow table (view value.now)) }
    ensures plain { IfOk result (λ row. form_refusal table (view value.now) ≡ None) }
    ensures err { IfErr result (Tells (form_refusal table (view value.now))) }
{
    refuse(alloc, row_form_fault(table, value))?;
    made_of(alloc, table, value)
}

/// The first fault of the value of a row of that table.
fn row_form_fault(table: Table, value: &Value) -> Option<FormFault>
    ensures { result ≡ row_form_fault table (view value.now) }
{
    match table {
        Table::Note => array_form_fault(&NOTE, value),
        Table::Card => array_form_fault(&CARD, value),
        Table::Review => array_form_fault(&REVIEW, value),
        Table::NoteType => object_form_fault(&NOTE_TYPE, value),
        Table::Deck => object_form_fault(&DECK, value),
        Table::Options => object_form_fault(Version::of(value).form(), value),
        Table::NoteGrave => array_form_fault(&GRAVE, value),
        Table::CardGrave => array_form_fault(&GRAVE, value),
        Table::DeckGrave => array_form_fault(&GRAVE, value),
    }
}

/// The row of a value whose known columns have no fault.
#[tactic(auto, using(crate::proofs::RowForms::fields_faultless, crate::proofs::RowForms::templates_faultless))]
fn made_of(alloc: Global, table: Table, value: &Value) -> Result<Row, JsonFault>
    requires { row_form_fault table (view value.now) ≡ None }
    ensures ok { IfOk result (IsRow table (view value.now)) }
    ensures plain { IfOk result (λ row. deep_in table (view value.now) ≡ None) }
    ensures err { IfErr result (Tells (deep_in table (view value.now))) }
{
    match table {
        Table::Note => Ok(Row::Note(note_of(alloc, value)?)),
        Table::Card => Ok(Row::Card(card_of(alloc, value)?)),
        Table::Review => Ok(Row::Review(review_of(value))),
        Table::NoteType => Ok(Row::NoteType(note_type_of(alloc, value)?)),
        Table::Deck => Ok(Row::Deck(deck_of(alloc, value)?)),
        Table::Options => Ok(Row::Options(options_of(alloc, value)?)),
        Table::NoteGrave => Ok(Row::Grave(grave_of(value))),
        Table::CardGrave => Ok(Row::Grave(grave_of(value))),
        Table::DeckGrave => Ok(Row::Grave(grave_of(value))),
    }
}

/// The first column that is out of its range, with the steps in the unit of the value's version; then the
/// code of a grave of another table.
fn check_stored(table: Table, value: &Value, row: &Row) -> Result<(), RowFault>
    ensures { result ≡ stored_check table (view value.now) row.now }
{
    check_columns(value, row)?;
    check_table(table, row)
}

/// The first column that is out of its range, with the steps in the unit of the value's version.
fn check_columns(value: &Value, row: &Row) -> Result<(), RowFault>
    ensures { result ≡ stored_check_of (view value.now) row.now }
{
    match row {
        Row::Options(options) => options.check_by(Version::of(value).longest_step()),
        _ => row.check(),
    }
}

/// Whether a row stands in its own table of graves, if it is a grave.
fn check_table(table: Table, row: &Row) -> Result<(), RowFault>
    ensures { result ≡ table_check table row.now }
{
    match row {
        Row::Grave(grave) => check_code(table, grave),
        _ => Ok(()),
    }
}

/// The row of what a value stands for, with its steps in seconds.
fn kept_row(alloc: Global, value: &Value, row: Row) -> Result<Row, Memory>
    requires { stored_check_of (view value.now) row ≡ Ok tt }
    ensures { IfOk result (λ kept. kept ≡ kept_row (view value.now) row) }
{
    match row {
        Row::Options(options) => {
            let options = Version::of(value).in_seconds(alloc, options)?;
            Ok(Row::Options(options))
        },
        other => Ok(other),
    }
}

/// Whether a grave stands in the table of the graves with its code.
fn check_code(table: Table, grave: &Grave) -> Result<(), RowFault>
    ensures { result ≡ code_check table grave.now }
{
    if let Some(code) = table.stored_code() {
        if code == grave.kind {
            return Ok(());
        }
    }
    Err(RowFault::BadCode {
        column: 2,
        value: grave.kind,
    })
}

/// The value of a row, with the unknown keys that it keeps.
pub fn write_row(alloc: Global, row: &Row) -> Result<Value, Memory>
    ensures { IfOk result (λ value. view value ≡ row_json row.now) }
{
    match row {
        Row::Note(note) => write_note(alloc, note),
        Row::Card(card) => write_card(alloc, card),
        Row::Review(review) => write_review(alloc, review),
        Row::NoteType(note_type) => write_note_type(alloc, note_type),
        Row::Deck(deck) => write_deck(alloc, deck),
        Row::Options(options) => write_options(alloc, options),
        Row::Grave(grave) => write_grave(alloc, grave),
    }
}
