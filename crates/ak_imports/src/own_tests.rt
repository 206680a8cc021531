// The tests of what is made of one record, before the next record is looked at.
ghost use Rattle.std.specs.Prelude.{◌≡◌, ◌⊎◌, ◌||◌, None, Some, IfErr, IfOk, OnOk};
ghost use Rattle.std.specs.List.{AllByRecursion};
ghost use Rattle.ak_base.specs.Rows.{IsChecked};
ghost use Rattle.ak_edit.specs.declared.desk_faults.DeskFault.TheVariants as faults;
ghost use Rattle.ak_imports.specs.OwnTests.{can_rise, first_row_fault, is_up_to, is_without, note_stamp, own_fault, rows_made};
ghost use Rattle.ak_base.specs.Limits.{last_stamp};
ghost use Rattle.ak_base.specs.declared.errors.RowFault.{RowFault as Fault};
ghost use Rattle.ak_merge.specs.Edits.{advanced, second_of};

use ak_base::{Card, LAST_MOMENT, LAST_STAMP, Memory, Row, RowFault};
use ak_edit::DeskFault;
use ak_notes::MadeNote;
use std::alloc::Global;

/// How what is made of a record is tested.
#[derive(Clone, Copy, Debug)]
pub(crate) struct Trial {
    /// The moment of the import, in milliseconds.
    pub(crate) at: i64,
    /// Whether the note is new.
    pub(crate) is_new: bool,
    /// The moment at which the collection was changed last.
    pub(crate) moment: i64,
}

/// Tests the rows that are made, and then their stamps and the moment. The rows are those of `made`.
pub(crate) fn test_made(trial: Trial, made: &MadeNote, rows: &[Row]) -> Result<(), DeskFault>
    requires { rows.now ≡ rows_made made.now }
    ensures ok { OnOk result (own_fault trial made.now ≡ None) }
    ensures checked { OnOk result (AllByRecursion IsChecked rows.now) }
    ensures err { IfErr result (λ fault. own_fault trial made.now ≡ Some fault) }
    ensures listed { IfErr result (λ fault. ((row : Fault) × (fault ≡ faults.Row row)) ⊎ (fault ≡ faults.StampEnd)) }
{
    if let Some(fault) = first_row_fault(rows) {
        return Err(DeskFault::Row(fault));
    }
    if can_rise(trial, made) {
        return Ok(());
    }
    Err(DeskFault::StampEnd)
}

/// The fault of the first of the rows that does not pass its check.
fn first_row_fault(rows: &[Row]) -> Option<RowFault>
    ensures { result ≡ first_row_fault rows.now }
{
    for row in rows {
        if let Err(fault) = row.check() {
            return Some(fault);
        }
    }
    None
}

/// Whether the stamps of the rows that are made and the collection's moment can rise.
fn can_rise(trial: Trial, made: &MadeNote) -> bool
    ensures { result ≡ can_rise trial made.now }
{
    if !can_note_rise(trial, made.note.stamp) {
        return false;
    }
    if !can_cards_rise(trial, made.cards.as_slice()) {
        return false;
    }
    can_advance(trial.at, trial.moment, LAST_MOMENT)
}

/// Whether there are no new cards, or the stamp of now, which they get, is one.
fn can_cards_rise(trial: Trial, cards: &[Card]) -> bool
    ensures { result ≡ (is_without cards.now || is_up_to last_stamp (second_of trial.at)) }
{
    match cards {
        [] => true,
        [_, ..] => is_up_to(LAST_STAMP, trial.at / 1000),
    }
}

/// Whether the note's stamp can rise from this one.
fn can_note_rise(trial: Trial, old: i64) -> bool
    ensures { result ≡ is_up_to last_stamp (note_stamp trial old) }
{
    let second = trial.at / 1000;
    if trial.is_new {
        return is_up_to(LAST_STAMP, second);
    }
    can_advance(second, old, LAST_STAMP)
}

/// Whether the greater of now and the old one plus 1 is from 0 to the last one. The sum is not made: it may be past all.
fn can_advance(now: i64, old: i64, last: i64) -> bool
    ensures { result ≡ is_up_to last (advanced now old) }
{
    now <= last && old < last && (0 <= now || -1 <= old)
}

/// Whether it is from 0 to the last one.
fn is_up_to(last: i64, number: i64) -> bool
    ensures { result ≡ is_up_to last number }
{
    0 <= number && number <= last
}

/// The rows that are made: the note, and then its new cards.
pub(crate) fn rows_made(alloc: Global, made: &MadeNote) -> Result<Vec<Row>, Memory>
    ensures { IfOk result (λ rows. rows.items ≡ rows_made made.now) }
{
    let mut rows = Vec::new(alloc);
    rows.push(Row::Note(made.note.copy()?))?;
    for card in made.cards.as_slice() {
        rows.push(Row::Card(card.copy()?))?;
    }
    Ok(rows)
}
