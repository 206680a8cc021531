ghost use Rattle.std.specs.Prelude.{◌≡◌, IfOk, map};
ghost use Rattle.serde_json.specs.Data.{array};
ghost use Rattle.serde_json.specs.View.{view, items_of};
ghost use Rattle.ak_json.specs.Written.{cell_data, cells_data, steps_json, note_json, card_json, review_json, grave_json};

use crate::decimals;
use ak_base::{Card, Count, Grave, List, Memory, Note, Review, Text};
use serde_json::{Value, json};
use std::alloc::Global;

/// What is written into a column.
#[derive(Clone, Copy)]
pub(crate) enum Cell<'a> {
    Integer(i64),
    /// Thousandths, as a decimal text.
    Decimal(i64),
    Text(&'a Text),
    Bool(bool),
    /// 1 for true, 0 for false.
    Bit(bool),
    Pair(Count),
    /// A place in a list, from 0.
    Place(usize),
    Steps(&'a List<i64>),
    /// A value that was made before.
    Made(&'a Value),
}

/// The array of a note.
#[tactic(auto, unfolding(crate::specs::Written::note_cells))]
pub(crate) fn write_note(alloc: Global, note: &Note) -> Result<Value, Memory>
    ensures { IfOk result (λ value. view value ≡ note_json note.now) }
{
    write_array(
        alloc,
        &[
            Cell::Integer(note.id),
            Cell::Text(&note.guid),
            Cell::Integer(note.mid),
            Cell::Integer(note.stamp),
            Cell::Integer(note.usn),
            Cell::Text(&note.tags),
            Cell::Text(&note.flds),
            Cell::Text(&note.sfld),
            Cell::Integer(note.csum),
            Cell::Integer(note.flags),
            Cell::Text(&note.extra),
        ],
    )
}

/// The array of a card.
#[tactic(auto, unfolding(crate::specs::Written::card_cells))]
pub(crate) fn write_card(alloc: Global, card: &Card) -> Result<Value, Memory>
    ensures { IfOk result (λ value. view value ≡ card_json card.now) }
{
    write_array(
        alloc,
        &[
            Cell::Integer(card.id),
            Cell::Integer(card.nid),
            Cell::Integer(card.did),
            Cell::Integer(card.ord),
            Cell::Integer(card.stamp),
            Cell::Integer(card.usn),
            Cell::Integer(card.kind),
            Cell::Integer(card.queue),
            Cell::Integer(card.due),
            Cell::Integer(card.ivl),
            Cell::Integer(card.factor),
            Cell::Integer(card.reps),
            Cell::Integer(card.lapses),
            Cell::Integer(card.left),
            Cell::Integer(card.odue),
            Cell::Integer(card.odid),
            Cell::Integer(card.flags),
            Cell::Text(&card.extra),
        ],
    )
}

/// The array of a review.
#[tactic(auto, unfolding(crate::specs::Written::review_cells))]
pub(crate) fn write_review(alloc: Global, review: &Review) -> Result<Value, Memory>
    ensures { IfOk result (λ value. view value ≡ review_json review.now) }
{
    write_array(
        alloc,
        &[
            Cell::Integer(review.id),
            Cell::Integer(review.cid),
            Cell::Integer(review.usn),
            Cell::Integer(review.ease),
            Cell::Integer(review.ivl),
            Cell::Integer(review.last_ivl),
            Cell::Integer(review.factor),
            Cell::Integer(review.time),
            Cell::Integer(review.kind),
        ],
    )
}

/// The array of a grave.
#[tactic(auto, unfolding(crate::specs::Written::grave_cells))]
pub(crate) fn write_grave(alloc: Global, grave: &Grave) -> Result<Value, Memory>
    ensures { IfOk result (λ value. view value ≡ grave_json grave.now) }
{
    write_array(
        alloc,
        &[
            Cell::Integer(grave.usn),
            Cell::Integer(grave.oid),
            Cell::Integer(grave.kind),
        ],
    )
}

/// The array of these cells.
fn write_array(alloc: Global, cells: &[Cell<'_>]) -> Result<Value, Memory>
    ensures { IfOk result (λ value. view value ≡ array (items_of (cells_data cells.now))) }
{
    let mut values = Vec::new(alloc);
    for cell in cells {
        let value = cell.value(alloc)?;
        values.push(value)?;
    }
    Ok(Value::Array(values))
}

impl Cell<'_> {
    pub(crate) fn value(self, alloc: Global) -> Result<Value, Memory>
        ensures { IfOk result (λ value. view value ≡ cell_data self.entry) }
    {
        match self {
            Cell::Integer(number) => Ok(Value::from(number)),
            Cell::Decimal(permille) => {
                let text = decimals::text_of(alloc, permille)?;
                Ok(Value::try_from_str(alloc, text.as_str())?)
            },
            Cell::Text(text) => Ok(Value::try_from_str(alloc, text.as_str())?),
            Cell::Bool(truth) => Ok(Value::Bool(truth)),
            Cell::Bit(truth) => {
                if truth {
                    return Ok(Value::from(1_i64));
                }
                Ok(Value::from(0_i64))
            },
            Cell::Pair(count) => Ok(json!(in alloc; [count.day, count.count])?),
            Cell::Place(place) => Ok(Value::from(place as u64)),
            Cell::Steps(steps) => write_steps(alloc, steps.as_slice()),
            Cell::Made(value) => Ok(value.clone()?),
        }
    }
}

/// The array of these numbers.
fn write_steps(alloc: Global, steps: &[i64]) -> Result<Value, Memory>
    ensures { IfOk result (λ value. view value ≡ steps_json steps.now) }
{
    let mut values = Vec::new(alloc);
    for step in steps {
        values.push(Value::from(*step))?;
    }
    Ok(Value::Array(values))
}
