ghost use Rattle.std.specs.List.{All, IsDistinct};
ghost use Rattle.std.specs.Ordering.{eq_by_cmp};
ghost use Rattle.std.specs.Prelude.{◌≡◌, ◌≤◌, ◌++◌, map, IfOk, OnOk};
ghost use Rattle.ak_base.specs.Names.{name_cmp};
ghost use Rattle.ak_base.specs.Rows.{IsChecked, name_of};
ghost use Rattle.ak_made_collections.specs.MadeCollections.{IsMade, made_content};
ghost use Rattle.ak_made_collections.specs.MadeLists.{card_rows, made_rows, note_rows, review_rows};
ghost use Rattle.ak_merge.specs.Commits.{IsCommitted};

use crate::made_cards::{made_card, made_review};
use crate::made_notes::made_note;
use crate::plans::MakePlan;
use crate::row_numbers::{REVIEWS_OF_A_CARD, cards_before};
use ak_base::{List, Memory, Row};
use ak_openings::{OPENING_MOMENT, Opening, opening};
use std::alloc::Global;

/// The collection that is made of a seed: nothing of it is to be sent.
pub fn made_collection(alloc: Global, plan: MakePlan) -> Result<Opening, Memory>
    ensures is { IfOk result (IsMade plan.seed plan.size.notes) }

    // So a server may hold it: each row passes its check, no two have one name, and each has the number 0.
    ensures checked { IfOk result (λ made. All IsChecked made.rows) }
    ensures distinct { IfOk result (λ made. IsDistinct (eq_by_cmp name_cmp) (map name_of made.rows)) }
    ensures lawful { IfOk result (λ made. IsCommitted (made_content made)) }
{
    let mut rows = made_rows(alloc, plan)?;
    let Opening { rows: opened, head } = opening(alloc, OPENING_MOMENT, false)?;
    let mut opened = opened.into_vec();
    rows.append(&mut opened)?;
    Ok(Opening {
        rows: List::of(rows),
        head,
    })
}

/// Its notes, cards and reviews.
fn made_rows(alloc: Global, plan: MakePlan) -> Result<Vec<Row>, Memory>
    ensures are { IfOk result (λ rows. rows.items ≡ made_rows plan.seed plan.size.notes) }
    ensures checked { IfOk result (λ rows. All IsChecked rows.items) }
{
    let cards = cards_before(plan.size.notes);
    let mut rows = Vec::new(alloc);
    push_notes(&mut rows, alloc, plan.seed, plan.size.notes)?;
    push_cards(&mut rows, alloc, plan.seed, cards)?;
    push_reviews(&mut rows, plan.seed, REVIEWS_OF_A_CARD * cards)?;
    Ok(rows)
}

/// Adds so many notes at the end, by their ids.
fn push_notes(rows: &mut Vec<Row>, alloc: Global, seed: u64, count: u64) -> Result<(), Memory>
    requires { count ≤ 20_000 }
    ensures are { OnOk result (rows.new.items ≡ rows.old.items ++ note_rows seed count) }
    ensures checked { OnOk result (All IsChecked (note_rows seed count)) }
{
    for number in 0..count {
        let note = made_note(alloc, seed, number)?;
        rows.push(Row::Note(note))?;
    }
    Ok(())
}

/// Adds so many cards at the end, by their ids.
fn push_cards(rows: &mut Vec<Row>, alloc: Global, seed: u64, count: u64) -> Result<(), Memory>
    requires { count ≤ 40_000 }
    ensures { OnOk result (rows.new.items ≡ rows.old.items ++ card_rows seed count) }
{
    for number in 0..count {
        let card = made_card(alloc, seed, number)?;
        rows.push(Row::Card(card))?;
    }
    Ok(())
}

/// Adds so many reviews at the end, by their ids.
fn push_reviews(rows: &mut Vec<Row>, seed: u64, count: u64) -> Result<(), Memory>
    requires { count ≤ 160_000 }
    ensures { OnOk result (rows.new.items ≡ rows.old.items ++ review_rows seed count) }
{
    for number in 0..count {
        rows.push(Row::Review(made_review(seed, number)))?;
    }
    Ok(())
}
