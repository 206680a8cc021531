// The other cards of a note that are buried when one of them was answered.
ghost use Rattle.std.specs.Prelude.{◌≡◌, IfOk, OnOk, option_and_then};
ghost use Rattle.std.specs.FinMap.{get};
ghost use Rattle.ak_edit.specs.Views.{rows_over};
ghost use Rattle.ak_keep.specs.Readings.{ReadsBy};
ghost use Rattle.ak_queue.specs.Burials.{bury_list};
ghost use Rattle.ak_study.specs.Siblings.{as_sibling, put_aside, put_siblings};
ghost use Rattle.ak_study.specs.RowChanges.{put_some};

use crate::answerings::Answering;
use crate::card_places::queued;
use ak_base::{Day, List, Memory, Name, Row, Table};
use ak_edit::{Change, ChangedView};
use ak_keep::{KeepFault, Lookup};
use ak_queue::bury_list;

/// The cards that are buried since this one was answered, as the edit has them so far.
pub(crate) fn siblings_of<R: Lookup>(
    from: &mut R,
    change: &Change,
    day: Day,
    answering: &Answering,
) -> Result<List<i64>, KeepFault>
    ensures reads { ReadsBy R.Lookup from.old from.new result (λ h ids.
        ids ≡ bury_list (rows_over change.now h.rows) answering.now.was answering.now.options day) }
{
    let mut view = ChangedView { change, from };
    bury_list(&mut view, &answering.was, &answering.options, day)
}

/// Buries each of these cards as a sibling.
pub(crate) fn bury_siblings<R: Lookup>(
    from: &mut R,
    change: &mut Change,
    ids: &[i64],
) -> Result<(), KeepFault>
    ensures reads { ReadsBy R.Lookup from.old from.new result (λ h _.
        change.new ≡ put_siblings (get h.rows) ids.now change.old) }
{
    for id in ids {
        let name = Name {
            table: Table::Card,
            id: *id,
        };
        bury_sibling(from, change, name)?;
    }
    Ok(())
}

/// Buries the card of this name as a sibling.
fn bury_sibling<R: Lookup>(from: &mut R, change: &mut Change, name: Name) -> Result<(), KeepFault>
    ensures reads { ReadsBy R.Lookup from.old from.new result (λ h _. change.new ≡ put_aside (get h.rows) name change.old) }
{
    let found = change.get(from, name)?;
    put_found(change, found)?;
    Ok(())
}

/// Puts the row in queue -2, if it is a card.
fn put_found(change: &mut Change, found: Option<Row>) -> Result<(), Memory>
    ensures { OnOk result (change.new ≡ put_some (option_and_then as_sibling found) change.old) }
{
    match found {
        Some(Row::Card(card)) => change.put(Row::Card(queued(card, -2))),
        other => {
            drop(other);
            Ok(())
        }
    }
}
