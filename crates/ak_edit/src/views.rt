// What is held, seen with the changes of an edit over it.
ghost use Rattle.std.specs.Prelude.{◌≡◌, ◌||◌, ◌++◌, ◌&&◌, not, is_some, false, ℤ, IfOk, OnOk};
ghost use Rattle.std.specs.BTreeMap.{is_at};
ghost use Rattle.std.specs.List.Sorted.{IsStrictlySortedBy};
ghost use Rattle.std.specs.Map.{keys_of};
ghost use Rattle.std.specs.Ordering.{int_cmp};
ghost use Rattle.ak_base.specs.Names.{name_cmp};
ghost use Rattle.ak_keep.specs.Collections.{cards_of};
ghost use Rattle.ak_keep.specs.Readings.{ReadsBy};
ghost use Rattle.ak_edit.specs.Overlays.{entry_at};
ghost use Rattle.ak_edit.specs.Views.{AreCardsOver, card_name, has_id, has_own, has_unchanged, head_over, is_card, rows_over};

use crate::changes::{Change, has_in};
use crate::ends::conf_after;
use ak_base::{Head, List, Memory, Name, Row, Table};
use ak_keep::{KeepFault, Lookup};
use ak_merge::take_tags;
use std::collections::{BTreeMap, BTreeSet};

/// What is held, with the changes of an edit over it: rows, cards of notes, settings and tags are as the edit has them so
/// far. Stamps, graves and moments are those that are held, until the edit's end.
#[derive(Drop)]
pub struct ChangedView<'a, R> {
    pub change: &'a Change,
    pub from: &'a mut R,
}

impl<'a, R: Lookup> Lookup for ChangedView<'a, R> {
    ghost use Rattle.std.specs.Prelude.{ℕ, false};
    ghost use Rattle.ak_keep.specs.Keepers.{Keeping, changed};
    ghost use Rattle.ak_edit.specs.Overlays.{Overlay};
    ghost use Rattle.ak_edit.specs.Views.{overlaid};

    ghost keeping = { λ view. changed (overlaid view.change.now) (R.keeping view.from.now) };

    ghost health = { λ view. R.health view.from.now };

    ghost checks = { false };

    ghost Kept = { Overlay × (ℕ × (Keeping × R.Kept)) };

    ghost kept = { λ view. (view.change.now, (view.from.ghost_name, (R.keeping view.from.now, R.kept view.from.now))) };

    fn faults(&self) -> u64 {
        self.from.faults()
    }

    fn held(&self) -> bool {
        // For the proof alone: it says that the rows that were put bear their names.
        self.change.fits();
        self.from.held()
    }

    fn get(&mut self, name: Name) -> Result<Option<Row>, KeepFault> {
        self.change.get(self.from, name)
    }

    fn stamp_of(&mut self, name: Name) -> Result<Option<i64>, KeepFault> {
        self.change.stamp_of(self.from, name)
    }

    fn cards_of(&mut self, note: i64) -> Result<List<i64>, KeepFault> {
        self.change.cards_over(self.from, note)
    }

    fn head(&mut self) -> Result<Option<Head>, KeepFault> {
        match self.from.head()? {
            Some(head) => {
                let made = self.change.head_over(head)?;
                return Ok(Some(made));
            }
            None => return Ok(None),
        }
    }
}

impl Change {
    /// The ids of the cards of a note as the edit has them so far, in ascending order. It takes a step for each change.
    pub(crate) fn cards_over<R: Lookup>(
        &self,
        from: &mut R,
        note: i64,
    ) -> Result<List<i64>, KeepFault>
        ensures reads { ReadsBy R.Lookup from.old from.new result (λ h ids. ids ≡ cards_of note (rows_over self.now h.rows)) }
        ensures ascend { IfOk result (λ ids. IsStrictlySortedBy int_cmp ids) }
    {
        // For the proof alone: it says that what is told bears its names.
        let _named = from.held();
        let held = from.cards_of(note)?;
        let ids = cards_with(held, &self.rows, note)?;
        return Ok(ids);
    }

    /// The head with the settings that were set and the tags that came.
    pub(crate) fn head_over(&self, head: Head) -> Result<Head, Memory>
        ensures { IfOk result (λ made. made ≡ head_over self.now head) }
    {
        let tags = take_tags(head.tags, self.tags.as_slice(), -1)?;
        let conf = conf_after(&self.conf, head.conf)?;
        return Ok(Head {
            crt: head.crt,
            moment: head.moment,
            schema: head.schema,
            usn: head.usn,
            last_sync: head.last_sync,
            conf,
            tags,
        });
    }
}

/// The ids of a note's cards, of those that are held and of what an edit changed.
fn cards_with(
    held: List<i64>,
    rows: &BTreeMap<Name, Option<Row>>,
    note: i64,
) -> Result<List<i64>, Memory>
    ensures cards { IfOk result (λ ids. AreCardsOver note held rows.now.entries ids) }
    ensures ordered { IsStrictlySortedBy name_cmp (keys_of rows.now.entries) }
{
    // For the proof alone: a map says that its keys ascend when its length is asked.
    let _ordered = rows.len();
    let mut ids = BTreeSet::new(held.allocator());
    add_unchanged(&mut ids, held.as_slice(), rows)?;
    add_own(&mut ids, rows, note)?;
    let list = listed(List::new(held.allocator()), &ids)?;
    Ok(list)
}

/// Adds the ids of the cards that the edit has not changed.
fn add_unchanged(
    ids: &mut BTreeSet<i64>,
    held: &[i64],
    rows: &BTreeMap<Name, Option<Row>>,
) -> Result<(), Memory>
    ensures { OnOk result ((id : ℤ) → has_id ids.new.keys id ≡ (has_unchanged rows.now.entries held.now id || has_id ids.old.keys id)) }
{
    for id in held {
        if !has_in(rows, &card_name(*id)) {
            add_id(ids, *id)?;
        }
    }
    Ok(())
}

/// Adds the ids of the note's cards among the rows that the edit has put.
fn add_own(
    ids: &mut BTreeSet<i64>,
    rows: &BTreeMap<Name, Option<Row>>,
    note: i64,
) -> Result<(), Memory>
    ensures { OnOk result ((id : ℤ) → has_id ids.new.keys id ≡ (has_own note rows.now.entries id || has_id ids.old.keys id)) }
{
    for (name, row) in rows {
        if is_card(row, note) {
            add_id(ids, name.id)?;
        }
    }
    Ok(())
}

/// The ids of the set after those of the list, in ascending order.
fn listed(list: List<i64>, ids: &BTreeSet<i64>) -> Result<List<i64>, Memory>
    ensures ids { IfOk result (λ made. made ≡ list ++ ids.now.keys) }
    ensures ascend { IsStrictlySortedBy int_cmp ids.now.keys }
{
    let mut made = list;
    for id in ids {
        made.push(*id)?;
    }
    Ok(made)
}

/// Adds the id, if it is not there.
fn add_id(ids: &mut BTreeSet<i64>, id: i64) -> Result<(), Memory>
    ensures { OnOk result ((other : ℤ) → has_id ids.new.keys other ≡ (is_at (int_cmp other) id || has_id ids.old.keys other)) }
{
    ids.insert(id)?;
    Ok(())
}

/// The name of a card.
fn card_name(id: i64) -> Name
    ensures { result ≡ card_name id }
{
    Name {
        table: Table::Card,
        id,
    }
}

/// Whether it is a card of this note.
fn is_card(row: &Option<Row>, note: i64) -> bool
    ensures { result ≡ is_card note row.now }
{
    match row {
        Some(Row::Card(card)) => card.nid == note,
        _ => false,
    }
}
