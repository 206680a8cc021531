ghost use Rattle.std.specs.Prelude.{◌≡◌, ◌++◌, pos, negsuc, true, ◌<ℤ◌, ◌≤ℤ◌, [], ◌∷◌, map, Err, IfOk, IfSome, OnOk, OnErr};
ghost use Rattle.std.specs.FinMap.{get};
ghost use Rattle.std.specs.List.{All, IsDistinct};
ghost use Rattle.std.specs.Ordering.{eq_by_cmp};
ghost use Rattle.ak_keep.specs.Graves.{RowsByName};
ghost use Rattle.std.specs.List.Sorted.{IsStrictlySortedBy};
ghost use Rattle.std.specs.Map.{keys_of};
ghost use Rattle.ak_base.specs.Limits.{last_moment};
ghost use Rattle.ak_base.specs.Names.{name_cmp};
ghost use Rattle.ak_base.specs.Tables.{grave_name};
ghost use Rattle.std.specs.Option.{option_map};
ghost use Rattle.ak_keep.specs.declared.keepers.KeepFault.TheVariants.{Memory as WantOfMemory};
ghost use Rattle.ak_base.specs.Rows.{IsChecked, name_of, stamp_of};
ghost use Rattle.ak_base.specs.declared.rows.Row.TheVariants as rows;
ghost use Rattle.ak_faults.specs.Causes.{GoesOn};
ghost use Rattle.ak_keep.specs.Keepers.{WhereTold};
ghost use Rattle.ak_keep.specs.Readings.{ReadsBy};
ghost use Rattle.ak_merge.specs.Edits.{advanced, changes_row, edited, goes, grave_left};
ghost use Rattle.ak_edit.specs.Plans.{AreWrittenOnce, IsReadWrite, grave_writes, row_writes, stamp_made, writes_of, writes_under};

use ak_base::{Grave, Memory, Name, Row};
use ak_keep::{KeepFault, Keeper};
use std::alloc::Global;
use std::collections::BTreeMap;

/// When an edit is made.
#[derive(Clone, Copy)]
pub(crate) struct Moment {
    /// In milliseconds from 1970 on.
    pub(crate) at: i64,
    /// The whole seconds of it.
    pub(crate) second: i64,
}

/// What an edit writes under a name.
#[derive(Drop)]
pub(crate) struct Write {
    pub(crate) name: Name,
    /// What stood there before.
    pub(crate) before: Option<Row>,
    /// What is to stand there, with stamp 0. None if the row goes.
    pub(crate) row: Option<Row>,
    /// The stamp that the row gets.
    pub(crate) stamp: i64,
}

/// What an edit asks for under a name.
#[derive(Clone, Copy)]
struct Entry<'a> {
    name: Name,
    /// None if the row goes.
    made: &'a Option<Row>,
}

/// The writes of these changes, in the order of the names.
pub(crate) fn plan_rows<K: Keeper>(
    alloc: Global,
    rows: &BTreeMap<Name, Option<Row>>,
    keeper: &mut K,
    now: Moment,
) -> Result<Vec<Write>, KeepFault>
    ensures reads { ReadsBy K.Lookup keeper.old keeper.new result (λ h writes. writes.items ≡ writes_of now.second (get h.rows) rows.now.entries) }
    ensures read { IfOk result (λ writes. All IsReadWrite writes.items) }
    ensures distinct { IfOk result (λ writes. AreWrittenOnce writes.items) }
    ensures ordered { IsStrictlySortedBy name_cmp (keys_of rows.now.entries) }
{
    // For the proof alone: a map says that its keys ascend when its length is asked.
    let _ordered = rows.len();
    let mut writes = Vec::new(alloc);
    for (name, made) in rows {
        plan_row(&mut writes, keeper, Entry { name: *name, made }, now)?;
    }
    Ok(writes)
}

/// Adds the writes of one entry of the changes: a row, and its grave if it goes.
fn plan_row<K: Keeper>(
    writes: &mut Vec<Write>,
    keeper: &mut K,
    asked: Entry<'_>,
    now: Moment,
) -> Result<(), KeepFault>
    ensures reads { ReadsBy K.Lookup keeper.old keeper.new result (λ h done. writes.new.items ≡ writes.old.items ++ writes_under now.second (get h.rows) asked.entry.name asked.entry.made.now) }

    // Told or not, they are what some rows make of the entry.
    ensures some { OnOk result ((at : RowsByName) × (writes.new.items ≡ writes.old.items ++ writes_under now.second at asked.entry.name asked.entry.made.now)) }
    ensures read { All IsReadWrite writes.old.items → OnOk result (All IsReadWrite writes.new.items) }
{
    if asked.name.table.buried().is_some() {
        return Ok(());
    }

    // For the proof alone: it says that what the keeper gives passes its check.
    let _checks = keeper.marked();
    let before = keeper.get(asked.name)?;
    let buries = goes(&before, asked.made);
    push_row(writes, asked, before, now)?;
    if buries {
        plan_grave(writes, keeper, asked.name)?;
        return Ok(());
    }
    Ok(())
}

/// Whether the row that stood there goes.
fn goes(before: &Option<Row>, made: &Option<Row>) -> bool
    ensures { result ≡ goes before.now made.now }
{
    before.is_some() && made.is_none()
}

/// Whether the edit changes the row: its fields, stamp and usn aside.
fn changes_row(before: &Option<Row>, made: &Option<Row>) -> bool
    ensures { result ≡ changes_row before.now made.now }
{
    match made {
        Some(made) => match before {
            Some(before) => !made.same_but_stamp_and_usn(before),
            None => true,
        },
        None => before.is_some(),
    }
}

/// Adds the write of a row, if it changes what stood there before.
fn push_row(
    writes: &mut Vec<Write>,
    asked: Entry<'_>,
    before: Option<Row>,
    now: Moment,
) -> Result<(), KeepFault>
    requires read { IfSome before (λ row. (name_of row ≡ asked.name) × IsChecked row) }
    ensures row { OnOk result (writes.new.items ≡ writes.old.items ++ row_writes now.second asked.entry.name before asked.entry.made.now) }
    ensures read { All IsReadWrite writes.old.items → OnOk result (All IsReadWrite writes.new.items) }
    ensures refused { OnErr result (result ≡ Err WantOfMemory) }
{
    if !changes_row(&before, asked.made) {
        return Ok(());
    }
    let stamp = stamp_made(now, &before, asked.made);
    let row = made_row(asked.made)?;
    push_write(
        writes,
        Write {
            name: asked.name,
            before,
            row,
            stamp,
        },
    )?;
    Ok(())
}

/// The stamp that the row gets: that of now, or if it was there before, at least one more than it had. 0 if it goes.
fn stamp_made(now: Moment, before: &Option<Row>, made: &Option<Row>) -> i64
    requires checked { IfSome before.now IsChecked }
    ensures { result ≡ stamp_made now.second before.now made.now }
{
    match made {
        Some(_) => match before {
            Some(before) => advanced_stamp(now, before),
            None => now.second,
        },
        None => 0,
    }
}

/// The greater of now and the stamp of the row plus 1.
pub(crate) fn advanced_stamp(now: Moment, row: &Row) -> i64
    requires { IsChecked row.now }
    ensures { result ≡ advanced now.second (stamp_of row.now) }
{
    advanced(now.second, row.stamp())
}

/// The greater of now and the old one plus 1: what a stamp or a moment becomes.
pub(crate) fn advanced(now: i64, old: i64) -> i64
    requires { old ≤ℤ last_moment }
    ensures { result ≡ advanced now old }
{
    now.max(old + 1)
}

/// The row that is made, with stamp 0 and not sent yet.
pub(crate) fn made_row(made: &Option<Row>) -> Result<Option<Row>, Memory>
    ensures { IfOk result (λ row. row ≡ option_map (edited (pos 0)) made.now) }
{
    match made {
        Some(made) => {
            let mut row = made.copy()?;
            row.set_stamp(0);
            row.set_usn(-1);
            Ok(Some(row))
        }
        None => Ok(None),
    }
}

/// Adds a write.
#[tactic(auto, using(crate::proofs::Reading::all_and_one))]
pub(crate) fn push_write(writes: &mut Vec<Write>, write: Write) -> Result<(), KeepFault>
    ensures ok { OnOk result (writes.new.items ≡ writes.old.items ++ write ∷ []) }
    ensures read { All IsReadWrite writes.old.items → IsReadWrite write → OnOk result (All IsReadWrite writes.new.items) }
    ensures refused { OnErr result (result ≡ Err WantOfMemory) }
{
    match writes.push(write) {
        Ok(()) => Ok(()),
        Err(_) => Err(KeepFault::Memory),
    }
}

/// Adds the write of the grave that the row of this name leaves, if its rows leave graves.
fn plan_grave<K: Keeper>(
    writes: &mut Vec<Write>,
    keeper: &mut K,
    name: Name,
) -> Result<(), KeepFault>
    ensures reads { ReadsBy K.Lookup keeper.old keeper.new result (λ h done. writes.new.items ≡ writes.old.items ++ grave_writes (get h.rows) name (grave_name name)) }
    ensures some { OnOk result ((at : RowsByName) × (writes.new.items ≡ writes.old.items ++ grave_writes at name (grave_name name))) }
    ensures read { All IsReadWrite writes.old.items → OnOk result (All IsReadWrite writes.new.items) }
{
    let Some(grave) = name.grave() else {
        return Ok(());
    };

    // For the proof alone: it says that what the keeper gives passes its check.
    let _checks = keeper.marked();
    let before = keeper.get(grave)?;
    let row = grave_left(name);
    push_write(
        writes,
        Write {
            name: grave,
            before,
            row,
            stamp: 0,
        },
    )?;
    Ok(())
}

/// The grave that the row of this name leaves, not sent yet.
fn grave_left(name: Name) -> Option<Row>
    ensures { result ≡ grave_left name }
{
    match name.table.grave_code() {
        Some(kind) => Some(Row::Grave(Grave {
            usn: -1,
            oid: name.id,
            kind,
        })),
        None => None,
    }
}
