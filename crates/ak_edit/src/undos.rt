ghost use Rattle.std.specs.Prelude.{◌≡◌, drop, false, true, [], Ok, Err, IfErr, IfOk, IfSome, OnErr, OnOk};
ghost use Rattle.std.specs.FinMap.{get};
ghost use Rattle.std.specs.List.{All};
ghost use Rattle.std.specs.Result.{IsErrOf};
ghost use Rattle.ak_base.specs.Heads.{IsHeadInRange};
ghost use Rattle.ak_base.specs.Rows.{IsChecked, stamp_of};
ghost use Rattle.ak_keep.specs.Keepers.{WhereHeld, is_marked};
ghost use Rattle.ak_keep.specs.Readings.{ReadsBy};
ghost use Rattle.ak_merge.specs.Edits.{advanced};
ghost use Rattle.ak_edit.specs.UndoPlans.{IsUndoPlan, undo_head, undo_stamp, undo_write, undo_writes};
ghost use Rattle.ak_edit.specs.Ends.{IsHeldRightly};
ghost use Rattle.ak_edit.specs.MadeRows.{check_of_rows, check_of_write};
ghost use Rattle.ak_edit.specs.Refusals.{DeskCause, IsUndoFault};
ghost use Rattle.ak_edit.specs.Undos.{AnswersUndo, UndoneBy};
ghost use Rattle.ak_undo.specs.Steps.{IsBeforeInRange, IsStepInRange};
ghost use Rattle.ak_edit.specs.declared.desk_faults.DeskFault.TheVariants as faults;

use crate::desk_faults::DeskFault;
use crate::ends::{Plan, advanced_moment, commit, head_of, test_made};
use crate::plans::{Moment, Write, advanced, advanced_stamp, made_row, push_write};
use ak_base::{Head, Memory, Row, copy_each};
use ak_keep::{KeepFault, Keeper};
use ak_undo::{Before, Step, UndoList};
use std::alloc::Global;

/// Undoes the latest step of the list at a moment in milliseconds, in one commit: the rows, the settings and the tags
/// are as before it, and the rows and graves that it added are gone. The step leaves the list. A refusal, for a list
/// without steps or for a stamp or a moment that can't rise, leaves both as they were.
pub fn undo<K: Keeper>(keeper: &mut K, steps: &mut UndoList, at: i64) -> Result<(), DeskFault>
    requires unmarked { is_marked (K.keeping keeper.old) ≡ false }
    requires held { (K.keeping keeper.old).headed.current ≡ true }
    ensures ok { OnOk result (UndoneBy at (K.keeping keeper.old) (K.keeping keeper.new) steps.old steps.new) }
    ensures err { OnErr result (K.keeping keeper.new ≡ K.keeping keeper.old) }
    ensures kept { OnErr result (steps.new ≡ steps.old) }
    ensures stays { (K.keeping keeper.new).headed ≡ (K.keeping keeper.old).headed }
    ensures refused { AnswersUndo at (K.keeping keeper.old) steps.old result }
    ensures left { OnOk result (steps.new ≡ drop 1 steps.old) }
    ensures empty { steps.old ≡ [] → result ≡ Err faults.NothingToUndo }
    ensures nothing { IsErrOf result faults.NothingToUndo → steps.old ≡ [] }
    ensures listed { IfErr result IsUndoFault }
    ensures known { WhereHeld (K.keeping keeper.old) IsHeldRightly }
    ensures cause { DeskCause (K.health keeper.old) (K.health keeper.new) result }
{
    // For the proof alone: they say that what the keeper tells is well formed.
    let _checks = keeper.marked();
    let _formed = keeper.held();
    let alloc = steps.allocator();
    let Some(step) = steps.latest() else {
        return Err(DeskFault::NothingToUndo);
    };
    let plan = plan_undo(alloc, keeper, step, Moment::of(at))?;
    test_made(plan.writes.as_slice(), &plan.after)?;
    let Plan { writes, after, .. } = plan;
    let befores = commit(alloc, keeper, writes, after)?;
    drop(befores);
    drop(steps.take());
    Ok(())
}

/// What an undo of the step does.
fn plan_undo<K: Keeper>(
    alloc: Global,
    keeper: &mut K,
    step: &Step,
    now: Moment,
) -> Result<Plan, KeepFault>
    requires held { (K.keeping keeper.old).headed.current ≡ true }
    requires range { IsStepInRange step.now }
    ensures reads { ReadsBy K.Lookup keeper.old keeper.new result (λ h plan. IsUndoPlan now step.now h plan) }
    ensures passing { IfOk result (λ plan. check_of_rows plan.writes.items ≡ Ok tt) }
    ensures before { IfOk result (λ plan. IsHeadInRange plan.before) }
    ensures after { IfOk result (λ plan. plan.after ≡ undo_head now.at step.now plan.before) }
{
    let writes = plan_undo_rows(alloc, keeper, step.rows.as_slice(), now)?;
    let before = head_of(keeper)?;
    let after = undo_head(step, &before, now)?;
    Ok(Plan {
        writes,
        before,
        after,
    })
}

/// The writes of an undo of these rows.
fn plan_undo_rows<K: Keeper>(
    alloc: Global,
    keeper: &mut K,
    rows: &[Before],
    now: Moment,
) -> Result<Vec<Write>, KeepFault>
    requires { All IsBeforeInRange rows.now }
    ensures reads { ReadsBy K.Lookup keeper.old keeper.new result (λ h writes. writes.items ≡ undo_writes now.second (get h.rows) rows.now) }
    ensures passing { IfOk result (λ writes. check_of_rows writes.items ≡ Ok tt) }
{
    let mut writes = Vec::new(alloc);
    for before in rows {
        let write = plan_undo_row(keeper, before, now)?;
        push_write(&mut writes, write)?;
    }
    Ok(writes)
}

/// The write of an undo of one row.
fn plan_undo_row<K: Keeper>(
    keeper: &mut K,
    before: &Before,
    now: Moment,
) -> Result<Write, KeepFault>
    requires { IsBeforeInRange before.now }
    ensures reads { ReadsBy K.Lookup keeper.old keeper.new result (λ h write. write ≡ undo_write now.second (get h.rows) before.now) }
    ensures passing { IfOk result (λ write. check_of_write write ≡ Ok tt) }
{
    // For the proof alone: it says that what the keeper gives passes its check.
    let _checks = keeper.marked();
    let present = keeper.get(before.name)?;
    let stamp = undo_stamp(&before.row, &present, now);
    let row = made_row(&before.row)?;
    Ok(Write {
        name: before.name,
        before: present,
        row,
        stamp,
    })
}

/// The stamp of the row that is put back, 0 if there is none.
fn undo_stamp(before: &Option<Row>, present: &Option<Row>, now: Moment) -> i64
    requires before { IfSome before.now IsChecked }
    requires present { IfSome present.now IsChecked }
    ensures { result ≡ undo_stamp now.second before.now present.now }
{
    match before {
        Some(row) => {
            let raised = advanced_stamp(now, row);
            match present {
                Some(present) => advanced_past(raised, present),
                None => raised,
            }
        }
        None => 0,
    }
}

/// The greater of this stamp and the stamp of the row plus 1.
fn advanced_past(stamp: i64, row: &Row) -> i64
    requires { IsChecked row.now }
    ensures { result ≡ advanced stamp (stamp_of row.now) }
{
    advanced(stamp, row.stamp())
}

/// The head after an undo: the settings and the tags of the step, and the moment rises.
fn undo_head(step: &Step, head: &Head, now: Moment) -> Result<Head, Memory>
    requires { IsHeadInRange head.now }
    ensures { IfOk result (λ made. made ≡ undo_head now.at step.now head.now) }
{
    let mut made = head.copy()?;
    made.moment = advanced_moment(head, now);
    made.conf = step.head.copy()?;
    made.tags = copy_each(&step.tags, |tag| tag.copy())?;
    Ok(made)
}
