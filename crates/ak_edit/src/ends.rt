ghost use Rattle.std.specs.Prelude.{◌≡◌, if◌then◌else◌, true, false, Some, Ok, IfErr, IfOk, OnErr, OnOk, Decides};
ghost use Rattle.std.specs.Option.{unwrap_or};
ghost use Rattle.ak_base.specs.Heads.{IsHeadInRange, IsMoment};
ghost use Rattle.ak_keep.specs.Keepers.{IsMarkedAt, KeepCause, WhereHeld, back, committed, head_set, is_marked, marked_here};
ghost use Rattle.ak_keep.specs.Readings.{ReadsBy};
ghost use Rattle.ak_merge.specs.Edits.{advanced, second_of};
ghost use Rattle.ak_edit.specs.Carrying.{ArePassed, ChangesNothing, IsPlanned, IsPlanInRange, MadeRefusal, steps_left, step_in};
ghost use Rattle.ak_edit.specs.Ends.{AnswersEnd, FinishedBy, IsHeldRightly, head_after};
ghost use Rattle.ak_edit.specs.MadeRows.{check_of_rows, have_stamps_left};
ghost use Rattle.ak_edit.specs.Refusals.{DeskCause, IsEndFault};
ghost use Rattle.ak_edit.specs.Stores.{AreMadeWrites, all_written, befores_of, carried};

use crate::changes::Change;
use crate::desk_faults::DeskFault;
use crate::made_rows::{check_rows, have_stamps_left};
use crate::plans::{Moment, Write, advanced, plan_rows};
use crate::stores::store;
use ak_base::{Conf, Head, LAST_MOMENT, List, Memory};
use ak_keep::{KeepFault, Keeper, keep_or_back};
use ak_merge::take_tags;
use ak_undo::{Before, Step, UndoList};
use std::alloc::Global;

/// What an edit does: its writes, and the head before and after.
#[derive(Drop)]
pub(crate) struct Plan {
    pub(crate) writes: Vec<Write>,
    pub(crate) before: Head,
    pub(crate) after: Head,
}

impl Change {
    /// Ends the edit at a moment in milliseconds: the keeper's collection becomes what the edit leaves, in one commit,
    /// and the undo list gets its step. An edit that changes nothing leaves no step, one that changes the schema no list.
    /// A refusal, for a row that the edit makes or for a stamp or moment that can't rise, leaves both as they were.
    pub fn finish<K: Keeper>(
        self,
        keeper: &mut K,
        steps: &mut UndoList,
        at: i64,
    ) -> Result<(), DeskFault>
        requires unmarked { is_marked (K.keeping keeper.old) ≡ false }
        requires held { (K.keeping keeper.old).headed.current ≡ true }
        ensures ok { OnOk result (FinishedBy at self (K.keeping keeper.old) (K.keeping keeper.new) steps.old steps.new) }
        ensures err { OnErr result (K.keeping keeper.new ≡ K.keeping keeper.old) }
        ensures kept { OnErr result (steps.new ≡ steps.old) }
        ensures stays { (K.keeping keeper.new).headed ≡ (K.keeping keeper.old).headed }
        ensures refused { AnswersEnd at self (K.keeping keeper.old) result }
        ensures listed { IfErr result IsEndFault }
        ensures known { WhereHeld (K.keeping keeper.old) IsHeldRightly }
        ensures cause { DeskCause (K.health keeper.old) (K.health keeper.new) result }
    {
        // For the proof alone: they say that what the keeper tells is well formed.
        let _checks = keeper.marked();
        let _formed = keeper.held();
        let plan = self.plan(steps.allocator(), keeper, Moment::of(at))?;
        if plan.changes_nothing() {
            return Ok(());
        }
        if let Err(fault) = test_made(plan.writes.as_slice(), &plan.after) {
            return Err(fault);
        }
        carry_out(keeper, steps, plan, self.schema)?;
        return Ok(());
    }

    /// What the edit does at its end.
    fn plan<K: Keeper>(&self, alloc: Global, keeper: &mut K, now: Moment) -> Result<Plan, KeepFault>
        requires held { (K.keeping keeper.old).headed.current ≡ true }
        ensures reads { ReadsBy K.Lookup keeper.old keeper.new result (λ h plan. IsPlanned now self.now h plan) }
        ensures range { IfOk result IsPlanInRange }
    {
        let writes = plan_rows(alloc, &self.rows, keeper, now)?;
        let before = head_of(keeper)?;
        let after = self.head_after(&before, now)?;
        return Ok(Plan {
            writes,
            before,
            after,
        });
    }

    /// The head after the edit, if it changes anything.
    fn head_after(&self, head: &Head, now: Moment) -> Result<Head, Memory>
        requires { IsHeadInRange head.now }
        ensures { IfOk result (λ made. made ≡ head_after now.at self.now head.now) }
    {
        let old = head.copy()?;
        let tags = take_tags(old.tags, self.tags.as_slice(), -1)?;
        let conf = conf_after(&self.conf, old.conf)?;
        return Ok(Head {
            crt: old.crt,
            moment: advanced_moment(head, now),
            schema: schema_after(head, self.schema, now),
            usn: old.usn,
            last_sync: old.last_sync,
            conf,
            tags,
        });
    }
}

impl Moment {
    /// The moment at a number of milliseconds.
    pub(crate) fn of(at: i64) -> Moment
        ensures at { result.at ≡ at }
        ensures second { result.second ≡ second_of at }
    {
        Moment {
            at,
            second: at / 1000,
        }
    }
}

impl Plan {
    /// Whether it would leave all as it is but for the moment. Tags only come, so as many are the same.
    fn changes_nothing(&self) -> bool
        ensures { Decides result (ChangesNothing self.now) }
    {
        if !self.writes.is_empty() {
            return false;
        }
        if !is_same_conf(&self.before.conf, &self.after.conf) {
            return false;
        }
        if self.before.tags.as_slice().len() != self.after.tags.as_slice().len() {
            return false;
        }
        return is_same_schema(&self.before, &self.after);
    }
}

/// Whether the settings are equal.
fn is_same_conf(one: &Conf, other: &Conf) -> bool
    ensures { Decides result (one.now ≡ other.now) }
{
    one == other
}

/// Whether the moments of the schema are equal.
fn is_same_schema(one: &Head, other: &Head) -> bool
    ensures { Decides result (one.now.schema ≡ other.now.schema) }
{
    one.schema == other.schema
}

/// The head of the collection that is held.
pub(crate) fn head_of<K: Keeper>(keeper: &mut K) -> Result<Head, KeepFault>
    requires held { (K.keeping keeper.old).headed.current ≡ true }
    ensures reads { ReadsBy K.Lookup keeper.old keeper.new result (λ h head. h.head ≡ Some head) }
    ensures range { IfOk result IsHeadInRange }
{
    // For the proof alone: it says that what the keeper gives is in range.
    let _checks = keeper.marked();
    let Some(head) = keeper.head()? else {
        unreachable!();
    };
    Ok(head)
}

/// The settings after the edit: those that it set, or else the old ones.
pub(crate) fn conf_after(set: &Option<Conf>, old: Conf) -> Result<Conf, Memory>
    ensures { IfOk result (λ made. made ≡ unwrap_or set.now old) }
{
    match set {
        Some(conf) => conf.copy(),
        None => Ok(old),
    }
}

/// The greater of now and the moment of the head plus 1.
pub(crate) fn advanced_moment(head: &Head, now: Moment) -> i64
    requires { IsHeadInRange head.now }
    ensures { result ≡ advanced now.at head.now.moment }
{
    advanced(now.at, head.moment)
}

/// The moment of the schema after the edit.
fn schema_after(head: &Head, changes: bool, now: Moment) -> i64
    requires { IsHeadInRange head.now }
    ensures { result ≡ (if changes then advanced now.at head.now.schema else head.now.schema) }
{
    if changes {
        return advanced(now.at, head.schema);
    }
    head.schema
}

/// Tests what an edit makes: the rows in the order of the writes, and then the stamps and the head's moments.
pub(crate) fn test_made(writes: &[Write], head: &Head) -> Result<(), DeskFault>
    ensures ok { OnOk result (ArePassed writes.now head.now) }
    ensures refused { IfErr result (MadeRefusal writes.now head.now) }
{
    if let Err(fault) = check_rows(writes) {
        return Err(DeskFault::Row(fault));
    }
    if have_stamps_left(writes) && is_moment(head.moment) && is_moment(head.schema) {
        return Ok(());
    }
    Err(DeskFault::StampEnd)
}

/// Whether it is in the range of moments.
fn is_moment(moment: i64) -> bool
    ensures { Decides result (IsMoment moment) }
{
    0 <= moment && moment <= LAST_MOMENT
}

/// Carries the plan out in one commit, and puts its step on the list, or empties the list if the schema changes.
fn carry_out<K: Keeper>(
    keeper: &mut K,
    steps: &mut UndoList,
    plan: Plan,
    schema: bool,
) -> Result<(), KeepFault>
    requires unmarked { is_marked (K.keeping keeper.old) ≡ false }
    requires made { AreMadeWrites plan.writes.items }
    requires range { IsHeadInRange plan.after }
    requires before { IsPlanInRange plan }
    ensures ok { OnOk result (K.keeping keeper.new ≡ carried plan.writes.items plan.after (K.keeping keeper.old)) }
    ensures list { OnOk result (steps.new ≡ steps_left schema (step_in plan) steps.old) }
    ensures err { OnErr result (K.keeping keeper.new ≡ K.keeping keeper.old) }
    ensures kept { OnErr result (steps.new ≡ steps.old) }
    ensures cause { KeepCause (K.health keeper.old) (K.health keeper.new) result }
{
    let Plan {
        writes,
        before,
        after,
    } = plan;
    let rows = commit(steps.allocator(), keeper, writes, after)?;
    if schema {
        steps.clear();
        return Ok(());
    }
    steps.push(Step {
        rows,
        head: before.conf,
        tags: before.tags,
    });
    Ok(())
}

/// Does all the writes and sets the head, in one commit. If it is refused, it leaves all as it was.
pub(crate) fn commit<K: Keeper>(
    alloc: Global,
    keeper: &mut K,
    writes: Vec<Write>,
    head: Head,
) -> Result<List<Before>, KeepFault>
    requires unmarked { is_marked (K.keeping keeper.old) ≡ false }
    requires made { AreMadeWrites writes.items }
    requires range { IsHeadInRange head }
    ensures ok { OnOk result (K.keeping keeper.new ≡ carried writes.items head (K.keeping keeper.old)) }
    ensures before { IfOk result (λ befores. befores ≡ befores_of writes.items) }
    ensures err { OnErr result (K.keeping keeper.new ≡ K.keeping keeper.old) }
    ensures cause { KeepCause (K.health keeper.old) (K.health keeper.new) result }
{
    keeper.mark()?;
    let made = store_all(alloc, keeper, writes, head);
    keep_or_back(keeper, made)
}

/// Does all the writes and sets the head. A refusal leaves the keeper marked, with some of it done.
fn store_all<K: Keeper>(
    alloc: Global,
    keeper: &mut K,
    writes: Vec<Write>,
    head: Head,
) -> Result<List<Before>, KeepFault>
    requires marked { is_marked (K.keeping keeper.old) ≡ true }
    requires made { AreMadeWrites writes.items }
    requires range { IsHeadInRange head }
    ensures ok { OnOk result (K.keeping keeper.new ≡ head_set head (all_written writes.items (K.keeping keeper.old))) }
    ensures before { IfOk result (λ befores. befores ≡ befores_of writes.items) }
    ensures stays { IsMarkedAt (back (K.keeping keeper.old)) (K.keeping keeper.new) }
    ensures cause { KeepCause (K.health keeper.old) (K.health keeper.new) result }
{
    let befores = store(alloc, keeper, writes)?;
    keeper.set_head(head)?;
    Ok(befores)
}
