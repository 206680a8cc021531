// Filtered decks that are built.
ghost use Rattle.std.specs.Prelude.{◌≡◌, ◌≤◌, true, false, length, IfErr, IfOk, OnErr};
ghost use Rattle.ak_base.specs.Days.{IsDay};
ghost use Rattle.ak_filtered.specs.Building.{AreRead, IsBuildFault, IsFilled, IsPlanFault, IsReadPlan, IsDayRead};
ghost use Rattle.ak_filtered.specs.Builds.{IsBuilt, RefusesBuilding, RefusesToBuild};
ghost use Rattle.ak_filtered.specs.FilteredFaults.{FilteredCause, TellsBy, TellsToEnd};
ghost use Rattle.ak_filtered.specs.Plans.{IsPlan};
ghost use Rattle.ak_keep.specs.Keepers.{WhereHeld, WhereTold, is_marked};
ghost use Rattle.ak_keep.specs.Readings.{ReadsBy};
ghost use Rattle.ak_study.specs.DayStarts.{IsInDay};

use crate::candidates::{Sieve, first_ids, gather};
use crate::cleared_edits::finish_cleared;
use crate::faults::FilteredFault;
use crate::filtered_decks::filtered_deck;
use crate::held_decks::HeldDecks;
use crate::plans::Plan;
use crate::refills::{Dues, Refill, put_refilled};
use ak_base::{Day, List};
use ak_edit::Change;
use ak_keep::{KeepFault, Keeper};
use ak_search::{Expr, Search, parse};
use ak_undo::UndoList;
use std::alloc::Global;

/// Builds a filtered deck at a moment in milliseconds: it is emptied, and then the first cards of its plan move in, in one commit,
/// which clears the undo list also if no card came. It tells how many came. A card that comes back to its place as it was keeps its
/// stamp. The search looks at the cards as they are once the deck was emptied. It is refused if the deck is not held, if it is not
/// filtered, if its plan is bad, if its search can't be read, and then for a stamp or a moment that can't rise; it leaves all as it
/// was then. It reads all decks once, all cards twice, and what the search asks for.
pub fn build<K: Keeper>(
    keeper: &mut K,
    steps: &mut UndoList,
    deck: i64,
    at: i64,
) -> Result<u64, FilteredFault>
    requires unmarked { is_marked (K.keeping keeper.old) ≡ false }
    requires held { (K.keeping keeper.old).headed.current ≡ true }
    requires moment { IsInDay at }
    ensures ok { IfOk result (λ count. WhereHeld (K.keeping keeper.old) (λ c.
        IsBuilt at deck c (K.keeping keeper.old) (K.keeping keeper.new) steps.new count)) }
    ensures err { OnErr result (K.keeping keeper.new ≡ K.keeping keeper.old) }
    ensures kept { OnErr result (steps.new ≡ steps.old) }
    ensures stays { (K.keeping keeper.new).headed ≡ (K.keeping keeper.old).headed }
    ensures refused { WhereHeld (K.keeping keeper.old) (λ c.
        TellsToEnd (RefusesToBuild deck c) (RefusesBuilding at deck c) result) }
    ensures listed { IfErr result (IsBuildFault deck) }
    ensures cause { FilteredCause (K.health keeper.old) (K.health keeper.new) result }
{
    let alloc = steps.allocator();
    let planned = read_plan(alloc, keeper, deck)?;
    let filled = match fill(alloc, keeper, deck, &planned, at) {
        Ok(filled) => filled,
        Err(fault) => return Err(FilteredFault::from(fault)),
    };
    let Filled {
        day: _,
        change,
        chosen,
    } = filled;
    match finish_cleared(change, keeper, steps, at) {
        Ok(()) => Ok(chosen.as_slice().len() as u64),
        Err(fault) => Err(FilteredFault::from(fault)),
    }
}

/// The plan of a deck, and its search as it was read.
#[derive(Drop)]
pub(crate) struct ReadPlan {
    pub(crate) plan: Plan,
    pub(crate) expr: Expr,
}

/// The plan of the filtered deck of this id, refused if the deck, its plan or its search is bad.
fn read_plan<K: Keeper>(alloc: Global, keeper: &mut K, id: i64) -> Result<ReadPlan, FilteredFault>
    ensures same { K.keeping keeper.new ≡ K.keeping keeper.old }
    ensures plan { IfOk result (λ planned. WhereTold (K.keeping keeper.old) (λ h. IsReadPlan id planned h.rows)) }
    ensures range { IfOk result (λ planned. IsPlan planned.plan) }
    ensures refused { WhereHeld (K.keeping keeper.old) (λ c. TellsBy (RefusesToBuild id c) result) }
    ensures listed { IfErr result (IsPlanFault id) }
    ensures cause { FilteredCause (K.health keeper.old) (K.health keeper.new) result }
{
    let deck = filtered_deck(keeper, id)?;
    let Some(plan) = Plan::of_deck(alloc, &deck)? else {
        return Err(FilteredFault::BadPlan(id));
    };
    match parse(alloc, plan.search.as_str()) {
        Ok(expr) => Ok(ReadPlan { plan, expr }),
        Err(fault) => Err(FilteredFault::from(fault)),
    }
}

/// An edit that builds a deck on a day, and the ids of the cards that move in, in their order.
#[derive(Drop)]
pub(crate) struct Filled {
    pub(crate) day: Day,
    pub(crate) change: Change,
    pub(crate) chosen: List<i64>,
}

/// The edit that builds the deck of this id by its plan.
fn fill<K: Keeper>(
    alloc: Global,
    keeper: &mut K,
    deck: i64,
    planned: &ReadPlan,
    at: i64,
) -> Result<Filled, KeepFault>
    requires held { (K.keeping keeper.old).headed.current ≡ true }
    requires moment { IsInDay at }
    requires range { IsPlan planned.now.plan }
    ensures reads { ReadsBy K.Lookup keeper.old keeper.new result (λ h filled. IsDayRead at h filled.day × IsFilled deck planned.now h.rows filled) }
{
    let decks = HeldDecks::read(alloc, keeper)?;
    let day = read_day(keeper, at)?;
    let sieve = Sieve {
        deck,
        decks: &decks,
        order: planned.plan.order,
    };
    let chosen = choose(alloc, keeper, &sieve, planned, day)?;
    let dues = Dues::of(alloc, chosen.as_slice())?;
    let by = Refill {
        deck,
        decks: &decks,
        dues: &dues,
    };
    let mut change = Change::new(alloc);
    put_refilled(keeper, &mut change, &by)?;
    Ok(Filled {
        day,
        change,
        chosen,
    })
}

/// The ids of the cards that move in, in their order.
fn choose<K: Keeper>(
    alloc: Global,
    keeper: &mut K,
    sieve: &Sieve<'_>,
    planned: &ReadPlan,
    day: Day,
) -> Result<List<i64>, KeepFault>
    ensures reads { ReadsBy K.Lookup keeper.old keeper.new result (λ h chosen. AreRead sieve.now planned.now day h.rows chosen) }
    ensures few { IfOk result (λ chosen. length chosen ≤ planned.now.plan.limit) }
{
    let mut search = Search::over(alloc, &planned.expr, keeper, day)?;
    let keys = gather(alloc, keeper, sieve, &mut search)?;
    let chosen = first_ids(alloc, &keys, planned.plan.limit)?;
    Ok(chosen)
}

/// The day of a moment in milliseconds, by the head that is held.
pub fn read_day<K: Keeper>(keeper: &mut K, at: i64) -> Result<Day, KeepFault>
    requires held { (K.keeping keeper.old).headed.current ≡ true }
    requires moment { IsInDay at }
    ensures reads { ReadsBy K.Lookup keeper.old keeper.new result (λ h day. IsDayRead at h day) }
    ensures day { IfOk result IsDay }
{
    // For the proof alone: it says that what the keeper gives is in range.
    let _checks = keeper.marked();
    let Some(head) = keeper.head()? else {
        unreachable!();
    };
    Ok(Day::of(head.crt, at))
}
