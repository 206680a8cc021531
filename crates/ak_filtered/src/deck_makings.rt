// Filtered decks that are made.
ghost use Rattle.std.specs.Prelude.{◌≡◌, ◌<◌, pos, true, false, Some, length, IfErr, IfOk, OnErr};
ghost use Rattle.ak_deck_paths.specs.Additions.{id_of_last};
ghost use Rattle.ak_filtered.specs.FilteredFaults.{FilteredCause, TellsBy, TellsToEnd};
ghost use Rattle.ak_filtered.specs.MadeDecks.{ArePlanned, ArePut, IsMade, IsPlanned, RefusesGiven, RefusesMaking, RefusesToMake, given_plan};
ghost use Rattle.ak_filtered.specs.MakingFaults.{IsGivenFault, IsMakingFault};
ghost use Rattle.ak_filtered.specs.Plans.{IsPlan};
ghost use Rattle.ak_keep.specs.Collections.{IsId};
ghost use Rattle.ak_keep.specs.Keepers.{WhereHeld, WhereTold, is_marked};

use crate::cleared_edits::finish_cleared;
use crate::faults::FilteredFault;
use crate::plans::Plan;
use ak_base::{Deck, List, Memory};
use ak_deck_paths::{added_paths, check_free, check_path, id_of_last, new_decks, put_decks};
use ak_edit::Change;
use ak_keep::{Keeper, read_decks};
use ak_search::parse;
use ak_undo::UndoList;
use std::alloc::Global;

/// A filtered deck that is to be made.
#[derive(Clone, Copy, Debug)]
pub struct NewFiltered<'a> {
    /// Its names and those of the decks above it, joined by `::`: 1 to 512 bytes, none under a space, and no part empty.
    pub path: &'a str,
    pub search: &'a str,
    /// How many cards it takes at most: 1 to 99,999.
    pub limit: i64,
    /// The number of its order: 2 to 7.
    pub order: i64,
}

/// Makes a filtered deck at a moment in milliseconds, and gives its id. No card moves in before it is built. It has options 1, and
/// the decks that are missing above it are made first, as by `ak_deck_paths::add_deck`; they are not filtered. This is one commit,
/// which clears the undo list. It is refused for the path as `add_deck` is, if a deck has it, for a limit or an order out of its
/// range, for a search that can't be read, for too few free ids, for a plan whose text is too long for a row, and for a stamp or a
/// moment that can't rise; it leaves all as it was then.
pub fn make_filtered<K: Keeper>(
    keeper: &mut K,
    steps: &mut UndoList,
    given: &NewFiltered<'_>,
    at: i64,
) -> Result<i64, FilteredFault>
    requires unmarked { is_marked (K.keeping keeper.old) ≡ false }
    requires held { (K.keeping keeper.old).headed.current ≡ true }
    ensures ok { IfOk result (λ id. WhereHeld (K.keeping keeper.old) (λ c.
        IsMade at given.now c (K.keeping keeper.old) (K.keeping keeper.new) steps.new id)) }
    ensures range { IfOk result IsId }
    ensures err { OnErr result (K.keeping keeper.new ≡ K.keeping keeper.old) }
    ensures kept { OnErr result (steps.new ≡ steps.old) }
    ensures stays { (K.keeping keeper.new).headed ≡ (K.keeping keeper.old).headed }
    ensures refused { WhereHeld (K.keeping keeper.old) (λ c.
        TellsToEnd (RefusesToMake at given.now c.rows) (RefusesMaking at given.now c) result) }
    ensures listed { IfErr result IsMakingFault }
    ensures cause { FilteredCause (K.health keeper.old) (K.health keeper.new) result }
{
    let alloc = steps.allocator();
    let decks = read_making(alloc, keeper, given, at)?;
    let id = id_of_last(decks.as_slice());
    let mut change = Change::new(alloc);
    put_decks(&mut change, decks.into_vec())?;
    match finish_cleared(change, keeper, steps, at) {
        Ok(()) => Ok(id),
        Err(fault) => Err(FilteredFault::from(fault)),
    }
}

/// The decks that are put, refused for the first of the tests before the end that holds.
fn read_making<K: Keeper>(
    alloc: Global,
    keeper: &mut K,
    given: &NewFiltered<'_>,
    at: i64,
) -> Result<List<Deck>, FilteredFault>
    ensures same { K.keeping keeper.new ≡ K.keeping keeper.old }
    ensures put { IfOk result (λ decks. WhereTold (K.keeping keeper.old) (λ h. ArePut at given.now h.rows decks)) }
    ensures range { IfOk result (λ decks. IsId (id_of_last (pos 0) decks)) }
    ensures refused { WhereTold (K.keeping keeper.old) (λ h. TellsBy (RefusesToMake at given.now h.rows) result) }
    ensures listed { IfErr result IsMakingFault }
    ensures cause { FilteredCause (K.health keeper.old) (K.health keeper.new) result }
{
    match check_path(given.path) {
        Ok(()) => {}
        Err(fault) => return Err(FilteredFault::from(fault)),
    }
    let decks = read_decks(alloc, keeper)?;
    let plan = check_given(alloc, decks.as_slice(), given)?;
    let paths = added_paths(alloc, decks.as_slice(), given.path)?;
    match new_decks(keeper, &paths, at) {
        Ok(made) => {
            let put = planned(alloc, made, &plan)?;
            Ok(put)
        }
        Err(fault) => Err(FilteredFault::from(fault)),
    }
}

/// The plan that was given, refused if one of these decks has the path, and then for the plan and its search.
fn check_given(
    alloc: Global,
    decks: &[Deck],
    given: &NewFiltered<'_>,
) -> Result<Plan, FilteredFault>
    ensures plan { IfOk result (λ plan. given_plan given.now ≡ Some plan) }
    ensures range { IfOk result IsPlan }
    ensures refused { TellsBy (RefusesGiven decks.now given.now) result }
    ensures listed { IfErr result IsGivenFault }
{
    match check_free(decks, given.path) {
        Ok(()) => {}
        Err(fault) => return Err(FilteredFault::from(fault)),
    }
    let Some(plan) = Plan::with(alloc, given.search, given.limit, given.order)? else {
        return Err(FilteredFault::BadPlan(0));
    };
    match parse(alloc, given.search) {
        Ok(_) => Ok(plan),
        Err(fault) => Err(FilteredFault::from(fault)),
    }
}

/// The decks, the last of them with the plan.
fn planned(alloc: Global, made: List<Deck>, plan: &Plan) -> Result<List<Deck>, Memory>
    requires some { 0 < length made }
    requires range { IsPlan plan.now }
    ensures { IfOk result (ArePlanned plan.now made) }
{
    let mut decks = made.into_vec();
    let Some(plain) = decks.pop() else {
        unreachable!();
    };
    let deck = with_plan(alloc, plain, plan)?;
    decks.push(deck)?;
    Ok(List::of(decks))
}

/// The deck with the plan in the place of its further keys.
fn with_plan(alloc: Global, plain: Deck, plan: &Plan) -> Result<Deck, Memory>
    requires { IsPlan plan.now }
    ensures { IfOk result (IsPlanned plan.now plain) }
{
    let rest = plan.rest(alloc)?;
    let mut deck = plain;
    deck.filtered = true;
    deck.rest = rest;
    Ok(deck)
}
