// Filtered decks that are emptied.
ghost use Rattle.std.specs.Prelude.{◌≡◌, ◌++◌, ◌∷◌, [], true, false, length, IfErr, IfOk, OnErr, OnOk};
ghost use Rattle.std.specs.List.{filter_map};
ghost use Rattle.ak_edit.specs.Refusals.{DeskCause, IsEndFault};
ghost use Rattle.ak_filtered.specs.ClearedEdits.{EndsCleared};
ghost use Rattle.ak_filtered.specs.EmptyFaults.{IsEmptyFault};
ghost use Rattle.ak_filtered.specs.Refills.{no_dues, refill};
ghost use Rattle.ak_filtered.specs.Emptyings.{EndsEmptied, IsEmptied, RefusesEmptying, RefusesToEmpty, away_id, away_ids, emptying, filtered_below, filtered_under};
ghost use Rattle.ak_filtered.specs.FilteredFaults.{FilteredCause, TellsBy};
ghost use Rattle.ak_filtered.specs.HomeDecks.{filtered_at};
ghost use Rattle.ak_keep.specs.Keepers.{WhereHeld, WhereTold, is_marked};
ghost use Rattle.ak_keep.specs.Lookups.{decks_in};
ghost use Rattle.ak_keep.specs.Readings.{ReadsBy};

use crate::cleared_edits::finish_cleared;
use crate::faults::FilteredFault;
use crate::filtered_decks::filtered_deck;
use crate::held_decks::HeldDecks;
use crate::refills::{Dues, Refill, is_away_in, put_refilled};
use ak_base::{Deck, List, Memory, Row, Table, is_in_subtree};
use ak_edit::{Change, DeskFault};
use ak_keep::{KeepFault, Keeper, Readable, Walk, deck_at, read_decks};
use ak_undo::UndoList;
use std::alloc::Global;

/// Empties a filtered deck at a moment in milliseconds: each card that is away in it goes home, in one commit, which clears the undo
/// list also if no card went. It tells how many went. Cards that lie in the deck without having come from another stay there. The
/// deck's plan is not read. It is refused if the deck is not held, if it is not filtered, and for a stamp or a moment that can't rise,
/// and leaves all as it was then. It reads all decks, and all cards twice.
pub fn empty<K: Keeper>(
    keeper: &mut K,
    steps: &mut UndoList,
    deck: i64,
    at: i64,
) -> Result<u64, FilteredFault>
    requires unmarked { is_marked (K.keeping keeper.old) ≡ false }
    requires held { (K.keeping keeper.old).headed.current ≡ true }
    ensures ok { IfOk result (λ count. WhereHeld (K.keeping keeper.old) (λ c.
        IsEmptied at deck c (K.keeping keeper.old) (K.keeping keeper.new) steps.new count)) }
    ensures err { OnErr result (K.keeping keeper.new ≡ K.keeping keeper.old) }
    ensures kept { OnErr result (steps.new ≡ steps.old) }
    ensures stays { (K.keeping keeper.new).headed ≡ (K.keeping keeper.old).headed }
    ensures refused { WhereHeld (K.keeping keeper.old) (λ c. TellsBy (RefusesToEmpty at deck c) result) }
    ensures listed { IfErr result (IsEmptyFault deck) }
    ensures cause { FilteredCause (K.health keeper.old) (K.health keeper.new) result }
{
    filtered_deck(keeper, deck)?;
    match empty_deck(keeper, steps, deck, at) {
        Ok(count) => Ok(count),
        Err(fault) => Err(FilteredFault::from(fault)),
    }
}

/// Empties each filtered deck in the subtree of a deck, by ascending id, at a moment in milliseconds, each in a commit of its own,
/// which clears the undo list. If the deck is not held, it leaves all as it was. A refusal leaves those emptied that came before. Each
/// of these decks costs what `empty` does.
pub fn empty_subtree<K: Keeper>(
    keeper: &mut K,
    steps: &mut UndoList,
    deck: i64,
    at: i64,
) -> Result<(), DeskFault>
    requires unmarked { is_marked (K.keeping keeper.old) ≡ false }
    requires held { (K.keeping keeper.old).headed.current ≡ true }
    ensures ends { WhereHeld (K.keeping keeper.old) (λ c. EndsEmptied at (filtered_below deck c.rows)
        (K.keeping keeper.old) (K.keeping keeper.new) steps.old steps.new result) }
    ensures stays { (K.keeping keeper.new).headed ≡ (K.keeping keeper.old).headed }
    ensures listed { IfErr result IsEndFault }
    ensures cause { DeskCause (K.health keeper.old) (K.health keeper.new) result }
{
    let decks = read_filtered_below(keeper, steps, deck)?;
    empty_each(keeper, steps, decks, at)
}

/// Empties these decks, each in a commit of its own, until one is refused.
fn empty_each<K: Keeper>(
    keeper: &mut K,
    steps: &mut UndoList,
    decks: List<Deck>,
    at: i64,
) -> Result<(), DeskFault>
    requires unmarked { is_marked (K.keeping keeper.old) ≡ false }
    requires held { (K.keeping keeper.old).headed.current ≡ true }
    ensures ends { EndsEmptied at decks (K.keeping keeper.old) (K.keeping keeper.new) steps.old steps.new result }
    ensures stays { (K.keeping keeper.new).headed ≡ (K.keeping keeper.old).headed }
    ensures listed { IfErr result IsEndFault }
    ensures cause { DeskCause (K.health keeper.old) (K.health keeper.new) result }
{
    for deck in decks.into_vec() {
        empty_deck(keeper, steps, deck.id, at)?;
    }
    Ok(())
}

/// The filtered decks in the subtree of the deck of this id, by ascending id.
fn read_filtered_below<K: Keeper>(
    keeper: &mut K,
    steps: &UndoList,
    id: i64,
) -> Result<List<Deck>, KeepFault>
    ensures reads { ReadsBy K.Lookup keeper.old keeper.new result (λ h decks. decks ≡ filtered_below id h.rows) }
{
    let alloc = steps.allocator();
    match deck_at(keeper, id)? {
        Some(root) => read_filtered_under(alloc, keeper, root.name.as_str()),
        None => Ok(List::new(alloc)),
    }
}

/// The filtered decks in the subtree of a path, by ascending id.
fn read_filtered_under<K: Keeper>(
    alloc: Global,
    keeper: &mut K,
    root: &str,
) -> Result<List<Deck>, KeepFault>
    ensures reads { ReadsBy K.Lookup keeper.old keeper.new result (λ h decks. decks ≡ filtered_under root.now (decks_in h.rows)) }
{
    let decks = read_decks(alloc, keeper)?;
    let below = filtered_under(alloc, decks, root)?;
    Ok(below)
}

/// The filtered ones of these decks that are in the subtree of a path.
fn filtered_under(alloc: Global, decks: List<Deck>, root: &str) -> Result<List<Deck>, Memory>
    ensures { IfOk result (λ below. below ≡ filtered_under root.now decks) }
{
    let mut below = List::new(alloc);
    for deck in decks.into_vec() {
        if deck.filtered && is_in_subtree(root, deck.name.as_str()) {
            below.push(deck)?;
        }
    }
    Ok(below)
}

/// Empties the deck of this id, and tells how many cards went home.
fn empty_deck<K: Keeper>(
    keeper: &mut K,
    steps: &mut UndoList,
    deck: i64,
    at: i64,
) -> Result<u64, DeskFault>
    requires unmarked { is_marked (K.keeping keeper.old) ≡ false }
    requires held { (K.keeping keeper.old).headed.current ≡ true }
    ensures ends { EndsCleared at (emptying deck) (RefusesEmptying at deck)
        (K.keeping keeper.old) (K.keeping keeper.new) steps.old steps.new result }
    ensures count { IfOk result (λ count. WhereTold (K.keeping keeper.old) (λ h. count ≡ length (away_ids deck h.rows))) }
    ensures listed { IfErr result IsEndFault }
    ensures cause { DeskCause (K.health keeper.old) (K.health keeper.new) result }
{
    let alloc = steps.allocator();
    let mut change = Change::new(alloc);
    put_emptied(alloc, keeper, &mut change, deck)?;
    let away = read_away(alloc, keeper, deck)?;
    finish_cleared(change, keeper, steps, at)?;
    Ok(away.as_slice().len() as u64)
}

/// Puts the cards that go home from this deck.
fn put_emptied<K: Keeper>(
    alloc: Global,
    keeper: &mut K,
    change: &mut Change,
    deck: i64,
) -> Result<(), KeepFault>
    ensures reads { ReadsBy K.Lookup keeper.old keeper.new result (λ h _.
        change.new ≡ refill deck (filtered_at h.rows) no_dues h.rows change.old) }
{
    let decks = HeldDecks::read(alloc, keeper)?;
    let dues = Dues::none(alloc);
    let by = Refill {
        deck,
        decks: &decks,
        dues: &dues,
    };
    put_refilled(keeper, change, &by)?;
    Ok(())
}

/// The ids of the cards that are away in this deck.
fn read_away<R: Readable>(alloc: Global, from: &mut R, deck: i64) -> Result<List<i64>, KeepFault>
    ensures reads { ReadsBy R.Lookup from.old from.new result (λ h ids. ids ≡ away_ids deck h.rows) }
{
    let mut ids = List::new(alloc);
    let mut walk = Walk::over(Table::Card);
    'pages: while !walk.is_done() {
        let page = walk.next(from)?;
        take_away(deck, page.as_slice(), &mut ids)?;
    }
    Ok(ids)
}

/// Adds the ids of the cards among the rows that are away in this deck.
fn take_away(deck: i64, rows: &[Row], ids: &mut List<i64>) -> Result<(), Memory>
    ensures { OnOk result (ids.new ≡ ids.old ++ filter_map (away_id deck) rows.now) }
{
    let mut rest = rows;
    while let Some((row, others)) = rest.split_first() {
        take_one(deck, row, ids)?;
        rest = others;
    }
    Ok(())
}

/// Adds the id of the row, if it is a card that is away in this deck.
fn take_one(deck: i64, row: &Row, ids: &mut List<i64>) -> Result<(), Memory>
    ensures { OnOk result (ids.new ≡ ids.old ++ filter_map (away_id deck) (row.now ∷ [])) }
{
    match row {
        Row::Card(card) => {
            if is_away_in(deck, card) {
                ids.push(card.id)?;
            }
            Ok(())
        }
        _ => Ok(()),
    }
}
