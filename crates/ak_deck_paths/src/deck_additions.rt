ghost use Rattle.std.specs.Prelude.{◌≡◌, ◌<◌, pos, length, true, false, None, IfErr, IfOk, OnErr, OnOk};
ghost use Rattle.ak_edit.specs.Refusals.{AnswersBy, DeskCause};
ghost use Rattle.ak_keep.specs.Collections.{IsId};
ghost use Rattle.ak_keep.specs.Keepers.{WhereHeld, WhereTold, is_marked};
ghost use Rattle.ak_deck_paths.specs.Additions.{AreAddedIn, DoesAdd, IsUseFault, RefusesAddition, RefusesToAdd, RefusesToMake, RefusesFirst, added_paths, id_of_last};
ghost use Rattle.ak_deck_paths.specs.ChangedDecks.{IsPathFault};
ghost use Rattle.ak_deck_paths.specs.DeckPaths.{has_path};
ghost use Rattle.ak_deck_paths.specs.GivenPaths.{path_fault};

use crate::changed_decks::{ChangedDecks, change_of};
use crate::deck_paths::missing_above;
use crate::given_paths::check_path;
use crate::held_decks::id_of_path;
use crate::made_decks::new_decks;
use ak_base::{Deck, List, Memory, Name, Table, Text};
use ak_edit::DeskFault;
use ak_keep::{Keeper, read_decks};
use ak_undo::UndoList;
use std::alloc::Global;

/// Adds a deck of this path, at a moment in milliseconds, and gives its id. The decks that are missing above it are made first, from
/// the top. Each deck that is made has options 1, and an id that no deck and no grave of a deck has: the least one from the
/// moment on, at least 1, and after that of the deck made before it. It is refused if the path is out of its range (1 to 512 bytes, none under a space, no part empty), then if a deck has it (the
/// fault names the least id), then if there are too few free ids, and then for a stamp or a moment that can't rise.
pub fn add_deck<K: Keeper>(
    keeper: &mut K,
    steps: &mut UndoList,
    path: &str,
    at: i64,
) -> Result<i64, DeskFault>
    requires unmarked { is_marked (K.keeping keeper.old) ≡ false }
    requires held { (K.keeping keeper.old).headed.current ≡ true }
    ensures ok { IfOk result (DoesAdd at path.now (K.keeping keeper.old) (K.keeping keeper.new) steps.old steps.new) }
    ensures given { OnOk result (path_fault path.now ≡ None) }
    ensures range { IfOk result IsId }
    ensures err { OnErr result (K.keeping keeper.new ≡ K.keeping keeper.old) }
    ensures kept { OnErr result (steps.new ≡ steps.old) }
    ensures stays { (K.keeping keeper.new).headed ≡ (K.keeping keeper.old).headed }
    ensures refused { WhereHeld (K.keeping keeper.old) (λ c. AnswersBy (RefusesAddition at path.now c) result) }
    ensures listed { IfErr result IsPathFault }
    ensures cause { DeskCause (K.health keeper.old) (K.health keeper.new) result }
{
    let alloc = steps.allocator();
    let made = read_addition(alloc, keeper, path, at)?;
    let id = id_of_last(made.as_slice());
    let moved = List::new(alloc);
    let change = change_of(alloc, ChangedDecks { moved, made })?;
    change.finish(keeper, steps, at)?;
    Ok(id)
}

/// The id of the last deck, 0 if there are none. Of the decks that are made for a path the last is that of the path itself.
pub fn id_of_last(decks: &[Deck]) -> i64
    ensures { result ≡ id_of_last (pos 0) decks.now }
{
    let mut id = 0;
    for deck in decks {
        id = deck.id;
    }
    id
}

/// The decks that are made for a deck of this path, refused for the first of its tests that holds.
fn read_addition<K: Keeper>(
    alloc: Global,
    keeper: &mut K,
    path: &str,
    at: i64,
) -> Result<List<Deck>, DeskFault>
    ensures same { K.keeping keeper.new ≡ K.keeping keeper.old }
    ensures made { IfOk result (λ made. WhereTold (K.keeping keeper.old) (AreAddedIn at path.now made)) }
    ensures given { OnOk result (path_fault path.now ≡ None) }
    ensures range { IfOk result (λ made. IsId (id_of_last (pos 0) made)) }
    ensures refused { WhereTold (K.keeping keeper.old) (λ h. AnswersBy (RefusesToAdd at path.now h.rows) result) }
    ensures listed { IfErr result IsPathFault }
    ensures cause { DeskCause (K.health keeper.old) (K.health keeper.new) result }
{
    check_path(path)?;
    make_decks(alloc, keeper, path, at)
}

/// The decks that are made for a deck of this path, refused if a deck has it, and then if there are too few ids.
fn make_decks<K: Keeper>(
    alloc: Global,
    keeper: &mut K,
    path: &str,
    at: i64,
) -> Result<List<Deck>, DeskFault>
    ensures same { K.keeping keeper.new ≡ K.keeping keeper.old }
    ensures made { IfOk result (λ made. WhereTold (K.keeping keeper.old) (AreAddedIn at path.now made)) }
    ensures range { IfOk result (λ made. IsId (id_of_last (pos 0) made)) }
    ensures refused { WhereTold (K.keeping keeper.old) (λ h. AnswersBy (RefusesToMake at path.now h.rows) result) }
    ensures listed { IfErr result IsPathFault }
    ensures cause { DeskCause (K.health keeper.old) (K.health keeper.new) result }
{
    let decks = read_decks(alloc, keeper)?;
    check_free(decks.as_slice(), path)?;
    let paths = added_paths(alloc, decks.as_slice(), path)?;
    new_decks(keeper, &paths, at)
}

/// Refuses a path that one of the decks has: the fault names the first of them, which has the least id if the decks ascend.
pub fn check_free(decks: &[Deck], path: &str) -> Result<(), DeskFault>
    ensures refused { AnswersBy (RefusesFirst (has_path path.now) decks.now) result }
    ensures listed { IfErr result IsUseFault }
{
    match id_of_path(decks, path) {
        Some(id) => Err(DeskFault::InUse(Name {
            table: Table::Deck,
            id,
        })),
        None => Ok(()),
    }
}

/// The paths above this one that none of the decks has, from the top, and this one: those of the decks that are made for it.
pub fn added_paths(alloc: Global, decks: &[Deck], path: &str) -> Result<List<Text>, Memory>
    ensures paths { IfOk result (λ paths. paths ≡ added_paths decks.now path.now) }
    ensures some { IfOk result (λ paths. 0 < length paths) }
{
    let mut paths = missing_above(alloc, decks, path)?;
    paths.push(Text::of(alloc, path)?)?;
    Ok(paths)
}
