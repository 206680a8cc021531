ghost use Rattle.std.specs.Prelude.{◌≡◌, true, false, None, IfErr, IfOk, OnErr, OnOk};
ghost use Rattle.ak_edit.specs.Refusals.{AnswersBy, DeskCause};
ghost use Rattle.ak_keep.specs.Keepers.{WhereHeld, WhereTold, is_marked};
ghost use Rattle.ak_base.specs.declared.names.Table.TheVariants as tables;
ghost use Rattle.ak_deck_paths.specs.DeckPaths.{moved_decks};
ghost use Rattle.ak_deck_paths.specs.Additions.{IsUseFault};
ghost use Rattle.ak_deck_paths.specs.ChangedDecks.{IsPathFault};
ghost use Rattle.ak_deck_paths.specs.GivenPaths.{path_fault};
ghost use Rattle.ak_deck_paths.specs.Renames.{DoesMove, DoesRename, IsChangedIn, IsRenameFault, RefusesOld, RefusesPaths, RefusesRename, RefusesToChange, RefusesToMove};

use crate::changed_decks::{ChangedDecks, change_of};
use crate::deck_paths::{is_below, missing_above, moved_decks};
use crate::given_paths::check_path;
use crate::held_decks::id_in_way;
use crate::made_decks::new_decks;
use ak_base::{Deck, Name, Table};
use ak_edit::DeskFault;
use ak_edit_calls::{held_row, path_of};
use ak_keep::{Keeper, read_decks};
use ak_undo::UndoList;
use std::alloc::Global;

/// The id of a deck, and the path that it is to have: 1 to 512 bytes, none under a space, and no part between `::` empty.
#[derive(Drop)]
pub struct RenameDeck<'a> {
    pub deck: i64,
    pub path: &'a str,
}

/// Renames a deck, at a moment in milliseconds. The paths of its subtree follow, and the decks that are missing above the new path
/// are made from the top, as `add_deck` makes them. To the path that it has already, nothing changes but that those are made.
/// It is refused if the deck is not held, then if the path is out of its range, then if a deck outside the subtree has one of
/// the new paths (the fault names the least id), then if the new path is below the old one (the fault names the deck), then
/// if there are too few free ids, then if a path of the subtree grows over 512 bytes, and then for a stamp or a moment that
/// can't rise.
pub fn rename_deck<K: Keeper>(
    keeper: &mut K,
    steps: &mut UndoList,
    rename: &RenameDeck,
    at: i64,
) -> Result<(), DeskFault>
    requires unmarked { is_marked (K.keeping keeper.old) ≡ false }
    requires held { (K.keeping keeper.old).headed.current ≡ true }
    ensures ok { OnOk result (DoesRename at rename.now.deck rename.now.path.now
        (K.keeping keeper.old) (K.keeping keeper.new) steps.old steps.new) }
    ensures given { OnOk result (path_fault rename.now.path.now ≡ None) }
    ensures err { OnErr result (K.keeping keeper.new ≡ K.keeping keeper.old) }
    ensures kept { OnErr result (steps.new ≡ steps.old) }
    ensures stays { (K.keeping keeper.new).headed ≡ (K.keeping keeper.old).headed }
    ensures refused { WhereHeld (K.keeping keeper.old)
        (λ c. AnswersBy (RefusesRename at rename.now.deck rename.now.path.now c) result) }
    ensures listed { IfErr result (IsRenameFault rename.now.deck) }
    ensures cause { DeskCause (K.health keeper.old) (K.health keeper.new) result }
{
    let row = held_row(keeper, deck_name(rename.deck))?;
    let change = PathChange {
        deck: rename.deck,
        old: path_of(&row),
        new: rename.path,
    };
    move_tree(keeper, steps, &change, at)
}

/// The name of the deck of this id.
fn deck_name(id: i64) -> Name
    ensures { result ≡ record { table = tables.Deck; id = id } }
{
    Name {
        table: Table::Deck,
        id,
    }
}

/// The id of a deck, its path, and the one that it is to have.
#[derive(Drop)]
struct PathChange<'a> {
    deck: i64,
    old: &'a str,
    new: &'a str,
}

/// Gives the subtree of the old path the new one.
fn move_tree<K: Keeper>(
    keeper: &mut K,
    steps: &mut UndoList,
    change: &PathChange,
    at: i64,
) -> Result<(), DeskFault>
    requires unmarked { is_marked (K.keeping keeper.old) ≡ false }
    requires held { (K.keeping keeper.old).headed.current ≡ true }
    ensures ok { OnOk result (DoesMove at change.now.old.now change.now.new.now
        (K.keeping keeper.old) (K.keeping keeper.new) steps.old steps.new) }
    ensures given { OnOk result (path_fault change.now.new.now ≡ None) }
    ensures err { OnErr result (K.keeping keeper.new ≡ K.keeping keeper.old) }
    ensures kept { OnErr result (steps.new ≡ steps.old) }
    ensures stays { (K.keeping keeper.new).headed ≡ (K.keeping keeper.old).headed }
    ensures refused { WhereHeld (K.keeping keeper.old)
        (λ c. AnswersBy (RefusesOld at change.now.deck change.now.old.now change.now.new.now c) result) }
    ensures listed { IfErr result IsPathFault }
    ensures cause { DeskCause (K.health keeper.old) (K.health keeper.new) result }
{
    let alloc = steps.allocator();
    let decks = read_changed(alloc, keeper, change, at)?;
    let edit = change_of(alloc, decks)?;
    edit.finish(keeper, steps, at)
}

/// The decks that the call puts, refused for the first of its tests that holds.
fn read_changed<K: Keeper>(
    alloc: Global,
    keeper: &mut K,
    change: &PathChange,
    at: i64,
) -> Result<ChangedDecks, DeskFault>
    ensures same { K.keeping keeper.new ≡ K.keeping keeper.old }
    ensures changed { IfOk result (λ decks. WhereTold (K.keeping keeper.old)
        (IsChangedIn at change.now.old.now change.now.new.now decks)) }
    ensures given { OnOk result (path_fault change.now.new.now ≡ None) }
    ensures refused { WhereTold (K.keeping keeper.old)
        (λ h. AnswersBy (RefusesToChange at change.now.deck change.now.old.now change.now.new.now h.rows) result) }
    ensures listed { IfErr result IsPathFault }
    ensures cause { DeskCause (K.health keeper.old) (K.health keeper.new) result }
{
    check_path(change.new)?;
    move_decks(alloc, keeper, change, at)
}

/// The decks that the call puts, refused if a new path is in use, and then if there are too few ids.
fn move_decks<K: Keeper>(
    alloc: Global,
    keeper: &mut K,
    change: &PathChange,
    at: i64,
) -> Result<ChangedDecks, DeskFault>
    ensures same { K.keeping keeper.new ≡ K.keeping keeper.old }
    ensures changed { IfOk result (λ decks. WhereTold (K.keeping keeper.old)
        (IsChangedIn at change.now.old.now change.now.new.now decks)) }
    ensures refused { WhereTold (K.keeping keeper.old)
        (λ h. AnswersBy (RefusesToMove at change.now.deck change.now.old.now change.now.new.now h.rows) result) }
    ensures listed { IfErr result IsPathFault }
    ensures cause { DeskCause (K.health keeper.old) (K.health keeper.new) result }
{
    let decks = read_decks(alloc, keeper)?;
    let moved = moved_decks(alloc, decks.as_slice(), change.old, change.new)?;
    check_place(decks.as_slice(), moved.as_slice(), change)?;
    let paths = missing_above(alloc, decks.as_slice(), change.new)?;
    let made = new_decks(keeper, &paths, at)?;
    Ok(ChangedDecks { moved, made })
}

/// Refuses new paths one of which a deck outside the subtree has, and then a new path below the old one.
fn check_place(decks: &[Deck], moved: &[Deck], change: &PathChange) -> Result<(), DeskFault>
    requires { moved.now ≡ moved_decks change.now.old.now change.now.new.now decks.now }
    ensures refused { AnswersBy (RefusesPaths change.now.deck change.now.old.now change.now.new.now decks.now) result }
    ensures listed { IfErr result IsUseFault }
{
    if let Some(id) = id_in_way(decks, change.old, moved) {
        return Err(DeskFault::InUse(deck_name(id)));
    }
    if is_below(change.old, change.new) {
        return Err(DeskFault::InUse(deck_name(change.deck)));
    }
    Ok(())
}
