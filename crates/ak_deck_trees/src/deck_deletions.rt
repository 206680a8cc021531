ghost use Rattle.std.specs.Prelude.{◌≡◌, true, false, IfErr, OnOk};
ghost use Rattle.ak_deck_trees.specs.DeckDeletions.{IsDeckDeletionFault, IsDefaultFault, IsTreeDeletionFault, RefusesDeckDeletion, RefusesDefault, RefusesTreeDeletion, deck_deletion, swept, swept_one, tree_deletion, without_rows_of, without_tree};
ghost use Rattle.ak_deck_trees.specs.Trees.{goes_with};
ghost use Rattle.ak_edit.specs.Refusals.{AnswersBy, DeskCause};
ghost use Rattle.ak_edit_calls.specs.Calls.{ChangesBy, EditsBy};
ghost use Rattle.ak_keep.specs.Keepers.{KeepCause, WhereTold, is_marked};

use crate::trees::{goes_with, is_in_tree};
use ak_base::{Name, Row, Table};
use ak_edit::{Change, DeskFault};
use ak_edit_calls::{held_row, path_of};
use ak_keep::{KeepFault, Keeper, Walk};
use ak_undo::UndoList;

/// Deletes the deck of an id with its subtree, at a moment in milliseconds. The cards of these decks go too, and the notes that
/// have no other cards; a note that had no card stays, and so do the reviews. Each row that goes leaves its grave. It is refused
/// if the deck is not held, then if deck 1 is in the subtree, and then for a moment that can't rise.
pub fn delete_deck<K: Keeper>(
    keeper: &mut K,
    steps: &mut UndoList,
    deck: i64,
    at: i64,
) -> Result<(), DeskFault>
    requires unmarked { is_marked (K.keeping keeper.old) ≡ false }
    requires held { (K.keeping keeper.old).headed.current ≡ true }
    ensures edits { EditsBy K.Lookup keeper.old keeper.new steps.old steps.new result at
        (deck_deletion deck) (RefusesDeckDeletion at deck) }
    ensures listed { IfErr result IsDeckDeletionFault }
    ensures cause { DeskCause (K.health keeper.old) (K.health keeper.new) result }
{
    let name = Name {
        table: Table::Deck,
        id: deck,
    };
    let row = held_row(keeper, name)?;
    delete_tree(keeper, steps, path_of(&row), at)
}

/// Deletes all that belongs to the subtree of a path.
fn delete_tree<K: Keeper>(
    keeper: &mut K,
    steps: &mut UndoList,
    root: &str,
    at: i64,
) -> Result<(), DeskFault>
    requires unmarked { is_marked (K.keeping keeper.old) ≡ false }
    requires held { (K.keeping keeper.old).headed.current ≡ true }
    ensures edits { EditsBy K.Lookup keeper.old keeper.new steps.old steps.new result at
        (tree_deletion root.now) (RefusesTreeDeletion at root.now) }
    ensures listed { IfErr result IsTreeDeletionFault }
    ensures cause { DeskCause (K.health keeper.old) (K.health keeper.new) result }
{
    keep_default(keeper, root)?;
    let mut change = Change::new(steps.allocator());
    remove_tree(keeper, &mut change, root)?;
    change.finish(keeper, steps, at)
}

/// Refuses a path in whose subtree deck 1 is.
fn keep_default<K: Keeper>(keeper: &mut K, root: &str) -> Result<(), DeskFault>
    ensures same { K.keeping keeper.new ≡ K.keeping keeper.old }
    ensures refused { WhereTold (K.keeping keeper.old) (λ h. AnswersBy (RefusesDefault root.now h.rows) result) }
    ensures listed { IfErr result IsDefaultFault }
    ensures cause { DeskCause (K.health keeper.old) (K.health keeper.new) result }
{
    if is_in_tree(keeper, root, 1)? {
        return Err(DeskFault::DefaultKept(Name {
            table: Table::Deck,
            id: 1,
        }));
    }
    Ok(())
}

/// Removes the decks, the cards and the notes that belong to the subtree of the path.
fn remove_tree<K: Keeper>(keeper: &mut K, change: &mut Change, root: &str) -> Result<(), KeepFault>
    ensures same { K.keeping keeper.new ≡ K.keeping keeper.old }
    ensures ok { OnOk result (ChangesBy K.Lookup keeper.old change.old change.new (without_tree root.now)) }
    ensures cause { KeepCause (K.health keeper.old) (K.health keeper.new) result }
{
    remove_from(keeper, change, root, Table::Deck)?;
    remove_from(keeper, change, root, Table::Card)?;
    remove_from(keeper, change, root, Table::Note)?;
    Ok(())
}

/// Removes the rows of the table that belong to the subtree of the path.
#[tactic(auto, using(crate::proofs::TreeAnswers::pages_swept))]
fn remove_from<K: Keeper>(
    keeper: &mut K,
    change: &mut Change,
    root: &str,
    table: Table,
) -> Result<(), KeepFault>
    ensures same { K.keeping keeper.new ≡ K.keeping keeper.old }
    ensures ok { OnOk result (ChangesBy K.Lookup keeper.old change.old change.new (without_rows_of root.now table)) }
    ensures cause { KeepCause (K.health keeper.old) (K.health keeper.new) result }
{
    let mut walk = Walk::over(table);
    'pages: while !walk.is_done() {
        let page = walk.next(keeper)?;
        remove_among(keeper, change, root, page.as_slice())?;
    }
    Ok(())
}

/// Removes those of the rows that belong to the subtree of the path.
fn remove_among<K: Keeper>(
    keeper: &mut K,
    change: &mut Change,
    root: &str,
    among: &[Row],
) -> Result<(), KeepFault>
    ensures same { K.keeping keeper.new ≡ K.keeping keeper.old }
    ensures ok { OnOk result (ChangesBy K.Lookup keeper.old change.old change.new
        (λ rows. swept (goes_with root.now rows) among.now)) }
    ensures cause { KeepCause (K.health keeper.old) (K.health keeper.new) result }
{
    for row in among {
        remove_going(keeper, change, root, row)?;
    }
    Ok(())
}

/// Removes the row if it belongs to the subtree of the path.
fn remove_going<K: Keeper>(
    keeper: &mut K,
    change: &mut Change,
    root: &str,
    row: &Row,
) -> Result<(), KeepFault>
    ensures same { K.keeping keeper.new ≡ K.keeping keeper.old }
    ensures ok { OnOk result (ChangesBy K.Lookup keeper.old change.old change.new
        (λ rows. swept_one (goes_with root.now rows) row.now)) }
    ensures cause { KeepCause (K.health keeper.old) (K.health keeper.new) result }
{
    if goes_with(keeper, root, row)? {
        change.remove(row.name())?;
    }
    Ok(())
}
