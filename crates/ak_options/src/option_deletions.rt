ghost use Rattle.std.specs.Prelude.{◌≡◌, true, false, IfErr, OnOk};
ghost use Rattle.ak_edit.specs.Refusals.{AnswersBy, DeskCause};
ghost use Rattle.ak_edit_calls.specs.Calls.{ChangesBy, EditsBy};
ghost use Rattle.ak_keep.specs.Keepers.{KeepCause, is_marked};
ghost use Rattle.ak_options.specs.OptionDeletions.{IsAskedFault, IsDeletionFault, RefusesAsked, RefusesDeletion, has_options, held_defaults, options_deletion, put_default, put_defaults, with_default};

use ak_base::{Memory, Name, Row, Table};
use ak_edit::{Change, DeskFault};
use ak_edit_calls::held_row;
use ak_keep::{KeepFault, Keeper, Walk};
use ak_undo::UndoList;

/// The id of a group of options, and whether the schema may change.
#[derive(Clone, Copy, Debug)]
pub struct DeleteOptions {
    pub options: i64,
    pub allow: bool,
}

/// Deletes a group of options, at a moment in milliseconds. The decks that have it go back to options 1. The schema changes,
/// so the undo list is emptied, and the next sync is a full one. It is refused if the group is not held, then if it is options
/// 1, then if the schema may not change, and then for a stamp or a moment that can't rise.
pub fn delete_options<K: Keeper>(
    keeper: &mut K,
    steps: &mut UndoList,
    deleted: &DeleteOptions,
    at: i64,
) -> Result<(), DeskFault>
    requires unmarked { is_marked (K.keeping keeper.old) ≡ false }
    requires held { (K.keeping keeper.old).headed.current ≡ true }
    ensures edits { EditsBy K.Lookup keeper.old keeper.new steps.old steps.new result at
        (options_deletion deleted.now.options) (RefusesDeletion at deleted.now.options deleted.now.allow) }
    ensures listed { IfErr result (IsDeletionFault deleted.now.options) }
    ensures cause { DeskCause (K.health keeper.old) (K.health keeper.new) result }
{
    let name = Name {
        table: Table::Options,
        id: deleted.options,
    };
    let group = held_row(keeper, name)?;
    drop(group);
    test_asked(deleted)?;
    let mut change = Change::new(steps.allocator());
    put_decks(keeper, &mut change, deleted)?;
    change.change_schema();
    change.remove(name)?;
    change.finish(keeper, steps, at)
}

/// Refuses options 1, and then a change of the schema that is not allowed.
fn test_asked(deleted: &DeleteOptions) -> Result<(), DeskFault>
    ensures refused { AnswersBy (RefusesAsked deleted.now.options deleted.now.allow) result }
    ensures listed { IfErr result IsAskedFault }
{
    if deleted.options == 1 {
        return Err(DeskFault::DefaultKept(Name {
            table: Table::Options,
            id: 1,
        }));
    }
    if !deleted.allow {
        return Err(DeskFault::SchemaAsk);
    }
    Ok(())
}

/// Puts the decks that have the options with options 1, as they are held.
fn put_decks<K: Keeper>(
    keeper: &mut K,
    change: &mut Change,
    deleted: &DeleteOptions,
) -> Result<(), KeepFault>
    ensures same { K.keeping keeper.new ≡ K.keeping keeper.old }
    ensures ok { OnOk result (ChangesBy K.Lookup keeper.old change.old change.new (held_defaults deleted.now.options)) }
    ensures cause { KeepCause (K.health keeper.old) (K.health keeper.new) result }
{
    let mut walk = Walk::over(Table::Deck);
    'pages: while !walk.is_done() {
        let page = walk.next(keeper)?;
        put_page(change, page.into_vec(), deleted)?;
    }
    Ok(())
}

/// Puts those of the rows that are decks with the options, with options 1.
fn put_page(change: &mut Change, rows: Vec<Row>, deleted: &DeleteOptions) -> Result<(), Memory>
    ensures { OnOk result (change.new ≡ put_defaults deleted.now.options rows.items change.old) }
{
    for row in rows {
        put_row(change, row, deleted)?;
    }
    Ok(())
}

/// Puts the row with options 1, if it is a deck with the options.
fn put_row(change: &mut Change, row: Row, deleted: &DeleteOptions) -> Result<(), Memory>
    ensures { OnOk result (change.new ≡ put_default deleted.now.options row change.old) }
{
    if has_options(&row, deleted) {
        change.put(with_default(row))?;
    }
    Ok(())
}

/// Whether the row is a deck with the options.
fn has_options(row: &Row, deleted: &DeleteOptions) -> bool
    ensures { result ≡ has_options deleted.now.options row.now }
{
    match row {
        Row::Deck(deck) => deck.options == deleted.options,
        _ => false,
    }
}

/// The row with options 1, if it is a deck.
fn with_default(row: Row) -> Row
    ensures { result ≡ with_default row }
{
    match row {
        Row::Deck(deck) => {
            let mut made = deck;
            made.options = 1;
            Row::Deck(made)
        }
        other => other,
    }
}
