ghost use Rattle.std.specs.Prelude.{◌≡◌, true, false, IfErr};
ghost use Rattle.ak_decks.specs.DeckOptions.{IsUseFault, RefusesUse, options_use, using_options};
ghost use Rattle.ak_edit.specs.Refusals.{DeskCause};
ghost use Rattle.ak_edit_calls.specs.Calls.{EditsBy};
ghost use Rattle.ak_keep.specs.Keepers.{is_marked};

use ak_base::{Name, Row, Table};
use ak_edit::DeskFault;
use ak_edit_calls::{edit_row, held_row};
use ak_keep::Keeper;
use ak_undo::UndoList;

/// The id of a deck, and the id of the options that it gets.
#[derive(Clone, Copy, Debug)]
pub struct UseOptions {
    pub deck: i64,
    pub options: i64,
}

/// Gives a deck other options, at a moment in milliseconds. A deck that has them already is left alone. It is refused if the
/// deck is not held, then if the options are not, and then for a stamp or a moment that can't rise.
pub fn use_options<K: Keeper>(
    keeper: &mut K,
    steps: &mut UndoList,
    used: &UseOptions,
    at: i64,
) -> Result<(), DeskFault>
    requires unmarked { is_marked (K.keeping keeper.old) ≡ false }
    requires held { (K.keeping keeper.old).headed.current ≡ true }
    ensures edits { EditsBy K.Lookup keeper.old keeper.new steps.old steps.new result at
        (options_use used.now.options used.now.deck) (RefusesUse at used.now.options used.now.deck) }
    ensures listed { IfErr result IsUseFault }
    ensures cause { DeskCause (K.health keeper.old) (K.health keeper.new) result }
{
    let deck = Name {
        table: Table::Deck,
        id: used.deck,
    };
    let options = Name {
        table: Table::Options,
        id: used.options,
    };
    let row = held_row(keeper, deck)?;
    let group = held_row(keeper, options)?;
    drop(group);
    edit_row(keeper, steps, with_options(row, options), at)
}

/// The row with the options of this name, if it is a deck.
fn with_options(row: Row, options: Name) -> Row
    ensures { result ≡ using_options options.id row }
{
    match row {
        Row::Deck(deck) => {
            let mut made = deck;
            made.options = options.id;
            Row::Deck(made)
        }
        other => other,
    }
}
