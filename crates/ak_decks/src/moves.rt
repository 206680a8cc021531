ghost use Rattle.std.specs.Prelude.{◌≡◌, true, false, IfErr};
ghost use Rattle.ak_decks.specs.Moves.{IsMoveFault, RefusesMove, moving};
ghost use Rattle.ak_edit.specs.Refusals.{DeskCause};
ghost use Rattle.ak_edit_calls.specs.Calls.{EditsBy};
ghost use Rattle.ak_keep.specs.Collections.{IsId};
ghost use Rattle.ak_keep.specs.Keepers.{is_marked};

use ak_base::{Card, Name, Table};
use ak_edit::DeskFault;
use ak_edit_calls::{CardChange, CardEdit, edit_cards, held_row};
use ak_keep::Keeper;
use ak_undo::UndoList;

/// Cards by their ids, in any order and also more than once, and the id of the deck that they go to.
#[derive(Clone, Copy, Debug)]
pub struct MoveCards<'a> {
    pub cards: &'a [i64],
    pub deck: i64,
}

/// Moves cards to a deck, at a moment in milliseconds. A card that is there already is left alone. It is refused if the deck is
/// not held, then for the first card in the order of the list that is not held, and then for a stamp or a moment that can't rise.
pub fn move_cards<K: Keeper>(
    keeper: &mut K,
    steps: &mut UndoList,
    moved: &MoveCards,
    at: i64,
) -> Result<(), DeskFault>
    requires unmarked { is_marked (K.keeping keeper.old) ≡ false }
    requires held { (K.keeping keeper.old).headed.current ≡ true }
    ensures edits { EditsBy K.Lookup keeper.old keeper.new steps.old steps.new result at
        (moving moved.now.deck moved.now.cards.now) (RefusesMove at moved.now.deck moved.now.cards.now) }
    ensures listed { IfErr result IsMoveFault }
    ensures cause { DeskCause (K.health keeper.old) (K.health keeper.new) result }
{
    let name = Name {
        table: Table::Deck,
        id: moved.deck,
    };
    let deck = held_row(keeper, name)?;
    drop(deck);
    let by = MoveTo { deck: moved.deck };
    let edit = CardEdit {
        cards: moved.cards,
        by: &by,
    };
    edit_cards(keeper, steps, &edit, at)
}

/// The change that puts a card into the deck of this id.
#[derive(Drop)]
struct MoveTo {
    deck: i64,
    ghost in_range: { IsId deck },
}

impl CardChange for MoveTo {
    ghost use Rattle.ak_decks.specs.Moves.{moved};

    ghost change = { λ by. moved by.deck };

    fn apply(&self, card: Card) -> Card {
        let mut made = card;
        made.did = self.deck;
        made
    }
}
