ghost use Rattle.std.specs.Prelude.{◌≡◌, pos, true, false, IfErr};
ghost use Rattle.ak_base.specs.Cards.{IsCheckedCard};
ghost use Rattle.ak_base.specs.Heads.{IsWithin};
ghost use Rattle.ak_base.specs.declared.names.Table.TheVariants as tables;
ghost use Rattle.ak_decks.specs.Flags.{RefusesFlag, flagged, flagging};
ghost use Rattle.ak_edit.specs.Refusals.{DeskCause};
ghost use Rattle.ak_edit_calls.specs.Calls.{EditsBy, IsMissingOrEnd};
ghost use Rattle.ak_keep.specs.Keepers.{is_marked};

use ak_base::Card;
use ak_edit::DeskFault;
use ak_edit_calls::{CardChange, CardEdit, edit_cards};
use ak_keep::Keeper;
use ak_undo::UndoList;

/// Cards by their ids, in any order and also more than once, and the flag that they get: 0 for none, or 1 to 7.
#[derive(Clone, Copy, Debug)]
pub struct FlagCards<'a> {
    pub cards: &'a [i64],
    pub value: i64,
}

/// Gives a flag to cards, at a moment in milliseconds. A card that has it already is left alone. It is refused for the first
/// card in the order of the list that is not held, and then for a stamp or a moment that can't rise.
pub fn flag<K: Keeper>(
    keeper: &mut K,
    steps: &mut UndoList,
    flag: &FlagCards,
    at: i64,
) -> Result<(), DeskFault>
    requires unmarked { is_marked (K.keeping keeper.old) ≡ false }
    requires held { (K.keeping keeper.old).headed.current ≡ true }
    requires value { IsWithin (pos 0) (pos 7) flag.now.value }
    ensures edits { EditsBy K.Lookup keeper.old keeper.new steps.old steps.new result at
        (flagging flag.now.value flag.now.cards.now) (RefusesFlag at flag.now.value flag.now.cards.now) }
    ensures listed { IfErr result (IsMissingOrEnd tables.Card) }
    ensures cause { DeskCause (K.health keeper.old) (K.health keeper.new) result }
{
    let by = SetFlag { value: flag.value };
    let edit = CardEdit {
        cards: flag.cards,
        by: &by,
    };
    edit_cards(keeper, steps, &edit, at)
}

/// The change that gives a card this flag, 0 to 7.
#[derive(Drop)]
struct SetFlag {
    value: i64,
    ghost in_range: { IsWithin (pos 0) (pos 7) value },
}

impl CardChange for SetFlag {
    ghost use Rattle.ak_decks.specs.Flags.{flagged};

    ghost change = { λ by. flagged by.value };

    fn apply(&self, card: Card) -> Card {
        with_flag(card, self.value)
    }
}

/// The card with this flag in place of the one that it has.
fn with_flag(card: Card, value: i64) -> Card
    requires checked { IsCheckedCard card }
    requires value { IsWithin (pos 0) (pos 7) value }
    ensures { result ≡ flagged value card }
{
    let mut made = card;
    made.flags = made.flags - made.flags % 8 + value;
    made
}
