ghost use Rattle.std.specs.Prelude.{◌≡◌, true, false, IfErr};
ghost use Rattle.ak_base.specs.declared.names.Table.TheVariants as tables;
ghost use Rattle.ak_edit.specs.Refusals.{DeskCause};
ghost use Rattle.ak_edit_calls.specs.Calls.{EditsBy, IsMissingOrEnd};
ghost use Rattle.ak_edit_calls.specs.CardEdits.{RefusesCardEdit, card_edit};
ghost use Rattle.ak_keep.specs.Keepers.{is_marked};
ghost use Rattle.ak_study.specs.CardPlaces.{buried_by_hand, lies_buried, queued, restored, suspended, unsuspended};

use ak_base::Card;
use ak_edit::DeskFault;
use ak_edit_calls::{CardChange, CardEdit, edit_cards};
use ak_keep::Keeper;
use ak_queue::restored_queue;
use ak_undo::UndoList;

/// Suspends cards by their ids, in any order and also more than once, at a moment in milliseconds. A buried card is suspended
/// too. It is refused for the first card in the order of the list that is not held, and then for a stamp or a moment that can't
/// rise.
pub fn suspend<K: Keeper>(
    keeper: &mut K,
    steps: &mut UndoList,
    cards: &[i64],
    at: i64,
) -> Result<(), DeskFault>
    requires unmarked { is_marked (K.keeping keeper.old) ≡ false }
    requires held { (K.keeping keeper.old).headed.current ≡ true }
    ensures edits { EditsBy K.Lookup keeper.old keeper.new steps.old steps.new result at
        (card_edit suspended cards.now) (RefusesCardEdit at suspended cards.now) }
    ensures listed { IfErr result (IsMissingOrEnd tables.Card) }
    ensures cause { DeskCause (K.health keeper.old) (K.health keeper.new) result }
{
    let edit = CardEdit {
        cards,
        by: &ToSuspended,
    };
    edit_cards(keeper, steps, &edit, at)
}

/// Brings suspended cards back, by their ids, in any order and also more than once, at a moment in milliseconds. Other cards are
/// left alone, buried ones too. It is refused as `suspend` is.
pub fn unsuspend<K: Keeper>(
    keeper: &mut K,
    steps: &mut UndoList,
    cards: &[i64],
    at: i64,
) -> Result<(), DeskFault>
    requires unmarked { is_marked (K.keeping keeper.old) ≡ false }
    requires held { (K.keeping keeper.old).headed.current ≡ true }
    ensures edits { EditsBy K.Lookup keeper.old keeper.new steps.old steps.new result at
        (card_edit unsuspended cards.now) (RefusesCardEdit at unsuspended cards.now) }
    ensures listed { IfErr result (IsMissingOrEnd tables.Card) }
    ensures cause { DeskCause (K.health keeper.old) (K.health keeper.new) result }
{
    let edit = CardEdit {
        cards,
        by: &ToUnsuspended,
    };
    edit_cards(keeper, steps, &edit, at)
}

/// Buries cards until the next day's start, by their ids, in any order and also more than once, at a moment in milliseconds.
/// Suspended and buried cards are left alone. It is refused as `suspend` is.
pub fn bury<K: Keeper>(
    keeper: &mut K,
    steps: &mut UndoList,
    cards: &[i64],
    at: i64,
) -> Result<(), DeskFault>
    requires unmarked { is_marked (K.keeping keeper.old) ≡ false }
    requires held { (K.keeping keeper.old).headed.current ≡ true }
    ensures edits { EditsBy K.Lookup keeper.old keeper.new steps.old steps.new result at
        (card_edit buried_by_hand cards.now) (RefusesCardEdit at buried_by_hand cards.now) }
    ensures listed { IfErr result (IsMissingOrEnd tables.Card) }
    ensures cause { DeskCause (K.health keeper.old) (K.health keeper.new) result }
{
    let edit = CardEdit {
        cards,
        by: &ToBuried,
    };
    edit_cards(keeper, steps, &edit, at)
}

/// The change that suspends a card.
#[derive(Drop)]
struct ToSuspended;

impl CardChange for ToSuspended {
    ghost use Rattle.ak_study.specs.CardPlaces.{suspended};

    ghost change = { λ _. suspended };

    fn apply(&self, card: Card) -> Card {
        queued(card, -1)
    }
}

/// The change that brings a suspended card back.
#[derive(Drop)]
struct ToUnsuspended;

impl CardChange for ToUnsuspended {
    ghost use Rattle.ak_study.specs.CardPlaces.{unsuspended};

    ghost change = { λ _. unsuspended };

    fn apply(&self, card: Card) -> Card {
        if card.queue == -1 {
            return restored(card);
        }
        card
    }
}

/// The change that buries a card.
#[derive(Drop)]
struct ToBuried;

impl CardChange for ToBuried {
    ghost use Rattle.ak_study.specs.CardPlaces.{buried_by_hand};

    ghost change = { λ _. buried_by_hand };

    fn apply(&self, card: Card) -> Card {
        if card.queue < 0 {
            return card;
        }
        queued(card, -3)
    }
}

/// The card in this queue.
pub(crate) fn queued(card: Card, queue: i64) -> Card
    ensures { result ≡ queued queue card }
{
    let mut made = card;
    made.queue = queue;
    made
}

/// The card in the queue that it goes back to.
pub(crate) fn restored(card: Card) -> Card
    ensures { result ≡ restored card }
{
    let queue = restored_queue(&card);
    queued(card, queue)
}

/// Whether the card is buried, as a sibling or by hand.
pub(crate) fn lies_buried(card: &Card) -> bool
    ensures { result ≡ lies_buried card.now }
{
    card.queue == -2 || card.queue == -3
}
